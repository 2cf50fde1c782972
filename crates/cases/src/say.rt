// What is told of several cases: a refusal and octets, each with a blank before it; and the front of a slice. The blank before
// a word is a piece of output by itself, in all cases.
use std::io;
use std::io::Write;

pub(crate) fn say_refused<W: Write>(to: &mut W, number: u8) -> io::Result<()> {
    write!(to, " {} {number}", "refused")
}

pub(crate) fn say_octets<W: Write>(to: &mut W, s: &[u8]) -> io::Result<()> {
    for octet in s {
        write!(to, " {octet:02x}")?;
    }
    Ok(())
}

// The first n octets of s, or all of them.
pub(crate) fn front(s: &[u8], n: usize) -> &[u8] {
    &s[..n.min(s.len())]
}

// The first n octets of an output, or all of it, to be lent. No type parameter stands for both a `&` and a `&mut`, so these are two functions.
pub(crate) fn lend(out: &mut [u8], n: usize) -> &mut [u8] {
    let end = n.min(out.len());
    &mut out[..end]
}
