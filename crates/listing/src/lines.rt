// The lines of a listing, put into a lent output at a place. As in the crate text what does not fit is cut; `list` asks first whether all of it fits.
ghost use Rattle.std.specs.Prelude.{◌≡◌, length};
ghost use Rattle.text.specs.Written.{reached, written};
ghost use Rattle.listing.specs.Listing.{line_end, line, end_line};
ghost use Rattle.listing.specs.Lines.{line_of, line_found};

use packet::Packet;
use text::{put, put_decimal, put_numbers};
use walk::Found;

// Puts the numbers that end a line.
fn put_line_end(out: &mut [u8], at: usize, ns: &[u64]) -> usize
    ensures value { result ≡ reached (length out.old) at (line_end ns.now) }
    ensures out_after { out.new ≡ written out.old at (line_end ns.now) }
{
    let to = put_numbers(out, at, ns);
    put(out, to, b"\n")
}

// Puts an offset, a word and numbers, as a line. The lines of `telling` have a number before their word too, which one of these would have to give as an empty word.
fn put_line(out: &mut [u8], at: usize, place: usize, word: &[u8], ns: &[u64]) -> usize
    ensures value { result ≡ reached (length out.old) at (line place word.now ns.now) }
    ensures out_after { out.new ≡ written out.old at (line place word.now ns.now) }
{
    let to = put_decimal(out, at, place as u64);
    let to = put(out, to, word);
    put_line_end(out, to, ns)
}

// Puts the line of a packet that was read at a place. Output and place in it go one by one, as in the crate text.
fn put_packet(out: &mut [u8], at: usize, place: usize, p: Packet) -> usize
    ensures value { result ≡ reached (length out.old) at (line_of place p) }
    ensures out_after { out.new ≡ written out.old at (line_of place p) }
{
    match p {
        Packet::Space {
            apid,
            flags,
            count,
            octets,
            ..
        } => put_line(
            out,
            at,
            place,
            b" space",
            &[apid as u64, flags as u64, count as u64, octets as u64],
        ),
        Packet::Encapsulation {
            protocol: id,
            extension,
            header,
            octets,
            ..
        } => put_line(
            out,
            at,
            place,
            b" encap",
            &[id as u64, extension as u64, header as u64, octets as u64],
        ),
    }
}

// Puts the line of what was found at a place: a packet, or the refusal with the place of its fault.
pub(crate) fn put_found(out: &mut [u8], at: usize, place: usize, found: Found) -> usize
    ensures value { result ≡ reached (length out.old) at (line_found place found.read) }
    ensures out_after { out.new ≡ written out.old at (line_found place found.read) }
{
    match found.read {
        Ok(p) => put_packet(out, at, place, p),
        Err(unread) => {
            let number = u8::from(unread.refusal);
            put_line(
                out,
                at,
                place,
                b" refused",
                &[u64::from(number), u64::from(unread.place)],
            )
        }
    }
}

// Puts the last line: the octets in whole packets, and their count.
pub(crate) fn put_end(out: &mut [u8], at: usize, octets: usize, packets: usize) -> usize
    ensures value { result ≡ reached (length out.old) at (end_line octets packets) }
    ensures out_after { out.new ≡ written out.old at (end_line octets packets) }
{
    let to = put(out, at, b"end");
    put_line_end(out, to, &[octets as u64, packets as u64])
}
