// Text put into a lent output at a place. Every function is total, so no caller owes room: text is cut where the output ends. Each answers the
// place after what it put. The output and the place are handed on one by one: a struct of both would have to borrow the output anew for each line.
#![tactic(auto)]

ghost use Rattle.std.specs.Prelude.{◌≡◌, [], ◌∷◌, ◌+◌, ◌≤◌, length};
ghost use Rattle.octets.specs.Output.{put as puts};
ghost use Rattle.text.specs.Text.{decimal, number, numbers};
ghost use Rattle.text.specs.Written.{reached, written};

use putting::put_octets;

// Puts text into out from index at on.
pub fn put(out: &mut [u8], at: usize, text: &[u8]) -> usize
    ensures value { result ≡ reached (length out.old) at text.now }
    ensures out_after { out.new ≡ written out.old at text.now }
{
    let count = text.len().min(out.len().saturating_sub(at));
    put_octets(out, at, &text[..count]);
    at + count
}

// Puts n in decimal. One digit, as most numbers of a line have, is put without a division. Where there is room for all digits they are put straight
// into out; else they are made elsewhere and cut.
pub fn put_decimal(out: &mut [u8], at: usize, n: u64) -> usize
    ensures value { result ≡ reached (length out.old) at (decimal n) }
    ensures out_after { out.new ≡ written out.old at (decimal n) }
{
    if n < 10 {
        return put_one(out, at, b'0' + n as u8);
    }
    let count = digits_of(n);
    if count <= out.len().saturating_sub(at) {
        put_digits(out, at, count, n);
        return at + count;
    }
    put_cut(out, at, n)
}

// The same by way of an array with all digits.
fn put_cut(out: &mut [u8], at: usize, n: u64) -> usize
    ensures value { result ≡ reached (length out.old) at (decimal n) }
    ensures out_after { out.new ≡ written out.old at (decimal n) }
{
    let mut digits = [0u8; 20];
    let count = digits_of(n);
    put_digits(&mut digits, 0, count, n);
    put(out, at, &digits[..count])
}

// How many digits n has in decimal.
fn digits_of(n: u64) -> usize
    ensures { result ≡ length (decimal n) }
{
    n.max(1).ilog10() as usize + 1
}

// Puts the digits of n, of which there are `count`, from index at on. The last comes first, as it is what n leaves when it is divided by 10.
fn put_digits(out: &mut [u8], at: usize, count: usize, n: u64)
    requires { (count ≡ length (decimal n)) × (at + count ≤ length out.old) }
    ensures { out.new ≡ puts out.old at (decimal n) }
{
    let mut left = n;
    for to in (at..at + count).rev() {
        out[to] = b'0' + (left % 10) as u8;
        left /= 10;
    }
}

// Puts one octet. `put` would do the same, and `list` take a quarter more instructions for a recording of the shortest packets (docs/SPEED.md, list). It is stored by its index, as a proof knows
// nothing of what is written through `get_mut`.
fn put_one(out: &mut [u8], at: usize, octet: u8) -> usize
    ensures value { result ≡ reached (length out.old) at (octet ∷ []) }
    ensures out_after { out.new ≡ written out.old at (octet ∷ []) }
{
    if at < out.len() {
        out[at] = octet;
        return at + 1;
    }
    at
}

// Puts a blank and n in decimal.
fn put_number(out: &mut [u8], at: usize, n: u64) -> usize
    ensures value { result ≡ reached (length out.old) at (number n) }
    ensures out_after { out.new ≡ written out.old at (number n) }
{
    let to = put_one(out, at, b' ');
    put_decimal(out, to, n)
}

// Puts the numbers in ns, each after a blank.
pub fn put_numbers(out: &mut [u8], at: usize, ns: &[u64]) -> usize
    ensures value { result ≡ reached (length out.old) at (numbers ns.now) }
    ensures out_after { out.new ≡ written out.old at (numbers ns.now) }
{
    let mut to = at;
    for n in ns {
        to = put_number(out, to, *n);
    }
    to
}
