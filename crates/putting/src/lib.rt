// Octets and numbers put into a lent output, a number's highest octet first. Every function that is `pub` is total: what does not fit is not put.
#![tactic(auto)]

ghost use Rattle.std.specs.Prelude.{◌≡◌, [], ◌∷◌, ◌+◌, ◌≤◌, leb, length};
ghost use Rattle.octets.specs.Octets.{octets2, octets4};
ghost use Rattle.octets.specs.Output.{put, put_if_fits};

// Whether n octets from index at on lie within so many; at + n could overflow, and is not made.
fn has_room(octets: usize, at: usize, n: usize) -> bool
    ensures { result ≡ leb (at + n) octets }
{
    if n <= octets { at <= octets - n } else { false }
}

// The most octets that are copied at once: those of the longest packet, so that no content or run of blocks is longer.
const AT_ONCE: usize = 65542;

// Puts text into out from index at on, if it fits. Here and below output and place are handed in one by one: who calls puts each thing at a place of its own.
pub fn put_octets(out: &mut [u8], at: usize, text: &[u8])
    ensures { out.new ≡ put_if_fits out.old at text.now }
{
    if has_room(out.len(), at, text.len()) {
        if text.len() <= AT_ONCE {
            put_at_once(out, at, text);
        } else {
            put_one_by_one(out, at, text);
        }
    }
}

// Puts text that fits by way of an array. The compiler knows that the array lies apart from text and out, which it doesn't know of these two:
// so it makes both copies one move of memory, and the array is never made.
fn put_at_once(out: &mut [u8], at: usize, text: &[u8])
    requires { (at + length text.now ≤ length out.old) × (length text.now ≤ AT_ONCE) }
    ensures { out.new ≡ put out.old at text.now }
{
    let mut apart = [0u8; AT_ONCE];
    let n = text.len();
    let end = at + n;
    apart[..n].copy_from_slice(text);
    out[at..end].copy_from_slice(&apart[..n]);
}

// Puts text that fits straight from where it lies, however long it is.
fn put_one_by_one(out: &mut [u8], at: usize, text: &[u8])
    requires { at + length text.now ≤ length out.old }
    ensures { out.new ≡ put out.old at text.now }
{
    let end = at + text.len();
    out[at..end].copy_from_slice(text);
}

// Puts one octet at index at, if it fits: of one alone the test is shorter than that of `put_array` (docs/SPEED.md, write).
pub fn put_octet(out: &mut [u8], at: usize, n: u8)
    ensures { out.new ≡ put_if_fits out.old at (n ∷ []) }
{
    if at < out.len() {
        out[at] = n;
    }
}

// Puts the two octets of n from index at on, if they fit.
pub fn put_be16(out: &mut [u8], at: usize, n: u16)
    ensures { out.new ≡ put_if_fits out.old at (octets2 n) }
{
    put_array::<2>(out, at, n.to_be_bytes());
}

// Puts the four octets of n from index at on, if they fit. The two widths have no trait in common that tells their octets: one of our own would be
// longer than the two functions.
pub fn put_be32(out: &mut [u8], at: usize, n: u32)
    ensures { out.new ≡ put_if_fits out.old at (octets4 n) }
{
    put_array::<4>(out, at, n.to_be_bytes());
}

// Puts so few octets that they are moved as one number, if they fit.
fn put_array<const N: usize>(out: &mut [u8], at: usize, octets: [u8; N])
    ensures { out.new ≡ put_if_fits out.old at octets.entry }
{
    if has_room(out.len(), at, N) {
        put_one_by_one(out, at, &octets);
    }
}
