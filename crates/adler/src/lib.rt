// The Adler-32 of some octets.
#![tactic(auto)]

ghost use Rattle.std.specs.Prelude.{◌≡◌, List, ◌++◌, ℕ, ◌≤◌, ◌<◌, length};
ghost use Rattle.adler.specs.Adler.{base, adler_from, adler};
ghost use Rattle.adler.specs.Part.{part};

const BASE: u32 = 65521;

// So many octets are added before the sums are reduced, which takes divisions; neither sum can pass 32 bits by then.
const PART: usize = 2048;

// The sum of the octets, and that of what it is after each.
#[derive(Clone, Copy)]
struct Sums {
    first: u32,
    second: u32,
}

// The sums once the octets of s are added.
fn add_part(s: &[u8], from: Sums) -> Sums
    requires { (from.first < base) × (from.second < base) × (length s.now ≤ part) }
    ensures { (result.first < base) × (result.second < base) × ((rest : List ℕ) → adler_from from.first from.second (s.now ++ rest) ≡ adler_from result.first result.second rest) }
{
    let mut first = from.first;
    let mut second = from.second;
    for octet in s {
        first += *octet as u32;
        second += first;
    }
    Sums {
        first: first % BASE,
        second: second % BASE,
    }
}

// The Adler-32 of s.
pub fn adler32(s: &[u8]) -> u32
    ensures { result ≡ adler s.now }
{
    let mut sums = Sums {
        first: 1,
        second: 0,
    };
    for part in s.chunks(PART) {
        sums = add_part(part, sums);
    }
    sums.second * 65536 + sums.first
}
