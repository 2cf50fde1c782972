// A table of the marks that are seen, and the test of the marks by it, which is in linear time.
ghost use Rattle.std.specs.Prelude.{◌≡◌, cond, List, ℕ, ◌*◌, ◌≤◌, ◌<◌, ltb};
ghost use Rattle.marks.specs.Blocks.{blocks, lanes, mark};
ghost use Rattle.marks.specs.Matching.{holds, each_holds, count, is_free, sum};
ghost use Rattle.marks.specs.Seen.{Seen, Flags, Places, seen_from};

use crate::{BLOCKS, FREE, LANES};
use std::array;

// The entries of the table: one for each mark of a lane, and one for all others.
const MARKS: usize = FREE as usize + 1;

// For each mark below 512, 1 where a block bears it, else 0. Every other mark, which is no lane's, goes to the last entry: a branch would often be guessed wrong.
pub(crate) fn marks_seen(marks: &[u16; BLOCKS]) -> [u8; MARKS]
    ensures { Seen blocks result marks.now }
{
    let mut seen = [0u8; MARKS];
    for mark in marks {
        seen[usize::from((*mark).min(FREE))] = 1;
    }
    seen
}

// Each place of a lane, as an octet: by a loop's own counter, which is wider, the machine would test fewer places at once. The compiler makes a constant of it.
fn each_place() -> [u8; BLOCKS]
    ensures { Places result }
{
    array::from_fn(|place| place as u8)
}

// That the table has 1 or 0 at each mark (`Flags`) the three functions below ask of one another alone: a struct with an invariant for it would be longer than they are.

// What a place adds to the count: whether it is seen, if it is one of the first n.
fn seen_below(seen: u8, place: u8, n: u8) -> u8
    ensures { result ≡ cond (ltb place n) seen 0 }
{
    if place < n { seen } else { 0 }
}

// How many of the lane's first n places are seen. All 64 are gone through, and the count is an octet, so that the machine can add up many at once. The sum of
// the first n alone is shorter to write, and was slower (docs/SPEED.md, soundness).
fn places_seen(seen: &[u8; MARKS], lane: usize, n: u8) -> u8
    requires { (lane < lanes) × (n ≤ blocks) × Flags seen.now }
    ensures { result ≡ seen_from seen.now (mark lane 0) n }
{
    let mut count = 0;
    for (at, place) in each_place().iter().enumerate() {
        count += seen_below(seen[lane * BLOCKS + at], *place, n);
    }
    count
}

// Whether the lane has a block for each of n places: so many are seen. A lane that holds none needs no count.
fn lane_holds(seen: &[u8; MARKS], lane: usize, n: usize) -> bool
    requires { (lane < lanes) × (n ≤ blocks) × Flags seen.now }
    ensures { (marks : List ℕ) → Seen blocks seen.now marks → result ≡ holds marks lane n }
{
    n == 0 || n <= usize::from(places_seen(seen, lane, n as u8))
}

// Whether each lane has a block for each place that it holds; there are no more such places than blocks.
pub(crate) fn each_holds(seen: &[u8; MARKS], held: &[u16; LANES]) -> bool
    requires { (sum held.now ≤ blocks) × Flags seen.now }
    ensures { (marks : List ℕ) → Seen blocks seen.now marks → result ≡ each_holds marks 0 held.now }
{
    for (lane, n) in held.iter().enumerate() {
        if !lane_holds(seen, lane, usize::from(*n)) {
            return false;
        }
    }
    true
}

// How many blocks are free. The count is as wide as a mark, so that the machine can test several marks at once.
#[tactic(auto, using(std::proofs::lemmas::Grind::common_steps, crate::proofs::Looking::counted))]
pub(crate) fn count_free(marks: &[u16; BLOCKS]) -> usize
    ensures { result ≡ count is_free marks.now }
{
    let mut n: u16 = 0;
    for mark in marks {
        n += u16::from(*mark == FREE);
    }
    usize::from(n)
}

// How many blocks the lanes hold.
pub(crate) fn sum_held(held: &[u16; LANES]) -> usize
    ensures { (result ≡ sum held.now) × (result ≤ lanes * 65535) }
{
    held.iter().map(|n| usize::from(*n)).sum()
}
