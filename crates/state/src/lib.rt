// The state of the intake: eight lanes that share one pool, when it is sound, and whether the lanes are within the pool.
#![tactic(auto)]

ghost use Rattle.std.specs.Prelude.{◌≡◌, ◌≤◌, ◌&&◌, leb, length, map, set};
ghost use Rattle.std.specs.Bool.{then_some};
ghost use Rattle.marks.specs.Blocks.{blocks, blocks_for};
ghost use Rattle.lane.specs.Lane.{held, fine};
ghost use Rattle.state.specs.State.{fresh_state, total, within, every, sound, unsound};

use lane::{CLOSED, Lane, is_fine, need_of};
use marks::{BLOCKS, FREE, blocks_for, marks_match};
use pool::POOL_OCTETS;

// marks says of each block whose it is: 512 if it is free, else lane x 64 + place.
#[repr(C)]
#[derive(Clone, Copy)]
pub struct State {
    pub lanes: [Lane; 8],
    pub marks: [u16; BLOCKS],
}

// Eight closed lanes, and every block free.
#[tactic(auto, unfolding(crate::specs::State::fresh_state))]
pub fn fresh_start() -> State
    ensures { result ≡ fresh_state }
{
    State {
        lanes: [CLOSED; 8],
        marks: [FREE; BLOCKS],
    }
}

// Whether so many blocks are no more than the pool has: the one place that compares with 64.
fn does_fit(sum: usize) -> bool
    ensures { result ≡ leb sum blocks }
{
    sum <= BLOCKS
}

// What the open lanes hold or are promised.
fn total_of(lanes: &[Lane; 8]) -> usize
    ensures { (result ≡ total lanes.now) × (result ≤ 2048) }
{
    let mut sum = 0;
    for l in lanes {
        sum += need_of(*l);
    }
    sum
}

// Whether what the lanes hold or are promised fits the pool once lane i is l: that lane's part of the sum is exchanged. The lane
// comes with its number as in a call, and not as a struct, which each caller would make for this one question.
pub fn is_within(lanes: [Lane; 8], i: usize, l: Lane) -> bool
    ensures { result ≡ within (set lanes i l) }
{
    let sum = total_of(&lanes);
    match lanes.get(i) {
        Some(old) => does_fit(sum - need_of(*old) + need_of(l)),
        None => does_fit(sum),
    }
}

// The blocks of a lane's group; octets of 16 bits have at most 256.
#[tactic(auto, unfolding(marks::specs::Blocks::blocks_for))]
fn blocks_of(octets: u16) -> u16
    ensures { result ≡ blocks_for octets }
{
    blocks_for(usize::from(octets)) as u16
}

// What each lane holds, where each is fine and they are within the pool: one pass tells both, and what they come to.
fn held_if_sound(lanes: &[Lane; 8]) -> Option<[u16; 8]>
    ensures { result ≡ then_some (every fine lanes.now && within lanes.now) (map held lanes.now) }
{
    let mut held = [0u16; 8];
    let mut total = 0;
    for (i, l) in lanes.iter().enumerate() {
        if !is_fine(*l) {
            return None;
        }
        total += need_of(*l);
        held[i] = blocks_of(l.octets);
    }
    does_fit(total).then_some(held)
}

// Whether the state is sound.
pub fn is_sound(s: State) -> bool
    ensures { result ≡ sound s }
{
    match held_if_sound(&s.lanes) {
        Some(held) => marks_match(s.marks, held),
        None => false,
    }
}

// Whether a call with a pool of so many octets is refused by 24.
#[tactic(auto, unfolding(crate::specs::State::unsound))]
pub fn is_unsound(s: State, octets: usize) -> bool
    ensures { result ≡ unsound s octets }
{
    octets != POOL_OCTETS || !is_sound(s)
}
