// The marks of the pool's blocks: whose each block is. Every function that is `pub` is total.
#![tactic(auto)]

mod table;

ghost use Rattle.std.specs.Prelude.{◌≡◌, ◌+◌, drop};
ghost use Rattle.marks.specs.Blocks.{mark, blocks_for, find, granted, freed_mark, freed};
ghost use Rattle.marks.specs.Matching.{matching};

use std::array;
use table::{count_free, each_holds, marks_seen, sum_held};

pub const BLOCKS: usize = 64;

pub const BLOCK_OCTETS: usize = 256;

pub const LANES: usize = 8;

// A lane can hold every block, so it has as many places.
pub const PLACES: u16 = BLOCKS as u16;

pub const FREE: u16 = LANES as u16 * PLACES;

// The blocks that n octets need.
#[tactic(auto, unfolding(crate::specs::Blocks::blocks_for))]
pub fn blocks_for(n: usize) -> usize
    ensures { result ≡ blocks_for n }
{
    n.div_ceil(BLOCK_OCTETS)
}

// The lowest-numbered block from block `from` on that has the mark; if none has, the number of blocks, or `from` where that is past them:
// the promise has a number for none, as the definition `find` has.
pub fn find_from(marks: &[u16], from: usize, mark: u16) -> usize
    ensures { result ≡ from + find (drop from marks.now) mark }
{
    let rest = &marks[from.min(marks.len())..];
    from + rest.iter().position(|m| *m == mark).unwrap_or(rest.len())
}

// The n lowest-numbered free blocks become the lane's blocks from, from + 1, ... Each search starts at the block that the last one found:
// every block before it is taken. Where none is free the rest is not granted.
pub fn grant_blocks(marks: [u16; BLOCKS], lane: u8, from: u8, n: u8) -> [u16; BLOCKS]
    ensures { result ≡ granted marks (mark lane from) n }
{
    let mut after = marks;
    let mut block = 0;
    let first = u16::from(lane) * PLACES + u16::from(from);
    for mark in first..first + u16::from(n) {
        block = find_from(&after, block, FREE);
        if BLOCKS <= block {
            break;
        }
        after[block] = mark;
    }
    after
}

// What a block's mark becomes where the lane's blocks are freed.
#[tactic(auto, unfolding(crate::specs::Blocks::freed_mark))]
fn freed_mark(mark: u16, lane: u8) -> u16
    ensures { result ≡ freed_mark lane mark }
{
    if mark / PLACES == u16::from(lane) {
        FREE
    } else {
        mark
    }
}

// The lane's blocks become free. An array's `map` would come to several times the instructions (docs/SPEED.md, groups).
pub fn free_blocks(marks: [u16; BLOCKS], lane: u8) -> [u16; BLOCKS]
    ensures { result ≡ freed marks lane }
{
    array::from_fn(|block| freed_mark(marks[block], lane))
}

// Whether the marks match what the eight lanes hold. The sum goes first: the table is made only where it is 64 and some block is held.
pub fn marks_match(marks: [u16; BLOCKS], held: [u16; LANES]) -> bool
    ensures { result ≡ matching marks held }
{
    let in_use = sum_held(&held);
    if count_free(&marks) + in_use != BLOCKS {
        return false;
    }
    if in_use == 0 {
        return true;
    }
    let seen = marks_seen(&marks);
    each_holds(&seen, &held)
}
