// Tables of a lane's blocks.
ghost use Rattle.std.specs.Prelude.{◌≤◌};
ghost use Rattle.marks.specs.Blocks.{blocks};
ghost use Rattle.pool.specs.Lookup.{ListsLane};

use marks::{BLOCKS, PLACES, find_from};

// What stands in a table where no block has a place: the number of blocks, as `find_from` tells it.
const NOWHERE: u8 = BLOCKS as u8;

// So many places are searched for rather than listed.
const FEW: usize = 8;

// The block of each of the lane's places from `from` up to `to`, each by a search. The places are asked for by their ends, one call deep: a struct of marks,
// lane and ends would be made and taken apart at once.
fn blocks_searched(marks: &[u16; BLOCKS], lane: u8, from: usize, to: usize) -> [u8; BLOCKS]
    requires { (from ≤ to) × (to ≤ blocks) }
    ensures { ListsLane lane from to result marks.now }
{
    let mut table = [NOWHERE; BLOCKS];
    for place in from..to {
        let mark = u16::from(lane) * PLACES + place as u16;
        table[place] = find_from(marks, 0, mark) as u8;
    }
    table
}

// The block of each of the lane's 64 places, in one pass. The highest block goes first, so that the lowest of two stays.
fn blocks_listed(marks: &[u16; BLOCKS], lane: u8) -> [u8; BLOCKS]
    ensures { ListsLane lane 0 blocks result marks.now }
{
    let mut table = [NOWHERE; BLOCKS];
    for block in (0..BLOCKS).rev() {
        let mark = marks[block];
        if mark / PLACES == u16::from(lane) {
            table[usize::from(mark % PLACES)] = block as u8;
        }
    }
    table
}

// The block of each of the lane's places from `from` up to `to`, and 64 where no block has it. A pass costs as much as a few searches.
pub(crate) fn blocks_of_lane(
    marks: &[u16; BLOCKS],
    lane: u8,
    from: usize,
    to: usize,
) -> [u8; BLOCKS]
    requires { (from ≤ to) × (to ≤ blocks) }
    ensures { ListsLane lane from to result marks.now }
{
    if to - from <= FEW {
        blocks_searched(marks, lane, from, to)
    } else {
        blocks_listed(marks, lane)
    }
}
