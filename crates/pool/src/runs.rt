// The octets of a lane's group, to and from the pool in runs. A run ends where its block does, and a table tells the block.
ghost use Rattle.std.specs.Prelude.{◌≡◌, ◌+◌, ◌*◌, ◌/◌, ◌%◌, ◌≤◌, ◌<◌, length, get_or, take, drop};
ghost use Rattle.octets.specs.Output.{put as puts};
ghost use Rattle.marks.specs.Blocks.{blocks, block_octets};
ghost use Rattle.pool.specs.Octets.{pool_octets, stored, gathered};

use crate::table::blocks_of_lane;
use marks::{BLOCK_OCTETS, BLOCKS, blocks_for};
use putting::put_octets;

// Where octet k of a group lies in the pool, in this block.
fn in_block(block: u8, k: usize) -> usize
    ensures { result ≡ block * block_octets + k % block_octets }
{
    usize::from(block) * BLOCK_OCTETS + k % BLOCK_OCTETS
}

// The same by a table, at whose entry for octet k its block stands.
fn place_listed(table: &[u8; BLOCKS], k: usize) -> usize
    requires { k < pool_octets }
    ensures { result ≡ get_or table.now (k / block_octets) 0 * block_octets + k % block_octets }
{
    in_block(table[k / BLOCK_OCTETS], k)
}

// The part of s from index at on that has n octets, or as many as there are.
fn part(s: &[u8], at: usize, n: usize) -> &[u8]
    ensures { result.now ≡ take n (drop at s.now) }
{
    let rest = &s[at.min(s.len())..];
    &rest[..n.min(rest.len())]
}

// The octets become octets from, from + 1, .. of the lane's group. The first run may begin inside a block, so the runs are no chunks of one size.
#[tactic(auto, unfolding(marks::specs::Blocks::blocks_for))]
pub(crate) fn store_runs(
    marks: &[u16; BLOCKS],
    lane: u8,
    pool: &mut [u8],
    from: usize,
    octets: &[u8],
)
    requires { (length pool.old ≡ pool_octets) × (from + length octets.now ≤ pool_octets) }
    ensures { pool.new ≡ stored marks.now lane pool.old from octets.now }
{
    let table = blocks_of_lane(
        marks,
        lane,
        from / BLOCK_OCTETS,
        blocks_for(from + octets.len()),
    );
    let mut k = from;
    let mut left = octets;
    while !left.is_empty() {
        let (run, rest) = left.split_at(left.len().min(BLOCK_OCTETS - k % BLOCK_OCTETS));
        put_octets(pool, place_listed(&table, k), run);
        k += run.len();
        left = rest;
    }
}

// Puts the first n octets of the lane's group at the front of out, and tells how many were put.
#[tactic(auto, unfolding(marks::specs::Blocks::blocks_for))]
pub(crate) fn gather_runs(
    marks: &[u16; BLOCKS],
    lane: u8,
    pool: &[u8],
    n: usize,
    out: &mut [u8],
) -> usize
    requires { (n ≤ length out.old) × (n ≤ pool_octets) }
    ensures value { result ≡ length (gathered marks.now lane pool.now 0 n) }
    ensures out_after { out.new ≡ puts out.old 0 (gathered marks.now lane pool.now 0 n) }
{
    let table = blocks_of_lane(marks, lane, 0, blocks_for(n));
    let mut at = 0;
    for place in 0..blocks_for(n) {
        let k = place * BLOCK_OCTETS;
        let text = part(pool, place_listed(&table, k), BLOCK_OCTETS.min(n - k));
        put_octets(out, at, text);
        at += text.len();
    }
    at
}
