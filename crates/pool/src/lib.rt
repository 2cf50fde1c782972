// The octets of the lanes' open groups, in the pool's blocks. Every function that is `pub` is total.
#![tactic(auto)]

mod runs;
mod table;

ghost use Rattle.std.specs.Prelude.{◌≡◌, length};
ghost use Rattle.octets.specs.Output.{put};
ghost use Rattle.pool.specs.Octets.{stored_if_fits, gathered_if_fits};

use marks::{BLOCK_OCTETS, BLOCKS};
use runs::{gather_runs, store_runs};

pub const POOL_OCTETS: usize = BLOCKS * BLOCK_OCTETS;

// The octets become octets from, from + 1, .. of the lane's group, unless a group can't have so many.
#[tactic(auto, unfolding(crate::specs::Octets::stored_if_fits))]
pub fn store_octets(marks: [u16; BLOCKS], lane: u8, pool: &mut [u8], from: usize, octets: &[u8])
    ensures { pool.new ≡ stored_if_fits marks lane pool.old from octets.now }
{
    if pool.len() != POOL_OCTETS {
        return;
    }
    if POOL_OCTETS < octets.len() {
        return;
    }
    if POOL_OCTETS - octets.len() < from {
        return;
    }
    store_runs(&marks, lane, pool, from, octets);
}

// Puts the first n octets of the lane's group at the front of out, and tells how many were put. How many it has is the lane's, of which the pool knows nothing.
#[tactic(auto, using(octets::proofs::Puts::nothing), unfolding(crate::specs::Octets::gathered_if_fits))]
pub fn gather_octets(marks: [u16; BLOCKS], lane: u8, pool: &[u8], n: usize, out: &mut [u8]) -> usize
    ensures value { result ≡ length (gathered_if_fits marks lane pool.now n (length out.old)) }
    ensures out_after { out.new ≡ put out.old 0 (gathered_if_fits marks lane pool.now n (length out.old)) }
{
    if out.len() < n {
        return 0;
    }
    if POOL_OCTETS < n {
        return 0;
    }
    gather_runs(&marks, lane, pool, n, out)
}
