// One lane by itself: its settings, tallies and group, when it is fine, and what it counts for in the pool.
#![tactic(auto)]

ghost use Rattle.std.specs.Prelude.{◌≡◌, ◌&&◌, ◌||◌, ◌≤◌, eqb, ltb, leb};
ghost use Rattle.packet.specs.Space.{counts};
ghost use Rattle.lane.specs.Lane.{held, need, holding, illegal, tallies_possible, fine};

use marks::{BLOCKS, blocks_for};
use packet::COUNTS;
use record::{MOST_APID, Record, is_possible};

// The octets of the longest secondary header.
const MOST_SECONDARY: u8 = 63;

// A lane may have every block.
const MOST_CAP: u8 = BLOCKS as u8;

// What an opening gives. share and cap count blocks.
#[repr(C)]
#[derive(Clone, Copy, Debug, PartialEq, Eq)]
pub struct Settings {
    pub station: u16,
    pub apid: u16,
    pub secondary: u8,
    pub share: u8,
    pub cap: u8,
}

// last is the count of the last accepted packet; octets are those of the open group, and 0 where there is none. It is a
// struct of C's as well (include/branmuslin.h), so that a flag stands beside the octets.
#[repr(C)]
#[derive(Clone, Copy, Debug, PartialEq, Eq)]
pub struct Lane {
    pub opened: bool,
    pub settings: Settings,
    pub units: u32,
    pub packets: u32,
    pub missing: u32,
    pub broken: u32,
    pub last: u16,
    pub grouped: bool,
    pub octets: u16,
}

// A lane as at the fresh start. It is a constant, since an array of eight is made of it.
pub const CLOSED: Lane = Lane {
    opened: false,
    settings: Settings {
        station: 0,
        apid: 0,
        secondary: 0,
        share: 0,
        cap: 0,
    },
    units: 0,
    packets: 0,
    missing: 0,
    broken: 0,
    last: 0,
    grouped: false,
    octets: 0,
};

// What a lane counts for in the pool.
#[tactic(auto, unfolding(crate::specs::Lane::need, marks::specs::Blocks::blocks_for))]
pub fn need_of(l: Lane) -> usize
    ensures value { result ≡ need l }
    ensures upper_bound { result ≤ 256 }
{
    if l.opened {
        blocks_for(usize::from(l.octets)).max(usize::from(l.settings.share))
    } else {
        0
    }
}

// Whether settings are refused by 22.
#[tactic(auto, unfolding(crate::specs::Lane::illegal))]
pub fn is_illegal(s: Settings) -> bool
    ensures { result ≡ illegal s }
{
    MOST_APID < s.apid || MOST_SECONDARY < s.secondary || s.cap < s.share || MOST_CAP < s.cap
}

// Whether the tallies, counting an open group as broken, form a possible record. The sum is made in 64 bits, where it can't wrap.
fn are_tallies_possible(l: Lane) -> bool
    ensures { result ≡ tallies_possible l }
{
    u64::from(l.units) + u64::from(l.broken) + u64::from(l.grouped) <= u64::from(l.packets)
        && is_possible(Record {
            station: l.settings.station,
            apid: l.settings.apid,
            units: l.units,
            packets: l.packets,
            missing: l.missing,
            broken: l.broken,
        })
}

// Whether what the lane holds is within its cap, and nothing is held without a group. Most lanes hold nothing, which is within every cap.
fn is_group_fine(l: Lane) -> bool
    ensures { result ≡ leb (held l) l.settings.cap && (l.grouped || eqb l.octets 0) }
{
    l.octets == 0 || l.grouped && blocks_for(usize::from(l.octets)) <= usize::from(l.settings.cap)
}

// Whether the lane is as a sound state asks of it, be it open or closed.
fn is_kept(l: Lane) -> bool
    ensures { result ≡ ltb l.last counts && (leb (held l) l.settings.cap && (l.grouped || eqb l.octets 0)) && tallies_possible l }
{
    l.last < COUNTS && is_group_fine(l) && are_tallies_possible(l)
}

// Whether the lane by itself is as a sound state asks. Every call asks it of eight lanes, so each part is left out where an earlier one fails.
#[tactic(auto, unfolding(crate::specs::Lane::fine))]
pub fn is_fine(l: Lane) -> bool
    ensures { result ≡ fine l }
{
    if !l.opened {
        !l.grouped && is_kept(l)
    } else {
        !is_illegal(l.settings) && is_kept(l)
    }
}
