// The grouping rule: what an accepted packet of some flags and count does to the lane.
ghost use Rattle.std.specs.Prelude.{◌≡◌, ◌+◌, ◌≤◌, if◌then◌else◌};
ghost use Rattle.grouping.specs.Grouping.{repeats, missing_before, breaks};
ghost use Rattle.grouping.specs.Plans.{hold_plan, unit_plan, grouping_plan, accepted_plan};

use crate::{Added, Plan, Refused, Step};
use lane::{Lane, Settings};
use marks::blocks_for;
use packet::COUNTS;
use record::MOST_PACKETS;
use refusal::Refusal;

fn is_repeat(l: Lane, count: u16) -> bool
    ensures { result ≡ repeats l count }
{
    (l.packets != 0) & (count == l.last)
}

// How many packets are missing before this one. The subtraction wraps at 65,536, which is a multiple of 16,384.
fn missing_before(l: Lane, count: u16) -> u16
    ensures { result ≡ missing_before l count }
{
    if l.packets == 0 {
        0
    } else {
        count.wrapping_sub(l.last).wrapping_sub(1) % COUNTS
    }
}

// By its flags, which are the header's own number (`Packet`).
fn does_break(missing: u16, flags: u8) -> bool
    ensures { result ≡ breaks missing flags }
{
    (0 < missing) | (flags == 1) | (flags == 3)
}

// The octets of the group that goes on, or none, and then n more. `joins` is a flag and no Option of the octets: the step is told it (`Step`).
fn joined_octets(joins: bool, octets: u16, n: u32) -> usize
    ensures { result ≡ (if joins then octets else 0) + n }
{
    let before = if joins { octets } else { 0 };
    before as usize + n as usize
}

// A group of n octets is refused over the lane's own cap, and else is asked room for beside the other lanes.
fn plan_hold(s: Settings, added: Added, joins: bool, n: usize) -> Result<Plan, Refused>
    ensures { result ≡ hold_plan s added joins n }
{
    if (s.cap as usize) < blocks_for(n) {
        return Err(Refused::Untaken(Refusal::OverCap));
    }
    Ok(Plan::Ask {
        octets: n as u16,
        refusal: Refusal::OthersInTheWay,
        step: Step::Hold {
            added,
            joins,
            octets: n,
        },
    })
}

// A unit of n octets is told, if the output has room.
fn plan_unit(room: usize, added: Added, joins: bool, n: usize) -> Result<Plan, Refused>
    ensures { result ≡ unit_plan room added joins n }
{
    if room < n {
        return Err(Refused::Untaken(Refusal::UnitTooLong));
    }
    Ok(Plan::Sure(Step::Unit {
        added,
        joins,
        octets: n,
    }))
}

// What the packet is to the group, by its flags, which are the header's own number (`Packet`). The tests stand one by one, in the order of `grouping_plan`: a `match`
// would have a guard between its arms.
fn plan_grouping(l: Lane, flags: u8, count: u16, n: u32, room: usize) -> Result<Plan, Refused>
    ensures { result ≡ grouping_plan l flags count n room }
{
    let missing = missing_before(l, count);
    let breaks = does_break(missing, flags);
    let joins = l.grouped & !breaks;
    let added = Added {
        missing,
        given_up: l.grouped & breaks,
        count,
    };
    let octets = joined_octets(joins, l.octets, n);
    if flags == 3 {
        return plan_unit(room, added, joins, octets);
    }
    if flags == 1 {
        return plan_hold(l.settings, added, joins, octets);
    }
    if !joins {
        return Ok(Plan::Sure(Step::Stray(added)));
    }
    if flags == 0 {
        return plan_hold(l.settings, added, joins, octets);
    }
    plan_unit(room, added, joins, octets)
}

// What a packet does that is not refused before the repeat test, with n octets of user data.
pub(crate) fn plan_accepted(
    l: Lane,
    flags: u8,
    count: u16,
    n: u32,
    room: usize,
) -> Result<Plan, Refused>
    ensures { result ≡ accepted_plan l flags count n room }
{
    if is_repeat(l, count) {
        return Ok(Plan::Sure(Step::Repeat));
    }
    if MOST_PACKETS <= l.packets {
        return Err(Refused::Untaken(Refusal::LaneFull));
    }
    plan_grouping(l, flags, count, n, room)
}
