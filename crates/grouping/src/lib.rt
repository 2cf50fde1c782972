// What a packet does to its lane, decided from the lane alone. Whether the other lanes leave room is asked by a plan and answered elsewhere.
#![tactic(auto)]

mod grouping;
mod packets;

ghost use Rattle.std.specs.Prelude.{◌≡◌};
ghost use Rattle.grouping.specs.Plans.{packet_plan};
ghost use Rattle.grouping.specs.declared.Refused.TheVariants as refused;

use grouping::plan_accepted;
use lane::{Lane, Settings};
use packet::{Packet, Unread, size_of};
use packets::find_fault;
use reading::read_packet;
use refusal::Refusal;

// What decides, with its octets, whether a packet is at fault: the settings of the lane that it comes to.
#[derive(Clone, Copy)]
pub struct Terms {
    pub settings: Settings,
}

// What an accepted packet adds to the tallies: packets missing before it, whether an open group is given up, and its count.
#[derive(Clone, Copy)]
pub struct Added {
    pub missing: u16,
    pub given_up: bool,
    pub count: u16,
}

// Why a packet is refused.
#[derive(Clone, Copy)]
pub enum Refused {
    // 1 to 7, by the reader, with its place from the packet's start
    Unread(Unread),
    // 8 and above, by its lane or for the other lanes
    Untaken(Refusal),
}

impl From<Unread> for Refused {
    ghost from_gives = { λ unread r. r ≡ refused.Unread unread };

    fn from(unread: Unread) -> Refused {
        Refused::Unread(unread)
    }
}

impl From<Refusal> for Refused {
    ghost from_gives = { λ refusal r. r ≡ refused.Untaken refusal };

    fn from(refusal: Refusal) -> Refused {
        Refused::Untaken(refusal)
    }
}

// What a packet does that is not refused. `joins` says that the open group goes on; octets are those of the group or unit with the user data. It is a flag and no
// Option, as the octets stand either way, and the definitions name it (`Hold a joins n`). Hold and Unit have the same fields, which are taken apart once, in intake:
// a struct of them would be one more name in each law.
#[derive(Clone, Copy)]
pub enum Step {
    Repeat,
    Stray(Added),
    Hold {
        added: Added,
        joins: bool,
        octets: usize,
    },
    Unit {
        added: Added,
        joins: bool,
        octets: usize,
    },
}

// A step that is settled whatever the other lanes hold; or one that is taken if there is room beside theirs for the lane with a group of so
// many octets, and else refused.
#[derive(Clone, Copy)]
pub enum Plan {
    Sure(Step),
    Ask {
        octets: u16,
        refusal: Refusal,
        step: Step,
    },
}

// What a packet does, where the output has room for so many octets; or why it is refused.
pub fn plan_packet(l: Lane, octets: &[u8], room: usize) -> Result<Plan, Refused>
    ensures { result ≡ packet_plan l octets.now room }
{
    if !l.opened {
        return Err(Refused::Untaken(Refusal::NotOpen));
    }
    let p = read_packet(octets)?;
    if size_of(Ok(p)) < octets.len() {
        return Err(Refused::Untaken(Refusal::OctetsAfter));
    }
    let Packet::Space {
        packet_type,
        secondary,
        apid,
        flags,
        count,
        octets: size,
    } = p
    else {
        return Err(Refused::Untaken(Refusal::NotSpace));
    };
    let settings = l.settings;
    let terms = Terms { settings };
    find_fault(terms, packet_type, secondary, apid, size)?;
    plan_accepted(l, flags, count, size - l.settings.secondary as u32, room)
}
