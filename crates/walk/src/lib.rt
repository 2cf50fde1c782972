// Walks a run of packets that lie one after another.
#![tactic(auto)]

ghost use Rattle.std.specs.Prelude.{◌≡◌};
ghost use Rattle.walk.specs.Walk.{Finds, walked};

use packet::{Packet, Unread, size_of};
use reading::read_packet;
use refusal::Refusal;

// Where a walk stopped: the octets in whole packets, their count, and the refusal that stopped it, with its place from the start of the packet that is
// refused; or none at the end.
#[derive(Clone, Copy, Debug, PartialEq, Eq)]
pub struct Walked {
    pub at: usize,
    pub packets: usize,
    pub stopped: Option<Unread>,
}

// What lies at an index: the packet or its refusal, and where the next packet begins.
#[derive(Clone, Copy, Debug, PartialEq, Eq)]
pub struct Found {
    pub read: Result<Packet, Unread>,
    pub next: usize,
}

// Looks at index at of s. Past the end there is no packet; where none is read, next is at.
pub fn look_at(s: &[u8], at: usize) -> Found
    ensures { Finds s.now at result }
{
    if s.len() < at {
        return Found {
            read: Err(Unread {
                refusal: Refusal::CutShort,
                place: 0,
            }),
            next: at,
        };
    }
    let read = read_packet(&s[at..]);
    Found {
        read,
        next: at + size_of(read),
    }
}

// Goes from packet to packet, and stops at the end or at the first refusal. The paper names the form: a loop that is left by `break` with the answer.
pub fn walk(s: &[u8]) -> Walked
    ensures { result ≡ walked s.now }
{
    let mut at = 0;
    let mut packets = 0;
    let stopped = loop {
        if s.len() <= at {
            break None;
        }
        let found = look_at(s, at);
        match found.read {
            Ok(_) => {
                at = found.next;
                packets += 1;
            }
            Err(unread) => break Some(unread),
        }
    };
    Walked {
        at,
        packets,
        stopped,
    }
}
