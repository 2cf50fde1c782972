// The Space Packet: six header octets, then the data field.
ghost use Rattle.std.specs.Prelude.{◌≡◌};
ghost use Rattle.packet.specs.Told.{told};
ghost use Rattle.reading.specs.Reading.{reading};
ghost use Rattle.reading.specs.Causes.{Version};

use crate::refused;
use octets::{be16_at, octet_at};
use packet::{APIDS, COUNTS, IDLE, Packet, SPACE_HEADER, Unread};
use refusal::Refusal;

// What the octets of a packet of version 000 tell.
pub(crate) fn read(s: &[u8]) -> Result<Packet, Unread>
    requires { Version 0 s.now }
    ensures { told result ≡ reading s.now }
{
    if s.len() < SPACE_HEADER {
        return refused(Refusal::CutShort, s.len() as u32);
    }
    let first = octet_at(s, 0);
    let apid = be16_at(s, 0) % APIDS;
    let secondary = first / 8 % 2;
    if (apid == IDLE) & (secondary == 1) {
        return refused(Refusal::IdleFlagged, 0);
    }
    let octets = be16_at(s, 4) as u32 + 1;
    if s.len() < SPACE_HEADER + octets as usize {
        return refused(Refusal::CutShort, s.len() as u32);
    }
    Ok(Packet::Space {
        packet_type: first / 16 % 2,
        secondary,
        apid,
        flags: octet_at(s, 2) / 64 % 4,
        count: be16_at(s, 2) % COUNTS,
        octets,
    })
}
