// The Space Packet's fields, refusals and octets.
ghost use Rattle.std.specs.Prelude.{◌≡◌, ◌+◌, ◌≤◌, ◌<◌, length};
ghost use Rattle.octets.specs.Output.{put as puts};
ghost use Rattle.packet.specs.Space.{apids, counts, space_header, longest_data};
ghost use Rattle.writing.specs.Space.{space_octets, space_refusal};
ghost use Rattle.writing.specs.Told.{checked};

use packet::{LONGEST_DATA, SPACE_HEADER};
use putting::{put_be16, put_octets};
use refusal::Refusal;

// The writer is given 32 bits for each field.
const APIDS: u32 = packet::APIDS as u32;

const COUNTS: u32 = packet::COUNTS as u32;

const IDLE: u32 = packet::IDLE as u32;

// The header's fields as they are given to the writer: over their widths, maybe.
#[derive(Clone, Copy)]
pub(crate) struct SpaceFields {
    pub(crate) packet_type: u32,
    pub(crate) secondary: u32,
    pub(crate) apid: u32,
    pub(crate) flags: u32,
    pub(crate) count: u32,
}

impl SpaceFields {
    // Whether the fields and n octets of data are a packet, for which an output of room octets is enough.
    #[tactic(auto, unfolding(crate::specs::Space::space_told))]
    pub(crate) fn check(self, n: usize, room: usize) -> Result<(), Refusal>
        ensures { checked result ≡ space_refusal self.packet_type self.secondary self.apid self.flags self.count n room }
    {
        if (2 <= self.packet_type)
            | (2 <= self.secondary)
            | (APIDS <= self.apid)
            | (4 <= self.flags)
            | (COUNTS <= self.count)
        {
            return Err(Refusal::OverWidth);
        }
        if (self.apid == IDLE) & (self.secondary == 1) {
            return Err(Refusal::IdleFlagged);
        }
        if (n == 0) | (LONGEST_DATA < n) {
            return Err(Refusal::DataLength);
        }
        if room < SPACE_HEADER + n {
            return Err(Refusal::NoRoom);
        }
        Ok(())
    }

    // Puts the packet at the front of out.
    pub(crate) fn put(self, out: &mut [u8], field: &[u8])
        requires packet_type_bound { (self.packet_type < 2) × (self.secondary < 2) × (self.apid < apids) × (self.flags < 4) × (self.count < counts) }
        requires field_nonzero { (0 < length field.now) × (length field.now ≤ longest_data) × (space_header + length field.now ≤ length out.old) }
        ensures { out.new ≡ puts out.old 0 (space_octets self.packet_type self.secondary self.apid self.flags self.count field.now) }
    {
        put_be16(
            out,
            0,
            ((self.packet_type * 2 + self.secondary) * APIDS + self.apid) as u16,
        );
        put_be16(out, 2, (self.flags * COUNTS + self.count) as u16);
        put_be16(out, 4, (field.len() - 1) as u16);
        put_octets(out, SPACE_HEADER, field);
    }
}
