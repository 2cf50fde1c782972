// The Encapsulation Packet's fields, header, refusals and octets.
ghost use Rattle.std.specs.Prelude.{◌≡◌, ◌+◌, ◌≤◌, ◌<◌, length};
ghost use Rattle.octets.specs.Output.{put as puts};
ghost use Rattle.packet.specs.Encapsulation.{limit};
ghost use Rattle.writing.specs.Encapsulation.{shortest, header_octets, encap_refusal};
ghost use Rattle.writing.specs.Told.{checked};

use packet::LIMIT;
use putting::{put_be16, put_be32, put_octet};
use refusal::Refusal;

// The writer is given 32 bits for each field.
const EXTENDED: u32 = packet::EXTENDED as u32;

// The header's fields as they are given to the writer: over their widths, maybe.
#[derive(Clone, Copy)]
pub(crate) struct EncapsulationFields {
    pub(crate) protocol: u32,
    pub(crate) user: u32,
    pub(crate) extension: u32,
}

impl EncapsulationFields {
    // The octets of the shortest header that can carry the fields and n octets of content.
    #[tactic(auto, unfolding(crate::specs::Encapsulation::shortest))]
    pub(crate) fn shortest_header(self, n: usize) -> usize
        ensures { result ≡ shortest self.protocol self.user n }
    {
        // The length of the whole packet stands in one octet, or in two: 2 + n is below 256, or 4 + n below 65,536.
        if 254 <= n {
            return if n < 65532 { 4 } else { 8 };
        }
        if (self.user != 0) | (self.protocol == EXTENDED) {
            return 4;
        }
        // One after the other: joined, both tests would be made for every packet, and few are empty.
        if n != 0 {
            return 2;
        }
        if self.protocol == 0 { 1 } else { 2 }
    }

    // Whether the fields, their header and n octets of content are a packet, for which an output of room octets is enough.
    pub(crate) fn check(self, header: usize, n: usize, room: usize) -> Result<(), Refusal>
        requires { header ≡ shortest self.protocol self.user n }
        ensures { checked result ≡ encap_refusal self.protocol self.user self.extension n room }
    {
        if (8 <= self.protocol) | (16 <= self.user) | (16 <= self.extension) {
            return Err(Refusal::OverWidth);
        }
        if (self.extension != 0) & (self.protocol != EXTENDED) {
            return Err(Refusal::NamesNothing);
        }
        if (n == 0) & (self.protocol != 0) {
            return Err(Refusal::NoContent);
        }
        // The sum of both could overflow, and is not made before it is known to be small.
        if LIMIT - header < n {
            return Err(Refusal::DataLength);
        }
        if room < header + n {
            return Err(Refusal::NoRoom);
        }
        Ok(())
    }

    // Puts the header, for n octets of content, at the front of out.
    pub(crate) fn put_header(self, out: &mut [u8], header: usize, n: usize)
        requires protocol_bound { (self.protocol < 8) × (self.user < 16) × (self.extension < 16) }
        requires header_value { (header ≡ shortest self.protocol self.user n) × (header + n ≤ limit) × (header ≤ length out.old) }
        ensures { out.new ≡ puts out.old 0 (header_octets header self.protocol self.user self.extension (header + n)) }
    {
        // 224 is version 111 in the first three bits.
        let first = 224 + self.protocol * 4;
        let second = self.user * 16 + self.extension;
        let size = header + n;
        match header {
            1 => put_octet(out, 0, first as u8),
            2 => {
                put_octet(out, 0, (first + 1) as u8);
                put_octet(out, 1, size as u8);
            }
            4 => {
                put_octet(out, 0, (first + 2) as u8);
                put_octet(out, 1, second as u8);
                put_be16(out, 2, size as u16);
            }
            _ => {
                put_octet(out, 0, (first + 3) as u8);
                put_octet(out, 1, second as u8);
                put_be16(out, 2, 0);
                put_be32(out, 4, size as u32);
            }
        }
    }
}
