// The fields of a record in its octets, and the bound on one of them.
ghost use Rattle.std.specs.Prelude.{◌≡◌, ◌≤◌, leb, length};
ghost use Rattle.octets.specs.Output.{put as puts};
ghost use Rattle.record.specs.Record.{record_size, record_in, record_octets, most_missing};

use crate::Record;
use putting::{put_be16, put_be32};

pub(crate) const SIZE: usize = 20;

// The most that can be missing between two packets.
const MOST_BETWEEN: u64 = 16382;

// Whether so many can be missing between so many packets: 16,382 before each but the first. Fewer than the packets always can, so the product is
// rarely made.
pub(crate) fn is_missing_possible(missing: u32, packets: u32) -> bool
    ensures { result ≡ leb missing (most_missing packets) }
{
    if packets == 0 {
        return missing == 0;
    }
    if missing < packets {
        return true;
    }
    missing as u64 <= MOST_BETWEEN * (packets as u64 - 1)
}

// The record that 20 octets are.
pub(crate) fn record_in(s: &[u8; SIZE]) -> Record
    ensures { result ≡ record_in s.now }
{
    Record {
        station: u16::from_be_bytes([s[0], s[1]]),
        apid: u16::from_be_bytes([s[2], s[3]]),
        units: u32::from_be_bytes([s[4], s[5], s[6], s[7]]),
        packets: u32::from_be_bytes([s[8], s[9], s[10], s[11]]),
        missing: u32::from_be_bytes([s[12], s[13], s[14], s[15]]),
        broken: u32::from_be_bytes([s[16], s[17], s[18], s[19]]),
    }
}

// Puts the record at the front of out.
pub(crate) fn put_fields(out: &mut [u8], r: Record)
    requires { record_size ≤ length out.old }
    ensures { out.new ≡ puts out.old 0 (record_octets r) }
{
    put_be16(out, 0, r.station);
    put_be16(out, 2, r.apid);
    put_be32(out, 4, r.units);
    put_be32(out, 8, r.packets);
    put_be32(out, 12, r.missing);
    put_be32(out, 16, r.broken);
}
