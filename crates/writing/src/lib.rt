// Writes one packet, Space or Encapsulation, at the front of a lent output.
#![tactic(auto)]

mod encapsulation;
mod space;

ghost use Rattle.std.specs.Prelude.{◌≡◌, length};
ghost use Rattle.writing.specs.Space.{space_told, space_after};
ghost use Rattle.writing.specs.Encapsulation.{encap_told, encap_after};
ghost use Rattle.writing.specs.Told.{told};

use encapsulation::EncapsulationFields;
use packet::SPACE_HEADER;
use putting::put_octets;
use refusal::Refusal;
use space::SpaceFields;

// Writes a Space Packet, of type 0 (telemetry) or 1 (telecommand), and tells the octets written. Every parameter is wider than its field, so that no
// value is cut to it unseen: over its width it is refused 8.
pub fn write_space(
    packet_type: u32,
    secondary: u32,
    apid: u32,
    flags: u32,
    count: u32,
    field: &[u8],
    out: &mut [u8],
) -> Result<usize, Refusal>
    ensures result_value { told result ≡ space_told packet_type secondary apid flags count (length field.now) (length out.old) }
    ensures out_after { out.new ≡ space_after packet_type secondary apid flags count field.now out.old }
{
    let fields = SpaceFields {
        packet_type,
        secondary,
        apid,
        flags,
        count,
    };
    fields.check(field.len(), out.len())?;
    fields.put(out, field);
    Ok(SPACE_HEADER + field.len())
}

// Writes an Encapsulation Packet with the shortest header that can carry the fields, and tells the octets written. Every parameter is wider than
// its field, as above.
pub fn write_encapsulation(
    protocol: u32,
    user: u32,
    extension: u32,
    content: &[u8],
    out: &mut [u8],
) -> Result<usize, Refusal>
    ensures result_value { told result ≡ encap_told protocol user extension (length content.now) (length out.old) }
    ensures out_after { out.new ≡ encap_after protocol user extension content.now out.old }
{
    let fields = EncapsulationFields {
        protocol,
        user,
        extension,
    };
    let header = fields.shortest_header(content.len());
    fields.check(header, content.len(), out.len())?;
    fields.put_header(out, header, content.len());
    put_octets(out, header, content);
    Ok(header + content.len())
}
