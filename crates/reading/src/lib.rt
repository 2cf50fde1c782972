// Reads one packet, Space or Encapsulation, from the front of some octets. Octets after it are not looked at.
#![tactic(auto)]

mod encapsulation;
mod space;

ghost use Rattle.std.specs.Prelude.{◌≡◌, ◌+◌, Err};
ghost use Rattle.packet.specs.Told.{told};
ghost use Rattle.reading.specs.Reading.{reading, announced, content, content_at};

use octets::{be16_at, octet_at};
use packet::{Packet, SPACE_HEADER, Unread, header_of, size_of};
use refusal::Refusal;

// A refusal with its place.
pub(crate) fn refused<T>(refusal: Refusal, place: u32) -> Result<T, Unread>
    ensures { result ≡ Err (record { refusal = refusal; place = place }) }
{
    Err(Unread { refusal, place })
}

// The fields of the packet at the front of s, or the refusal.
pub fn read_packet(s: &[u8]) -> Result<Packet, Unread>
    ensures { told result ≡ reading s.now }
{
    if s.is_empty() {
        return refused(Refusal::CutShort, 0);
    }
    match octet_at(s, 0) / 32 % 8 {
        0 => space::read(s),
        7 => encapsulation::read(s),
        _ => refused(Refusal::BadVersion, 0),
    }
}

// The octets of a header, and of the whole packet, as the header announces them.
#[derive(Clone, Copy)]
pub struct Sizes {
    pub header: usize,
    pub size: usize,
}

// The sizes that the octets at the front of s announce, however many are there; they are a packet's where its header is there.
pub fn sizes_in(s: &[u8]) -> Sizes
    ensures { result ≡ announced s.now }
{
    let first = octet_at(s, 0);
    if first / 32 % 8 == 0 {
        return Sizes {
            header: SPACE_HEADER,
            size: SPACE_HEADER + (be16_at(s, 4) as usize + 1),
        };
    }
    let header = encapsulation::header_for(first % 4);
    Sizes {
        header: header as usize,
        size: encapsulation::size_for(header, s),
    }
}

// The data field or the content of the packet at the front of s, as a part of s: after its header, and an empty part at the front of s
// where the packet is refused.
pub fn data_of(s: &[u8]) -> &[u8]
    ensures result_value { result.now ≡ content s.now }
    ensures ref_ptr_value { (result.ref_ptr.0 ≡ s.entry.ref_ptr.0) × (result.ref_ptr.1 ≡ s.entry.ref_ptr.1 + content_at s.now) }
{
    let read = read_packet(s);
    let from = header_of(read);
    let to = size_of(read);
    &s[from..to]
}
