// Why the reader refuses some octets, worked out without the fields and the place. These tests are the reader's own a second time, since two callers of `read_packet` cost a
// frame of small packets more than all else (docs/SPEED.md): it is called from one place alone, the walk, and compiled into it.
ghost use Rattle.std.specs.Prelude.{Result, ◌≡◌, ◌≤◌, ◌<◌, length, MatchResult};
ghost use Rattle.refusal.specs.declared.Refusal.TheVariants.{CutShort};
ghost use Rattle.packet.specs.Encapsulation.{encap_header, misnamed};
ghost use Rattle.reading.specs.Reading.{header, size, refusal};
ghost use Rattle.reading.specs.Causes.{Version};
ghost use Rattle.pieces.specs.Pieces.{number_told};

use octets::{be16_at, octet_at};
use packet::{APIDS, EXTENDED, IDLE, LIMIT, SPACE_HEADER};
use reading::{Sizes, sizes_in};
use refusal::Refusal;

// Refuses octets that end before so many.
fn needs(s: &[u8], n: usize) -> Result<(), Refusal>
    ensures { MatchResult result (λ _. n ≤ length s.now) (λ r. (r ≡ CutShort) × (length s.now < n)) }
{
    if s.len() < n {
        Err(Refusal::CutShort)
    } else {
        Ok(())
    }
}

// Some octets, with the sizes that they announce.
#[derive(Clone, Copy)]
pub(crate) struct Announcing<'a> {
    pub octets: &'a [u8],
    pub sizes: Sizes,
    ghost header_announced: { sizes.header ≡ header octets.now },
    ghost size_announced: { sizes.size ≡ size octets.now },
}

pub(crate) fn with_sizes(octets: &[u8]) -> Announcing<'_>
    ensures { result.octets.now ≡ octets.now }
{
    let sizes = sizes_in(octets);
    Announcing { octets, sizes }
}

fn check_space(packet: Announcing<'_>) -> Result<(), Refusal>
    requires { Version 0 packet.octets.now }
    ensures { number_told result ≡ refusal packet.entry.octets.now }
{
    let s = packet.octets;
    needs(s, SPACE_HEADER)?;
    if (be16_at(s, 0) % APIDS == IDLE) & (octet_at(s, 0) / 8 % 2 == 1) {
        return Err(Refusal::IdleFlagged);
    }
    needs(s, packet.sizes.size)
}

// Whether the fields of a header that is there name no protocol; a field that it does not have is 0.
fn is_misnamed(s: &[u8], header: usize) -> bool
    requires { header ≡ encap_header s.now }
    ensures { result ≡ misnamed s.now }
{
    let protocol = octet_at(s, 0) / 4 % 8;
    if header < 4 {
        return protocol == EXTENDED;
    }
    if (octet_at(s, 1) % 16 != 0) & (protocol != EXTENDED) {
        return true;
    }
    if header < 8 {
        return false;
    }
    be16_at(s, 2) != 0
}

fn check_encapsulation(packet: Announcing<'_>) -> Result<(), Refusal>
    requires { Version 7 packet.octets.now }
    ensures { number_told result ≡ refusal packet.entry.octets.now }
{
    let s = packet.octets;
    let Sizes { header, size } = packet.sizes;
    needs(s, header)?;
    if is_misnamed(s, header) {
        return Err(Refusal::NamesNothing);
    }
    if size < header {
        return Err(Refusal::UnderHeader);
    }
    if LIMIT < size {
        return Err(Refusal::OverLimit);
    }
    if (size - header == 0) & (octet_at(s, 0) / 4 % 8 != 0) {
        return Err(Refusal::NoContent);
    }
    needs(s, size)
}

// Refuses octets as the reader does.
pub(crate) fn check(packet: Announcing<'_>) -> Result<(), Refusal>
    ensures { number_told result ≡ refusal packet.entry.octets.now }
{
    let s = packet.octets;
    needs(s, 1)?;
    match octet_at(s, 0) / 32 % 8 {
        0 => check_space(packet),
        7 => check_encapsulation(packet),
        _ => Err(Refusal::BadVersion),
    }
}
