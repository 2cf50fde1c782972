// The Encapsulation Packet: a header of 1, 2, 4 or 8 octets, then the content.
ghost use Rattle.std.specs.Prelude.{◌≡◌, ◌/◌, true, false, cond, ltb, MatchResult};
ghost use Rattle.refusal.specs.declared.Refusal.TheVariants.{NamesNothing};
ghost use Rattle.octets.specs.Octets.{octet, be16};
ghost use Rattle.packet.specs.Encapsulation.{protocol as protocolIn, header_for, encap_header, second as secondIn, size_for, encap_size, misnames};
ghost use Rattle.reading.specs.Places.{name_from, length_from};
ghost use Rattle.reading.specs.Reading.{reading};
ghost use Rattle.reading.specs.Causes.{Version, EncapThere};
ghost use Rattle.packet.specs.Told.{told};

use crate::refused;
use octets::{be16_at, be32_at, octet_at};
use packet::{EXTENDED, LIMIT, Packet, Unread};
use refusal::Refusal;

// The octets of the header, from the length of length.
pub(crate) fn header_for(l: u8) -> u8
    ensures { result ≡ header_for l }
{
    match l {
        0 => 1,
        1 => 2,
        2 => 4,
        _ => 8,
    }
}

// The packet length, from the last octets of the header.
pub(crate) fn size_for(h: u8, s: &[u8]) -> usize
    ensures { result ≡ size_for h s.now }
{
    match h {
        1 => 1,
        2 => octet_at(s, 1) as usize,
        4 => be16_at(s, 2) as usize,
        _ => be32_at(s, 4) as usize,
    }
}

// Octet 1, which a header of 1 or 2 octets does not have for a field.
fn second_for(h: u8, s: &[u8]) -> u8
    ensures { result ≡ cond (ltb h 4) 0 (octet s.now 1) }
{
    if h < 4 { 0 } else { octet_at(s, 1) }
}

// The CCSDS field, which only a header of 8 octets has. One function for it and octet 1 would take the limit, the index and the reader: three arguments
// for a line.
fn ccsds_for(h: u8, s: &[u8]) -> u16
    ensures { result ≡ cond (ltb h 8) 0 (be16 s.now 2) }
{
    if h < 8 { 0 } else { be16_at(s, 2) }
}

// Refuses fields that name no protocol, at the first of them that is wrong; the octet of the CCSDS field at fault is the first that is not 0.
fn check_name(header: u8, protocol: u8, extension: u8, ccsds: u16) -> Result<(), Unread>
    ensures { MatchResult result (λ _. misnames header protocol extension ccsds ≡ false) (λ u. (misnames header protocol extension ccsds ≡ true) × (u ≡ record { refusal = NamesNothing; place = name_from header protocol extension (ccsds / 256) })) }
{
    if (protocol == EXTENDED) & (header < 4) {
        return refused(Refusal::NamesNothing, 0);
    }
    if (extension != 0) & (protocol != EXTENDED) {
        return refused(Refusal::NamesNothing, 1);
    }
    if ccsds == 0 {
        return Ok(());
    }
    refused(Refusal::NamesNothing, if ccsds < 256 { 3 } else { 2 })
}

// Where the length field begins.
fn length_from(header: u8) -> u32
    ensures { result ≡ length_from header }
{
    (header / 2) as u32
}

// What a packet tells whose header is there; its fields are given, so that they are read once. Each refusal works its place out where it is
// found, so that what is not refused pays nothing for it.
fn verdict(s: &[u8], header: u8, protocol: u8, second: u8, size: usize) -> Result<Packet, Unread>
    requires encap_there { EncapThere s.now × (header ≡ encap_header s.now) × (protocol ≡ protocolIn s.now) }
    requires second_value { (second ≡ secondIn s.now) × (size ≡ encap_size s.now) }
    ensures { told result ≡ reading s.now }
{
    check_name(header, protocol, second % 16, ccsds_for(header, s))?;
    if size < header as usize {
        return refused(Refusal::UnderHeader, length_from(header));
    }
    if LIMIT < size {
        return refused(Refusal::OverLimit, length_from(header));
    }
    let octets = size - header as usize;
    if (octets == 0) & (protocol != 0) {
        return refused(Refusal::NoContent, 0);
    }
    if s.len() < size {
        return refused(Refusal::CutShort, s.len() as u32);
    }
    Ok(Packet::Encapsulation {
        protocol,
        user: second / 16 % 16,
        extension: second % 16,
        header,
        octets: octets as u32,
    })
}

// What the octets of a packet of version 111 tell.
pub(crate) fn read(s: &[u8]) -> Result<Packet, Unread>
    requires { Version 7 s.now }
    ensures { told result ≡ reading s.now }
{
    let first = octet_at(s, 0);
    let header = header_for(first % 4);
    if s.len() < header as usize {
        return refused(Refusal::CutShort, s.len() as u32);
    }
    let second = second_for(header, s);
    let size = size_for(header, s);
    verdict(s, header, first / 4 % 8, second, size)
}
