// What a packet is, Space or Encapsulation: the fields that reading tells, and its sizes.
#![tactic(auto)]

ghost use Rattle.std.specs.Prelude.{◌≡◌};
ghost use Rattle.packet.specs.Told.{size_of, header_of};

use refusal::Refusal;

// The octets of a Space Packet's header.
pub const SPACE_HEADER: usize = 6;

// An APID has 11 bits and a count 14: how many there are of each.
pub const APIDS: u16 = 2048;

pub const COUNTS: u16 = 16384;

// The APID of idle packets, which never have a secondary header.
pub const IDLE: u16 = 2047;

// The most octets that a data field has.
pub const LONGEST_DATA: usize = 65536;

// The one protocol ID that has an extension.
pub const EXTENDED: u8 = 6;

// Our limit of octets a packet, which is the longest Space Packet's size too.
pub const LIMIT: usize = 65542;

// What was read. Fields that a header does not have are 0, and each is the header's own number: a caller in C is told it, and a writer is given one
// of 32 bits. So no field of a few values is an enum or a bool.
#[derive(Clone, Copy, Debug, PartialEq, Eq)]
pub enum Packet {
    // type 0 is telemetry, 1 telecommand; flags 0 continuation, 1 first, 2 last, 3 unsegmented; octets are those of the data field
    Space {
        packet_type: u8,
        secondary: u8,
        apid: u16,
        flags: u8,
        count: u16,
        octets: u32,
    },
    // protocol is the protocol ID; header and octets count the octets of the header and of the content
    Encapsulation {
        protocol: u8,
        user: u8,
        extension: u8,
        header: u8,
        octets: u32,
    },
}

// Why no packet was read: refusal 1 to 7, and the place of the octet at fault, counted from the packet's start, or for 1 the number of octets. What is
// cut short has fewer octets than the limit, so 32 bits suffice for the place.
#[derive(Clone, Copy, Debug, PartialEq, Eq)]
pub struct Unread {
    pub refusal: Refusal,
    pub place: u32,
}

// The octets of the header that was read, or 0 for a refusal.
pub fn header_of(read: Result<Packet, Unread>) -> usize
    ensures { result ≡ header_of read }
{
    match read {
        Ok(Packet::Space { .. }) => SPACE_HEADER,
        Ok(Packet::Encapsulation { header, .. }) => header as usize,
        Err(_) => 0,
    }
}

// The octets of the whole packet that was read, or 0 for a refusal. Its match is its own: each variant's sum stands whole, and by way of `header_of` it would take
// another match for the content.
pub fn size_of(read: Result<Packet, Unread>) -> usize
    ensures { result ≡ size_of read }
{
    match read {
        Ok(Packet::Space { octets, .. }) => SPACE_HEADER + octets as usize,
        Ok(Packet::Encapsulation { header, octets, .. }) => header as usize + octets as usize,
        Err(_) => 0,
    }
}
