// The numbers of struct branmuslin_packet, in its order: version; type, secondary, apid, flags, count; protocol, user, extension; offset,
// length. Fields that the packet does not have are 0. And those of struct branmuslin_record, in the order of the record.
ghost use Rattle.std.specs.Prelude.{◌≡◌};
ghost use Rattle.record.specs.Record.{fields};
ghost use Rattle.branmuslin.specs.Lent.{numbers_of};

use packet::{Packet, SPACE_HEADER};
use record::Record;

pub(crate) fn packet_numbers(p: Packet) -> [u32; 11]
    ensures { result ≡ numbers_of p }
{
    match p {
        Packet::Space {
            packet_type,
            secondary,
            apid,
            flags,
            count,
            octets,
        } => [
            0,
            packet_type as u32,
            secondary as u32,
            apid as u32,
            flags as u32,
            count as u32,
            0,
            0,
            0,
            SPACE_HEADER as u32,
            octets,
        ],
        Packet::Encapsulation {
            protocol,
            user,
            extension,
            header,
            octets,
        } => [
            7,
            0,
            0,
            0,
            0,
            0,
            protocol as u32,
            user as u32,
            extension as u32,
            header as u32,
            octets,
        ],
    }
}

pub(crate) fn record_numbers(r: Record) -> [u32; 6]
    ensures { result ≡ fields r }
{
    [
        r.station as u32,
        r.apid as u32,
        r.units,
        r.packets,
        r.missing,
        r.broken,
    ]
}
