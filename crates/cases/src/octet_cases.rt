// Cases about octets: reading and walking packets, and reading records.
use crate::line::{octets_of, rest_of};
use crate::say::{say_octets, say_refused};
use packet::{Packet, Unread};
use record::FileFault;
use refusal::Refusal;
use std::io;
use std::io::Write;

// A refusal of reading, with its place.
pub(crate) fn say_unread<W: Write>(to: &mut W, unread: Unread) -> io::Result<()> {
    let number = u8::from(unread.refusal);
    let place = unread.place;
    write!(to, " {} {number} {place}", "refused")
}

// The answer in the order of the reader's fields.
fn say_packet<W: Write>(to: &mut W, read: Result<Packet, Unread>) -> io::Result<()> {
    match read {
        Ok(
            Packet::Space {
                packet_type,
                secondary,
                apid,
                flags,
                count,
                octets,
            },
        ) => write!(
            to,
            " {} {packet_type} {secondary} {apid} {flags} {count} {octets}",
            "space"
        ),
        Ok(
            Packet::Encapsulation {
                protocol,
                user,
                extension,
                header,
                octets,
            },
        ) => write!(
            to,
            " {} {protocol} {user} {extension} {header} {octets}",
            "encap"
        ),
        Err(unread) => say_unread(to, unread),
    }
}

fn say_read<W: Write>(to: &mut W, s: &[u8]) -> io::Result<()> {
    say_packet(to, reading::read_packet(s))?;
    write!(to, " {}", "data")?;
    say_octets(to, reading::data_of(s))
}

fn say_walk<W: Write>(to: &mut W, s: &[u8]) -> io::Result<()> {
    let walked = walk::walk(s);
    write!(to, " {} {}", walked.at, walked.packets)?;
    match walked.stopped {
        None => write!(to, " {}", 0u8),
        Some(unread) => write!(to, " {} {}", u8::from(unread.refusal), unread.place),
    }
}

pub(crate) fn say_record<W: Write>(to: &mut W, s: &[u8]) -> io::Result<()> {
    match record::read_record(s) {
        Ok(r) => write!(
            to,
            " {} {} {} {} {} {} {}",
            "record", r.station, r.apid, r.units, r.packets, r.missing, r.broken
        ),
        Err(refusal) => say_refused(to, u8::from(refusal)),
    }
}

fn say_file<W: Write>(to: &mut W, s: &[u8]) -> io::Result<()> {
    match record::read_record_file(s) {
        Ok(n) => write!(to, " {} {n}", "records"),
        Err(fault) => {
            say_refused(to, u8::from(Refusal::from(fault)))?;
            match fault {
                FileFault::Impossible(index) => write!(to, " {} {index}", "at"),
                FileFault::Ragged => Ok(()),
            }
        }
    }
}

// What the octets of a line are: those after `read` or `walk`, `read record` or `read records`.
enum Octets<'a> {
    Packet(&'a [u8]),
    Record(&'a [u8]),
    Records(&'a [u8]),
}

impl<'a> From<&'a [u8]> for Octets<'a> {
    fn from(line: &'a [u8]) -> Octets<'a> {
        let words = rest_of(line, 5);
        if !words.starts_with(b"reco") {
            Octets::Packet(words)
        } else if words.get(6) == Some(&b's') {
            Octets::Records(rest_of(line, 13))
        } else {
            Octets::Record(rest_of(line, 12))
        }
    }
}

pub(crate) fn say_reading<W: Write>(to: &mut W, line: &[u8]) -> io::Result<()> {
    let mut room = [0; 4096];
    match Octets::from(line) {
        Octets::Packet(text) => say_read(to, octets_of(text, &mut room)),
        Octets::Record(text) => say_record(to, octets_of(text, &mut room)),
        Octets::Records(text) => say_file(to, octets_of(text, &mut room)),
    }
}

// Walks them, whatever they are.
pub(crate) fn say_walking<W: Write>(to: &mut W, line: &[u8]) -> io::Result<()> {
    let mut room = [0; 4096];
    let (Octets::Packet(text) | Octets::Record(text) | Octets::Records(text)) = Octets::from(line);
    say_walk(to, octets_of(text, &mut room))
}
