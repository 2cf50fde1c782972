// Credit records: one of them read and written, and a file of them read. A record has 20 octets, high octet first.
#![tactic(auto)]

mod fields;

ghost use Rattle.std.specs.Prelude.{◌≡◌, length};
ghost use Rattle.record.specs.Record.{record_in, possible};
ghost use Rattle.record.specs.Reading.{record_reading, file_reading};
ghost use Rattle.record.specs.Writing.{record_told, record_after};
ghost use Rattle.record.specs.Told.{told_read, told_written, fault_number, told_file};
ghost use Rattle.refusal.specs.Refusal.{number};

use fields::{SIZE, is_missing_possible, put_fields, record_in};
use putting::put_octets;
use refusal::Refusal;

// The largest APID, and the most packets, that a record can have.
pub const MOST_APID: u16 = 2046;

pub const MOST_PACKETS: u32 = 262144;

// What a station is credited with for one lane.
#[derive(Clone, Copy, Debug, PartialEq, Eq)]
pub struct Record {
    pub station: u16,
    pub apid: u16,
    pub units: u32,
    pub packets: u32,
    pub missing: u32,
    pub broken: u32,
}

// Why a file of records is refused: the index of its first impossible record; or that it is not a multiple of 20 octets.
#[derive(Clone, Copy, Debug, PartialEq, Eq)]
pub enum FileFault {
    Impossible(usize),
    Ragged,
}

impl From<FileFault> for Refusal {
    ghost from_gives = { λ fault r. number r ≡ fault_number fault };

    fn from(fault: FileFault) -> Refusal {
        match fault {
            FileFault::Impossible(_) => Refusal::NotPossible,
            FileFault::Ragged => Refusal::NotRecords,
        }
    }
}

// Whether a record is possible. The sum is made in 64 bits, where it can't wrap; each test is left out where an earlier one fails.
#[tactic(auto, unfolding(crate::specs::Record::possible))]
pub fn is_possible(r: Record) -> bool
    ensures { result ≡ possible r }
{
    if MOST_APID < r.apid {
        return false;
    }
    if MOST_PACKETS < r.packets {
        return false;
    }
    if (r.packets as u64) < r.units as u64 + r.broken as u64 {
        return false;
    }
    is_missing_possible(r.missing, r.packets)
}

// The record at the front of s, whatever its octets say. Past the end an octet counts as 0, so the octets that there are lie in zeros.
pub fn front_record(s: &[u8]) -> Record
    ensures { result ≡ record_in s.now }
{
    let mut whole = [0u8; SIZE];
    let n = s.len().min(SIZE);
    put_octets(&mut whole, 0, &s[..n]);
    record_in(&whole)
}

// The record that s is; or the refusal 26, for not 20 octets, or 25, for an impossible record.
#[tactic(auto, unfolding(crate::specs::Reading::record_reading, crate::specs::Reading::possible_at))]
pub fn read_record(s: &[u8]) -> Result<Record, Refusal>
    ensures { told_read result ≡ record_reading s.now }
{
    let Ok(octets) = <&[u8; SIZE]>::try_from(s) else {
        return Err(Refusal::NotRecords);
    };
    let r = record_in(octets);
    if is_possible(r) {
        Ok(r)
    } else {
        Err(Refusal::NotPossible)
    }
}

// Writes r at the front of out, and tells the octets written; or the refusal 9, for no room, or 25, for an impossible record.
#[tactic(auto, unfolding(crate::specs::Writing::record_told, octets::specs::Output::output_after))]
pub fn write_record(r: Record, out: &mut [u8]) -> Result<usize, Refusal>
    ensures result_value { told_written result ≡ record_told r (length out.old) }
    ensures out_after { out.new ≡ record_after r out.old }
{
    if out.len() < SIZE {
        return Err(Refusal::NoRoom);
    }
    if is_possible(r) {
        put_fields(out, r);
        Ok(SIZE)
    } else {
        Err(Refusal::NotPossible)
    }
}

// The number of records in s, all of them possible; or why the file is refused.
pub fn read_record_file(s: &[u8]) -> Result<usize, FileFault>
    ensures { told_file result ≡ file_reading s.now }
{
    let (records, rest) = s.as_chunks();
    if !rest.is_empty() {
        return Err(FileFault::Ragged);
    }
    match records
        .iter()
        .position(|octets| !is_possible(record_in(octets)))
    {
        Some(index) => Err(FileFault::Impossible(index)),
        None => Ok(records.len()),
    }
}
