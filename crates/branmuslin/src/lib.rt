// What the C library has of readers, writers and records, thin over the proved ones: the crate branmuslin_c gives C these functions, which include/branmuslin.h
// declares. Each returns the number of the refusal, or 0,
// and where it refuses leaves everything that was lent to it as it was (but for the index that belongs to refusal 25 of a record file, and the
// place that belongs to 1 to 7 of a packet). A slice is a pointer and a length in C; packet_type, field and out are type, data and output in the
// header.
#![tactic(auto)]

mod struct_numbers;

ghost use Rattle.std.specs.Prelude.{◌≡◌, length};
ghost use Rattle.reading.specs.Reading.{refusal};
ghost use Rattle.writing.specs.Space.{space_refusal, space_after};
ghost use Rattle.writing.specs.Encapsulation.{encap_refusal, encap_after};
ghost use Rattle.record.specs.Reading.{record_refusal, file_refusal};
ghost use Rattle.record.specs.Writing.{writing_refusal, record_after};
ghost use Rattle.branmuslin.specs.Lent.{packet_after, place_after, space_written_after, encap_written_after, handed, record_numbers_after, records_after, index_after};
ghost use Rattle.branmuslin.specs.Told.{number_of, left_of};

use record::{FileFault, Record};
use refusal::Refusal;
use struct_numbers::{packet_numbers, record_numbers};

// Leaves what a call told where it was lent room for it, and gives the number of the refusal, or 0: the enum ends here, since C is given numbers.
fn leave<T: Copy>(told: Result<T, Refusal>, lent: &mut T) -> u8
    ensures value { result ≡ number_of told }
    ensures lent_after { lent.new ≡ left_of told lent.old }
{
    match told {
        Ok(value) => {
            *lent = value;
            0
        }
        Err(refusal) => u8::from(refusal),
    }
}

// Reads the packet at the front of the octets into the numbers of struct branmuslin_packet; or tells the refusal with its place.
#[unsafe(no_mangle)]
pub extern "C" fn branmuslin_read_packet(
    octets: &[u8],
    numbers: &mut [u32; 11],
    place: &mut usize,
) -> u8
    ensures value { result ≡ refusal octets.now }
    ensures numbers_after { numbers.new ≡ packet_after octets.now numbers.old }
    ensures place_after { place.new ≡ place_after octets.now place.old }
{
    match reading::read_packet(octets) {
        Ok(p) => {
            *numbers = packet_numbers(p);
            0
        }
        Err(unread) => {
            *place = unread.place as usize;
            u8::from(unread.refusal)
        }
    }
}

// Writes a Space Packet at the front of out, and tells its octets.
#[unsafe(no_mangle)]
pub extern "C" fn branmuslin_write_space(
    packet_type: u32,
    secondary: u32,
    apid: u32,
    flags: u32,
    count: u32,
    field: &[u8],
    out: &mut [u8],
    written: &mut usize,
) -> u8
    ensures value { result ≡ space_refusal packet_type secondary apid flags count (length field.now) (length out.old) }
    ensures out_after { out.new ≡ space_after packet_type secondary apid flags count field.now out.old }
    ensures written_after { written.new ≡ space_written_after packet_type secondary apid flags count field.now out.old written.old }
{
    let octets = writing::write_space(packet_type, secondary, apid, flags, count, field, out);
    leave(octets, written)
}

// Writes an Encapsulation Packet at the front of out, and tells its octets.
#[unsafe(no_mangle)]
pub extern "C" fn branmuslin_write_encapsulation(
    protocol: u32,
    user: u32,
    extension: u32,
    content: &[u8],
    out: &mut [u8],
    written: &mut usize,
) -> u8
    ensures value { result ≡ encap_refusal protocol user extension (length content.now) (length out.old) }
    ensures out_after { out.new ≡ encap_after protocol user extension content.now out.old }
    ensures written_after { written.new ≡ encap_written_after protocol user extension content.now out.old written.old }
{
    let octets = writing::write_encapsulation(protocol, user, extension, content, out);
    leave(octets, written)
}

// Writes a record at the front of out.
#[unsafe(no_mangle)]
pub extern "C" fn branmuslin_write_record(
    station: u16,
    apid: u16,
    units: u32,
    packets: u32,
    missing: u32,
    broken: u32,
    out: &mut [u8],
) -> u8
    ensures value { result ≡ writing_refusal (handed station apid units packets missing broken) (length out.old) }
    ensures out_after { out.new ≡ record_after (handed station apid units packets missing broken) out.old }
{
    let given = Record {
        station,
        apid,
        units,
        packets,
        missing,
        broken,
    };
    let mut octets = 0;
    leave(record::write_record(given, out), &mut octets)
}

// Reads one record into the numbers of struct branmuslin_record.
#[unsafe(no_mangle)]
pub extern "C" fn branmuslin_read_record(octets: &[u8], numbers: &mut [u32; 6]) -> u8
    ensures value { result ≡ record_refusal octets.now }
    ensures numbers_after { numbers.new ≡ record_numbers_after octets.now numbers.old }
{
    let read = record::read_record(octets).map(record_numbers);
    leave(read, numbers)
}

// Reads a file of records: tells its number of records or, with 25, the index of the first impossible one.
#[unsafe(no_mangle)]
pub extern "C" fn branmuslin_read_record_file(
    octets: &[u8],
    records: &mut usize,
    index: &mut usize,
) -> u8
    ensures value { result ≡ file_refusal octets.now }
    ensures records_after { records.new ≡ records_after octets.now records.old }
    ensures index_after { index.new ≡ index_after octets.now index.old }
{
    let file = record::read_record_file(octets);
    let number = leave(file.map_err(Refusal::from), records);
    if let Err(FileFault::Impossible(i)) = file {
        *index = i;
    }
    number
}
