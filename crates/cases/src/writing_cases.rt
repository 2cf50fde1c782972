// Cases of writing packets and records: what the writer answered, the front of the output, and its octets around the end of what was written.
use crate::line::{Numbers, low16, rest_of};
use crate::say::{front, lend, say_octets, say_refused};
use octets::octet_at;
use record::{Record, write_record};
use refusal::Refusal;
use std::io;
use std::io::Write;
use writing::{write_encapsulation, write_space};

// Content to be written: octet i is i mod 251, so that no two places nearby are alike.
pub(crate) fn fill_content(content: &mut [u8]) {
    for (i, octet) in content.iter_mut().enumerate() {
        *octet = (i % 251) as u8;
    }
}

// The first 24 octets of the output, the last of the n that were written, and the next: so the output is whole, and n stands beside it.
pub(crate) fn say_output<W: Write>(to: &mut W, out: &[u8], n: usize) -> io::Result<()> {
    write!(to, " {}", "output")?;
    say_octets(to, front(out, 24))?;
    if n > 0 {
        write!(to, " {}", "end")?;
        say_octets(to, &[octet_at(out, n - 1), octet_at(out, n)])?;
    }
    Ok(())
}

// Each number modulo what its field holds; no From, as of the settings.
fn record_of(station: u32, apid: u32, tallies: [u32; 4]) -> Record {
    let [units, packets, missing, broken] = tallies;
    Record {
        station: low16(station),
        apid: low16(apid),
        units,
        packets,
        missing,
        broken,
    }
}

// The numbers from the third word on are the writer's fields, then octets of content, then octets of output. What is written is known by its
// first four letters: `encap`, `space`, or else `record`.
fn write(what: &[u8], n: Numbers, content: &[u8], out: &mut [u8]) -> Result<usize, Refusal> {
    let [_, _, a, b, c, d, e, f, g, ..] = n;
    match what.first_chunk() {
        Some(b"enca") => {
            let data = front(content, d as usize);
            write_encapsulation(a, b, c, data, lend(out, e as usize))
        }
        Some(b"spac") => {
            let data = front(content, f as usize);
            write_space(a, b, c, d, e, data, lend(out, g as usize))
        }
        _ => {
            let record = record_of(a, b, [c, d, e, f]);
            write_record(record, lend(out, g as usize))
        }
    }
}

pub(crate) fn say_writing<W: Write>(
    to: &mut W,
    line: &[u8],
    n: Numbers,
    content: &[u8],
) -> io::Result<()> {
    let mut out = [0xA5; 65544];
    match write(rest_of(line, 6), n, content, &mut out) {
        Ok(n) => {
            write!(to, " {} {n}", "wrote")?;
            say_output(to, &out, n)
        }
        Err(refusal) => {
            say_refused(to, u8::from(refusal))?;
            say_output(to, &out, 0)
        }
    }
}
