// The program list: reads a recording from standard input and prints its listing, or `too long`. Where reading or writing fails it says so on
// standard error, and ends with status 1.
#![tactic(auto)]

ghost use Rattle.std.specs.Prelude.{◌≤◌, length, IfOk};

use ending::{Ending, Failure};
use listing::{LONGEST, MOST_LISTED};
use std::io;
use std::io::{Read, Write};

// Reads until the room is full or the input ends, and answers how many octets came. Each read is lent all the room that is left, so that nothing is lost of an input
// that comes in messages; `io::copy` of std reads through 8,192 octets. No contract tells what an input gives, so this is no public function, and each program has it.
fn read_full<R: Read>(input: &mut R, room: &mut [u8]) -> io::Result<usize>
    ensures { IfOk result (λ n. n ≤ length room.new) }
{
    let mut done = 0;
    while done < room.len() {
        let count = input.read(&mut room[done..])?;
        if count == 0 {
            break;
        }
        done += count;
    }
    Ok(done)
}

// Lists what the input gives. Input and output are handed over once in each program, so they are two parameters.
fn run<R: Read, W: Write>(input: &mut R, output: &mut W) -> Result<(), Failure> {
    // Room for one octet more than is listed, so that a longer recording shows.
    let mut recording: [u8; LONGEST + 1] = Default::default();
    let count = read_full(input, &mut recording).map_err(Failure::Input)?;
    // Room for every text: the law `room` of the crate listing says that none is longer.
    let mut text: [u8; MOST_LISTED] = Default::default();
    let listed = listing::list_recording(&recording[..count], &mut text);
    output
        .write_all(listing::written(listed, &text))
        .map_err(Failure::Output)
}

fn main(rt: HostRuntime) -> Ending {
    Ending(run(&mut rt.stdin(), &mut rt.stdout()))
}
