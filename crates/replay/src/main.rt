// The program replay: reads a run file from standard input, makes the pool, runs each call and prints what came of it, or `too long`. Where reading or
// writing fails it says so on standard error, and ends with status 1.
#![tactic(auto)]

ghost use Rattle.std.specs.Prelude.{◌≤◌, length, IfOk};
ghost use Rattle.telling.specs.Lines.{line_room};

use ending::{Ending, Failure};
use std::io;
use std::io::{Read, Write};

// Reads until the room is full or the input ends, and answers how many octets came (as in list).
fn read_full<R: Read>(input: &mut R, room: &mut [u8]) -> io::Result<usize>
    ensures { IfOk result (λ n. n ≤ length room.new) }
{
    let mut done = 0;
    while done < room.len() {
        let count = input.read(&mut room[done..])?;
        if count == 0 {
            break;
        }
        done += count;
    }
    Ok(done)
}

// Replays the run file, and writes its text chunk by chunk.
fn replay<W: Write>(
    run: &[u8],
    pool: &mut [u8],
    out: &mut [u8],
    text: &mut [u8],
    output: &mut W,
) -> io::Result<()>
    requires { line_room ≤ length text.old }
{
    let mut progress = runfile::begin();
    while !progress.done {
        let chunk = replaying::replay_some(run, progress, pool, out, text);
        output.write_all(&text[..chunk.octets])?;
        progress = chunk.progress;
    }
    Ok(())
}

// Replays the run file that the input gives. Input and output are two parameters, as in list.
fn run<R: Read, W: Write>(input: &mut R, output: &mut W) -> Result<(), Failure> {
    // Room for one octet more than a run file has, so that a longer one shows.
    let mut run: [u8; 1048577] = Default::default();
    let count = read_full(input, &mut run).map_err(Failure::Input)?;
    // The pool: 64 blocks of 256 octets.
    let mut pool = [0; 16384];
    // The most output space that a call gets.
    let mut out: [u8; 131072] = Default::default();
    // A chunk of the text at a time.
    let mut text: [u8; 65536] = Default::default();
    replay(&run[..count], &mut pool, &mut out, &mut text, output).map_err(Failure::Output)
}

fn main(rt: HostRuntime) -> Ending {
    Ending(run(&mut rt.stdin(), &mut rt.stdout()))
}
