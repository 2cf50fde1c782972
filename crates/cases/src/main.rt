// The program cases: runs the lines of standard input, each of which is a case or prepares one, and prints what came. The file `stdin` beside
// this folder has the paper's cases that are not starred, and says what each line means; so a new case is a line there.
#![tactic(auto)]

ghost use Rattle.std.specs.Prelude.{◌≤◌, length, IfOk};

mod lane_cases;
mod line;
mod octet_cases;
mod say;
mod writing_cases;

use lane_cases::{close, fill, make_lane, make_mark, open, say_sound, send};
use line::{Numbers, numbers_of};
use octet_cases::{say_reading, say_walking};
use say::lend;
use state::{State, fresh_start};
use std::io;
use std::io::{Read, Write};
use writing_cases::{fill_content, say_writing};

// What the lines so far made: the state of the lanes, and how many octets of the pool are lent.
#[derive(Drop)]
struct Made {
    state: State,
    pool: usize,
}

// A line that begins with # is passed over, and so is one without a word.
fn is_passed_over(line: &[u8]) -> bool {
    line.first().is_none_or(|octet| *octet <= b'#')
}

// Tells what a case comes to. A verb is known by its first four letters.
fn tell<W: Write>(
    to: &mut W,
    line: &[u8],
    n: Numbers,
    state: &mut State,
    content: &[u8],
    pool: &mut [u8],
) -> io::Result<()> {
    match line.first_chunk() {
        Some(b"read") => say_reading(to, line),
        Some(b"walk") => say_walking(to, line),
        Some(b"writ") => say_writing(to, line, n, content),
        Some(b"fres") => {
            *state = fresh_start();
            Ok(())
        }
        Some(b"open") => open(to, state, n, pool),
        Some(b"pack") => send(to, state, n, content, pool),
        Some(b"clos") => close(to, state, n, pool),
        Some(b"fill") => {
            fill(state, pool);
            Ok(())
        }
        Some(b"soun") => say_sound(to, state),
        _ => write!(to, " {}", "unknown"),
    }
}

// Runs one line. What only prepares a case prints nothing. What it writes to, reads and lends is handed on one by one: each call below takes another part of it.
fn run_line<W: Write>(
    to: &mut W,
    line: &[u8],
    made: &mut Made,
    content: &[u8],
    pool: &mut [u8],
) -> io::Result<()> {
    let n = numbers_of(line);
    match line.first_chunk() {
        Some(b"lane") => make_lane(&mut made.state, n),
        Some(b"mark") => make_mark(&mut made.state, n),
        Some(b"pool") => made.pool = n[1] as usize,
        _ => {
            if !is_passed_over(line) {
                to.write_all(line)?;
                to.write_all(b":")?;
                tell(to, line, n, &mut made.state, content, lend(pool, made.pool))?;
                to.write_all(b"\n")?;
            }
        }
    }
    Ok(())
}

// Runs each line of the text that has an end.
fn run_lines<W: Write>(to: &mut W, text: &[u8], content: &[u8], pool: &mut [u8]) -> io::Result<()> {
    let mut made = Made {
        state: fresh_start(),
        pool: 16384,
    };
    for piece in text.split_inclusive(|octet| *octet == b'\n') {
        if let Some(line) = piece.strip_suffix(b"\n") {
            run_line(to, line, &mut made, content, pool)?;
        }
    }
    Ok(())
}

// Reads until the room is full or the input ends, and answers how many octets came (as in list).
fn read_full<R: Read>(input: &mut R, room: &mut [u8]) -> io::Result<usize>
    ensures { IfOk result (λ n. n ≤ length room.new) }
{
    let mut done = 0;
    while done < room.len() {
        let count = input.read(&mut room[done..])?;
        if count == 0 {
            break;
        }
        done += count;
    }
    Ok(done)
}

fn main(rt: HostRuntime) -> io::Result<()> {
    let mut input = [0u8; 65536];
    let count = read_full(&mut rt.stdin(), &mut input)?;
    // What fills the buffer may go on.
    if input.len() <= count {
        return rt.stdout().write_all(b"too long\n");
    }
    let mut content = [0u8; 65537];
    let mut pool = [0u8; 16385];
    fill_content(&mut content);
    run_lines(&mut rt.stdout(), &input[..count], &content, &mut pool)
}
