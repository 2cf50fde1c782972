// The program deframe: reads a frame file from standard input, takes its frames and prints what came of each, or `too long`; their packets go to descriptor 3, where
// that is open for writing. Where reading or writing fails it says so on standard error, and ends with status 1.
#![tactic(auto)]

ghost use Rattle.std.specs.Prelude.{◌≤◌, length, IfOk};
ghost use Rattle.telling.specs.Lines.{line_room};

use ending::{Ending, Failure};
use std::fs::{File, Files, OpenOptions};
use std::io::{Read, Write};
use std::process::{ExitCode, Termination};
use std::{fs, io};
use telling::{LINE_ROOM, Progress};

// Where the packets go, by the name that the system gives descriptor 3.
const PACKETS: &str = "/proc/self/fd/3";

// Reads until the room is full or the input ends, and answers how many octets came (as in list).
fn read_full<R: Read>(input: &mut R, room: &mut [u8]) -> io::Result<usize>
    ensures { IfOk result (λ n. n ≤ length room.new) }
{
    let mut done = 0;
    while done < room.len() {
        let count = input.read(&mut room[done..])?;
        if count == 0 {
            break;
        }
        done += count;
    }
    Ok(done)
}

// An open place for packets. The first file that is opened takes the number of a standard descriptor that is closed, so two others are opened
// before it, which can't be written.
#[derive(Drop)]
struct Place<P> {
    first: P,
    second: P,
    file: P,
}

fn open_place<R: Files>(rt: &R) -> io::Result<Place<R::File>> {
    let first = File::open(rt, "/dev/null")?;
    let second = File::open(rt, "/dev/null")?;
    let file = OpenOptions::new().append(true).open(rt, PACKETS)?;
    Ok(Place {
        first,
        second,
        file,
    })
}

// Where the packets go, if anywhere, until that fails.
type Packets<P> = io::Result<Option<Place<P>>>;

// Opens the place for the packets, to write at its end. Its name is a link that shows whether the descriptor is for writing; who wants no packets
// leaves it closed.
fn open_packets<R: Files>(rt: &R) -> Packets<R::File> {
    match fs::symlink_metadata(rt, PACKETS) {
        Ok(link) if !link.permissions().readonly() => open_place(rt).map(Some),
        _ => Ok(None),
    }
}

// Writes the packets of a frame. Where that fails no more are written.
fn write_packets<P: Write + Drop>(to: &mut Packets<P>, packets: &[u8]) {
    if let Ok(Some(place)) = to {
        if let Err(error) = place.file.write_all(packets) {
            *to = Err(error);
        }
    }
}

// Takes the frames of the file, and writes the text and the packets.
fn deframe<P: Write + Drop, W: Write>(
    file: &[u8],
    piece: &mut [u8],
    out: &mut [u8],
    text: &mut [u8],
    packets: &mut Packets<P>,
    output: &mut W,
) -> io::Result<()>
    requires { line_room ≤ length text.old }
{
    let mut progress = Progress {
        at: 0,
        calls: 0,
        done: false,
        state: frames::branmuslin_fresh_frames(),
    };
    let mut to = 0;
    while !progress.done {
        let told = deframing::tell_next(file, progress, piece, out, text, to);
        write_packets(packets, &out[..told.octets]);
        progress = told.progress;
        to = told.to;
        if progress.done || text.len() - to < LINE_ROOM {
            output.write_all(&text[..to])?;
            to = 0;
        }
    }
    Ok(())
}

// Takes the frames of the file that the input gives. The packets have their place once the file is read. Input and output are two parameters, as in list.
fn run<F: Files, R: Read, W: Write>(
    rt: &F,
    input: &mut R,
    packets: &mut Packets<F::File>,
    output: &mut W,
) -> Result<(), Failure> {
    // Room for one octet more than a frame file has, so that a longer one shows.
    let mut file: [u8; 1048577] = Default::default();
    let count = read_full(input, &mut file).map_err(Failure::Input)?;
    // The buffer that the unfinished piece lives in.
    let mut piece: [u8; 8192] = Default::default();
    // The most octets of packets that a frame can ask room for.
    let mut out: [u8; 10238] = Default::default();
    // Some lines of the text at a time.
    let mut text: [u8; 65536] = Default::default();
    *packets = open_packets(rt);
    deframe(
        &file[..count],
        &mut piece,
        &mut out,
        &mut text,
        packets,
        output,
    )
    .map_err(Failure::Output)
}

// What failed of the packets is told first. The status is that of the text, if that failed too.
fn main(rt: HostRuntime) -> ExitCode {
    let mut packets = Ok(None);
    let done = run(&rt, &mut rt.stdin(), &mut packets, &mut rt.stdout());
    let status = Ending(packets.map(|_| ()).map_err(Failure::Packets)).report(&rt);
    match done {
        Ok(()) => status,
        failed => Ending(failed).report(&rt),
    }
}
