// Frame files: each frame of one goes to `frames`, and a line of text says what came of it. One step a call, so that whoever calls can write the packets of each frame too.
#![tactic(auto)]

mod lines;

ghost use Rattle.std.specs.Prelude.{◌≡◌, ◌≢◌, true, ◌+◌, ◌≤◌, length, take, MatchOption};
ghost use Rattle.octets.specs.Output.{put as puts};
ghost use Rattle.frames.specs.Frames.{framed, buffer_after, out_after};
ghost use Rattle.deframing.specs.File.{head_octets, frame_size, count_in, pointer_in, field_in};
ghost use Rattle.deframing.specs.Run.{standing, finished, longest, taking, step, is_ready, step_if, told_of, Stepped};
ghost use Rattle.telling.specs.Lines.{line_room};

use frames::{Framed, Frames, branmuslin_take_frame};
use lines::put_frame;
use octets::be16_at;
use telling::{Progress, is_ready, put_last};
use text::put;

// What a step leaves: where the file stands, the index after the text, and the octets of the packets at the front of the output.
#[derive(Clone, Copy)]
pub struct Told {
    pub progress: Progress<Frames>,
    pub to: usize,
    pub octets: usize,
}

// The longest frame file.
const LONGEST: usize = 1048576;

// The octets of a frame before its field: count, pointer and length.
const HEAD: usize = 6;

// The frame at the front of s, unless it is cut off.
fn frame_in(s: &[u8]) -> Option<&[u8]>
    ensures { MatchOption result (frame_size s.now ≡ 0) (λ frame. (frame.now ≡ take (frame_size s.now) s.now) × (frame_size s.now ≢ 0)) }
{
    s.get(..HEAD + usize::from(be16_at(s, 4)))
}

// Takes a whole frame of a frame file. State, piece and output are those of the function that C calls too.
fn take_whole(state: Frames, frame: &[u8], piece: &mut [u8], out: &mut [u8]) -> Framed
    requires { head_octets ≤ length frame.now }
    ensures value { result ≡ framed state (count_in frame.now) (pointer_in frame.now) (field_in frame.now) piece.old (length out.old) }
    ensures piece_after { piece.new ≡ buffer_after state (count_in frame.now) (pointer_in frame.now) (field_in frame.now) piece.old (length out.old) }
    ensures out_after { out.new ≡ out_after state (count_in frame.now) (pointer_in frame.now) (field_in frame.now) piece.old out.old }
{
    let count = u32::from(be16_at(frame, 0));
    let pointer = u32::from(be16_at(frame, 2));
    branmuslin_take_frame(state, count, pointer, &frame[HEAD..], piece, out)
}

// A step that takes a whole frame.
fn tell_frame(
    frame: &[u8],
    progress: Progress<Frames>,
    piece: &mut [u8],
    out: &mut [u8],
    text: &mut [u8],
    to: usize,
) -> Told
    requires head_octets_in_bounds { (head_octets ≤ length frame.now) × (progress.at + length frame.now ≤ longest) × (progress.calls ≤ progress.at) }
    requires line_room_in_bounds { to + line_room ≤ length text.old }
    ensures stepped { Stepped (taking (standing progress piece.old out.old) frame.now) text.old to result piece.new out.new text.new }
    ensures octets_in_bounds { (result.octets ≤ length out.old) × (result.to ≤ length text.old) }
{
    let framed = take_whole(progress.state, frame, piece, out);
    let at = progress.at;
    let end = put_frame(text, to, at, be16_at(frame, 0), framed, out);
    Told {
        progress: Progress {
            at: at + frame.len(),
            calls: progress.calls + 1,
            done: false,
            state: framed.state,
        },
        to: end,
        octets: framed.octets,
    }
}

// A step that ends the text. What it shares with the end of a run of calls is `..p`: each puts it into a struct of its own.
fn stopped(p: Progress<Frames>, to: usize) -> Told
    ensures { (result.progress ≡ finished p) × (result.to ≡ to) × (result.octets ≡ 0) }
{
    Told {
        progress: Progress { done: true, ..p },
        to,
        octets: 0,
    }
}

// Takes a step that there is room for.
fn take_step(
    file: &[u8],
    progress: Progress<Frames>,
    piece: &mut [u8],
    out: &mut [u8],
    text: &mut [u8],
    to: usize,
) -> Told
    requires { is_ready (length file.now) (length text.old) to progress ≡ true }
    ensures stepped { Stepped (step file.now (standing progress piece.old out.old)) text.old to result piece.new out.new text.new }
    ensures octets_in_bounds { (result.octets ≤ length out.old) × (result.to ≤ length text.old) }
{
    if LONGEST < file.len() {
        let end = put(text, to, b"too long\n");
        return stopped(progress, end);
    }
    let at = progress.at;
    match frame_in(&file[at..]) {
        Some(frame) => tell_frame(frame, progress, piece, out, text, to),
        None => {
            let end = put_last(text, to, file.len(), at, progress.calls, piece);
            stopped(progress, end)
        }
    }
}

// The next step of a frame file: a frame, or the end. Its text is put into text from index `to` on, and its packets are at the front of out. The file goes on where
// `progress` stands, with piece and out as the last step left them. Where no step is left, or there is no room for its text, nothing is done: `to` stays.
// The place stands beside the text, and the rooms beside the progress, since a step tells the one and leaves the others lent (the clauses of `told_of` and `step_if`).
pub fn tell_next(
    file: &[u8],
    progress: Progress<Frames>,
    piece: &mut [u8],
    out: &mut [u8],
    text: &mut [u8],
    to: usize,
) -> Told
    ensures value { result ≡ told_of to (step_if file.now (length text.old) to (standing progress piece.old out.old)) }
    ensures piece_after { piece.new ≡ (step_if file.now (length text.old) to (standing progress piece.old out.old)).after.piece }
    ensures out_after { out.new ≡ (step_if file.now (length text.old) to (standing progress piece.old out.old)).after.out }
    ensures text_after { text.new ≡ puts text.old to (step_if file.now (length text.old) to (standing progress piece.old out.old)).text }
    ensures octets_in_bounds { (result.octets ≤ length out.old) × (to ≤ length text.old → result.to ≤ length text.old) }
{
    if !is_ready(
        progress.done,
        progress.calls,
        progress.at,
        file.len(),
        to,
        text.len(),
    ) {
        return Told {
            progress,
            to,
            octets: 0,
        };
    }
    take_step(file, progress, piece, out, text, to)
}
