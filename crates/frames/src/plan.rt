// What a frame is to the state: refused, a repeat, out of step; and what it does to the piece.
ghost use Rattle.std.specs.Prelude.{◌≡◌, not, ◌||◌, length};
ghost use Rattle.frames.specs.declared.plan.Untaken.TheVariants.{Refused};
ghost use Rattle.pieces.specs.Pieces.{number_told};
ghost use Rattle.frames.specs.Frames.{wrong, frame_refusal, repeats, out_of_step, goes_to, finishing, growing, Checked};

use crate::Frames;
use pieces::{Joined, judge_joined};
use refusal::Refusal;

const SHORTEST_FIELD: usize = 8;

const LONGEST_FIELD: usize = 2046;

const BUFFER: usize = 8192;

const LONGEST_PIECE: usize = 8191;

const OUTPUT: usize = 10238;

// A count is 0 to 255.
const COUNTS: u32 = 256;

// The pointers that are no offsets: no packet begins in the field, or it has idle data only.
const NO_PACKET: u32 = 2047;

const IDLE_ONLY: u32 = 2046;

// A frame, as it is given: its count, its first header pointer and its data field.
#[derive(Clone, Copy)]
pub(crate) struct Frame<'a> {
    pub count: u32,
    pub pointer: u32,
    pub field: &'a [u8],
}

// State, frame and buffer are what C hands in, and are handed on as they come.
fn is_wrong(state: Frames, frame: Frame<'_>, buffer: usize) -> bool
    ensures { result ≡ wrong state frame.entry.count frame.entry.pointer (length frame.entry.field.now) buffer }
{
    let n = frame.field.len();
    let pointer = frame.pointer;
    ((n < SHORTEST_FIELD) | (LONGEST_FIELD < n) | (buffer != BUFFER))
        | (COUNTS <= frame.count)
        | (!((pointer == IDLE_ONLY) | (pointer == NO_PACKET)) & (n <= pointer as usize))
        | (LONGEST_PIECE < state.piece)
}

// BadFrame, then NoRoom.
fn refuse(state: Frames, frame: Frame<'_>, buffer: usize, room: usize) -> Result<(), Refusal>
    ensures { number_told result ≡ frame_refusal state frame.entry.count frame.entry.pointer (length frame.entry.field.now) buffer room }
{
    if is_wrong(state, frame, buffer) {
        return Err(Refusal::BadFrame);
    }
    if room < OUTPUT {
        return Err(Refusal::NoRoom);
    }
    Ok(())
}

fn is_repeat(state: Frames, count: u32) -> bool
    ensures { result ≡ repeats state count }
{
    state.started & (count == u32::from(state.count))
}

fn is_out_of_step(state: Frames, count: u32) -> bool
    ensures { result ≡ out_of_step state count }
{
    state.started & (count != (u32::from(state.count) + 1) % COUNTS)
}

// Why a frame changes nothing.
#[derive(Clone, Copy)]
pub(crate) enum Untaken {
    Refused(Refusal),
    Repeat,
}

impl From<Refusal> for Untaken {
    ghost from_gives = { λ r u. u ≡ Refused r };

    fn from(r: Refusal) -> Untaken {
        Untaken::Refused(r)
    }
}

// Whether a frame is to be taken.
pub(crate) fn check_frame(
    state: Frames,
    frame: Frame<'_>,
    buffer: usize,
    room: usize,
) -> Result<(), Untaken>
    ensures { Checked state frame.entry.count frame.entry.pointer (length frame.entry.field.now) buffer room result }
{
    refuse(state, frame, buffer, room)?;
    if is_repeat(state, frame.count) {
        return Err(Untaken::Repeat);
    }
    Ok(())
}

// What becomes of the piece: with the octets before the pointer it is one packet; or the beginning of one in a field where no packet begins; or else it stops here.
#[derive(Clone, Copy)]
pub(crate) enum Goes {
    Finishes,
    Grows,
    Stops,
}

impl Goes {
    pub(crate) fn is_finished(self) -> bool
        ensures { result ≡ finishing self }
    {
        matches!(self, Goes::Finishes)
    }

    pub(crate) fn is_stopped(self) -> bool
        ensures { result ≡ not (finishing self || growing self) }
    {
        matches!(self, Goes::Stops)
    }
}

pub(crate) fn plan_piece(state: Frames, frame: Frame<'_>, piece: &[u8]) -> Goes
    ensures { result ≡ goes_to state frame.entry.count frame.entry.pointer frame.entry.field.now piece.now }
{
    let pointer = frame.pointer;
    if (state.piece == 0) | is_out_of_step(state, frame.count) | (pointer == IDLE_ONLY) {
        return Goes::Stops;
    }
    let from = frame.field.len().min(pointer as usize);
    match judge_joined(piece, &frame.field[..from]) {
        Joined::Packet => Goes::Finishes,
        Joined::Unfinished if pointer == NO_PACKET => Goes::Grows,
        _ => Goes::Stops,
    }
}
