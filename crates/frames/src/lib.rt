// Frames: the data fields of a frame recording, one a call, joined to the packets that lie across them. The unfinished piece lives in a lent buffer, and whole packets go to
// a lent output. It knows the reader, and nothing of lanes. The crate frames_c gives C its two functions, which include/branmuslin.h declares.
#![tactic(auto)]

mod plan;

ghost use Rattle.std.specs.Prelude.{◌≡◌, true, cond, [], ◌++◌, ◌+◌, ◌≤◌, length, take};
ghost use Rattle.octets.specs.Output.{put};
ghost use Rattle.frames.specs.Frames.{fresh_frames, frame_refusal, piece_in, packets_out, piece_after, growing, packets_put, piece_kept, untaken_by, taken, framed, buffer_after, out_after};

use pieces::{Rest, read_on};
use plan::{Frame, Goes, Untaken, check_frame, plan_piece};
use putting::put_octets;

// What the frames before left: whether there was one, its count, and the octets of the piece at the front of the lent buffer. The flag stands beside the count, and is no Option,
// since this is the struct of include/branmuslin.h.
#[repr(C)]
#[derive(Clone, Copy)]
pub struct Frames {
    pub started: bool,
    pub count: u8,
    pub piece: usize,
}

// The kinds of what a frame is answered, with the numbers that C is told.
#[derive(Clone, Copy)]
pub enum Kind {
    Refused = 0,
    Repeat = 1,
    Taken = 2,
}

// What a frame is answered. given_up: a piece was given up; dropped: the rest of the field was; packets and their octets are those at the front of the output. The refusal and
// the kind are numbers, since this is the struct of include/branmuslin.h.
#[repr(C)]
#[derive(Clone, Copy)]
pub struct Framed {
    pub refusal: u8,
    pub kind: u8,
    pub given_up: bool,
    pub dropped: bool,
    pub packets: usize,
    pub octets: usize,
    pub state: Frames,
}

// No piece and no previous frame.
#[unsafe(no_mangle)]
pub extern "C" fn branmuslin_fresh_frames() -> Frames
    ensures { result ≡ fresh_frames }
{
    Frames {
        started: false,
        count: 0,
        piece: 0,
    }
}

// The answer to a frame that changes nothing.
fn not_taken(why: Untaken, state: Frames) -> Framed
    ensures { result ≡ untaken_by why state }
{
    let (refusal, kind) = match why {
        Untaken::Refused(refusal) => (u8::from(refusal), Kind::Refused as u8),
        Untaken::Repeat => (0, Kind::Repeat as u8),
    };
    Framed {
        refusal,
        kind,
        given_up: false,
        dropped: false,
        packets: 0,
        octets: 0,
        state,
    }
}

// Puts the packets at the front of out: where the piece is finished, it and the field up to the end of its packets, which lie side by side; else the packets of the field.
fn put_packets(goes: Goes, piece: &[u8], field: &[u8], rest: Rest, out: &mut [u8]) -> usize
    requires { (rest.from ≤ rest.to) × (rest.to ≤ length field.now) × (length piece.now + rest.to ≤ length out.old) }
    ensures value { result ≡ length (packets_put goes piece.now field.now rest) }
    ensures out_after { out.new ≡ put out.old 0 (packets_put goes piece.now field.now rest) }
{
    if goes.is_finished() {
        put_octets(out, 0, piece);
        put_octets(out, piece.len(), &field[..rest.to]);
        return piece.len() + rest.to;
    }
    put_octets(out, 0, &field[rest.from..rest.to]);
    rest.to - rest.from
}

// Puts the new piece at the front of the buffer, and tells its octets: a piece of so many that grows by the field; or what is left of the field after its packets, unless
// that is dropped. How many octets the piece has stands beside its buffer, as it does in the state that C hands on.
fn keep_piece(goes: Goes, kept: usize, field: &[u8], rest: Rest, piece: &mut [u8]) -> usize
    requires { (rest.to ≤ length field.now) × (length field.now ≤ length piece.old) × (growing goes ≡ true → kept + length field.now ≤ length piece.old) }
    ensures value { result ≡ length (piece_kept goes (take kept piece.old) field.now rest) }
    ensures piece_after { piece.new ≡ put piece.old 0 (piece_kept goes (take kept piece.old) field.now rest) }
{
    match goes {
        Goes::Grows => {
            put_octets(piece, kept, field);
            kept + field.len()
        }
        _ if rest.dropped => 0,
        _ => {
            put_octets(piece, 0, &field[rest.to..]);
            field.len() - rest.to
        }
    }
}

// Takes a frame that is neither refused nor a repeat. What it does is known before anything is written. State, piece and output are handed on as C hands them in.
fn take_next(state: Frames, frame: Frame<'_>, piece: &mut [u8], out: &mut [u8]) -> Framed
    requires { frame_refusal state frame.count frame.pointer (length frame.field.now) (length piece.old) (length out.old) ≡ 0 }
    ensures value { result ≡ taken state frame.entry.count frame.entry.pointer frame.entry.field.now piece.old }
    ensures piece_after { piece.new ≡ put piece.old 0 (piece_after state frame.entry.count frame.entry.pointer frame.entry.field.now (piece_in state frame.entry.count frame.entry.pointer frame.entry.field.now piece.old)) }
    ensures out_after { out.new ≡ put out.old 0 (packets_out state frame.entry.count frame.entry.pointer frame.entry.field.now (piece_in state frame.entry.count frame.entry.pointer frame.entry.field.now piece.old)) }
{
    let kept = state.piece;
    let field = frame.field;
    let goes = plan_piece(state, frame, &piece[..kept]);
    let rest = read_on(field, frame.pointer as usize);
    let octets = put_packets(goes, &piece[..kept], field, rest, out);
    let left = keep_piece(goes, kept, field, rest, piece);
    Framed {
        refusal: 0,
        kind: Kind::Taken as u8,
        given_up: (kept != 0) & goes.is_stopped(),
        dropped: rest.dropped,
        packets: usize::from(goes.is_finished()) + rest.packets,
        octets,
        state: Frames {
            started: true,
            count: frame.count as u8,
            piece: left,
        },
    }
}

// Takes the data field of a frame, with its count and its first header pointer.
#[unsafe(no_mangle)]
pub extern "C" fn branmuslin_take_frame(
    state: Frames,
    count: u32,
    pointer: u32,
    field: &[u8],
    piece: &mut [u8],
    out: &mut [u8],
) -> Framed
    ensures value { result ≡ framed state count pointer field.now piece.old (length out.old) }
    ensures piece_after { piece.new ≡ buffer_after state count pointer field.now piece.old (length out.old) }
    ensures out_after { out.new ≡ out_after state count pointer field.now piece.old out.old }
{
    let frame = Frame {
        count,
        pointer,
        field,
    };
    match check_frame(state, frame, piece.len(), out.len()) {
        Ok(()) => take_next(state, frame, piece, out),
        Err(why) => not_taken(why, state),
    }
}
