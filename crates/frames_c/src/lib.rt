// What a C program calls of the frames, as include/branmuslin.h declares it: each function is that of the crate frames by its own name, with the same
// clauses.
#![tactic(auto)]

ghost use Rattle.std.specs.Prelude.{◌≡◌, length};
ghost use Rattle.frames.specs.Frames.{fresh_frames, framed, buffer_after, out_after};

use frames::{Framed, Frames};

// No piece and no previous frame.
#[unsafe(no_mangle)]
pub extern "C" fn branmuslin_fresh_frames() -> Frames
    ensures { result ≡ fresh_frames }
{
    frames::branmuslin_fresh_frames()
}

// Takes the data field of a frame, with its count and its first header pointer.
#[unsafe(no_mangle)]
pub extern "C" fn branmuslin_take_frame(
    state: Frames,
    count: u32,
    pointer: u32,
    field: &[u8],
    piece: &mut [u8],
    out: &mut [u8],
) -> Framed
    ensures value { result ≡ framed state count pointer field.now piece.old (length out.old) }
    ensures piece_after { piece.new ≡ buffer_after state count pointer field.now piece.old (length out.old) }
    ensures out_after { out.new ≡ out_after state count pointer field.now piece.old out.old }
{
    frames::branmuslin_take_frame(state, count, pointer, field, piece, out)
}
