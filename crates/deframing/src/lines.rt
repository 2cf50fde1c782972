// The line of a frame, put into a lent text at a place. As in the crate text every function cuts what it puts where the text ends, and text and place are handed on one by one.
ghost use Rattle.std.specs.Prelude.{[], ◌∷◌, ◌≡◌, ◌≤◌, length, take};
ghost use Rattle.octets.specs.Octets.{one};
ghost use Rattle.text.specs.Text.{ascii};
ghost use Rattle.text.specs.Written.{reached, written};
ghost use Rattle.adler.specs.Adler.{adler};
ghost use Rattle.telling.specs.Lines.{line, line_room};
ghost use Rattle.deframing.specs.Run.{taken_numbers, frame_line};

use adler::adler32;
use frames::{Framed, Kind};
use telling::put_line;

// Puts the line of the frame at index at, with a word on what came of it, and numbers. What it shares with the lines of other runs is `put_line`, which it gives its own
// word, that of a frame.
fn put_word(text: &mut [u8], to: usize, at: usize, count: u16, word: &[u8], ns: &[u64]) -> usize
    requires { (length word.now ≤ 8) × (length ns.now ≤ 6) }
    ensures value { result ≡ reached (length text.old) to (line at (ascii " frame") count word.now ns.now) }
    ensures text_after { text.new ≡ written text.old to (line at (ascii " frame") count word.now ns.now) }
    ensures short { length (line at (ascii " frame") count word.now ns.now) ≤ line_room }
{
    put_line(text, to, at, b" frame", u64::from(count), word, ns)
}

// The numbers of a frame that was taken.
fn taken_numbers(framed: Framed, out: &[u8]) -> [u64; 5]
    requires { framed.octets ≤ length out.now }
    ensures { result ≡ taken_numbers framed out.now }
{
    [
        framed.packets as u64,
        framed.octets as u64,
        u64::from(framed.given_up),
        u64::from(framed.dropped),
        u64::from(adler32(&out[..framed.octets])),
    ]
}

// Puts the line of a frame; out is the output after it. Its kind is a number, since `Framed` is a struct of C's, and a pattern can't be `Kind::Refused as u8`.
pub(crate) fn put_frame(
    text: &mut [u8],
    to: usize,
    at: usize,
    count: u16,
    framed: Framed,
    out: &[u8],
) -> usize
    requires { framed.octets ≤ length out.now }
    ensures value { result ≡ reached (length text.old) to (frame_line at count framed out.now) }
    ensures text_after { text.new ≡ written text.old to (frame_line at count framed out.now) }
    ensures short { length (frame_line at count framed out.now) ≤ line_room }
{
    if framed.kind == Kind::Refused as u8 {
        return put_word(
            text,
            to,
            at,
            count,
            b" refused",
            &[u64::from(framed.refusal)],
        );
    }
    if framed.kind == Kind::Repeat as u8 {
        return put_word(text, to, at, count, b" repeat", &[]);
    }
    put_word(text, to, at, count, b" taken", &taken_numbers(framed, out))
}
