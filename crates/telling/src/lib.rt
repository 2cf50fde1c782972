// The lines that the texts of runs share: one for a call, one where a run stops before its end, and the last one. As in the crate text every function is
// total, text is cut where the output ends, and each answers the place after what it put. Text and place are handed on one by one, as there.
#![tactic(auto)]

ghost use Rattle.std.specs.Prelude.{◌≡◌, length};
ghost use Rattle.text.specs.Written.{reached, written};
ghost use Rattle.telling.specs.Lines.{line, bad_line, end_line, last_lines, ready};

use adler::adler32;
use text::{put, put_decimal, put_numbers};

// Where a run stands: the octets of whole calls behind it, their number, whether its text is whole, and the state that it goes on from. The flag is no Option of
// the rest, since a run whose text is whole tells the same numbers on (`finished`, in the specs of replaying and of deframing).
#[derive(Clone, Copy)]
pub struct Progress<S> {
    pub at: usize,
    pub calls: usize,
    pub done: bool,
    pub state: S,
}

// Room for the text of any step of a run.
pub const LINE_ROOM: usize = 192;

// Whether a step can be taken: in a run of n octets that is not done and stands at index at, after so many calls; its text would go to index `to` of so much room.
// The flag is that of `Progress`, handed on.
pub fn is_ready(done: bool, calls: usize, at: usize, n: usize, to: usize, room: usize) -> bool
    ensures { result ≡ ready done calls at n to room }
{
    !done & (calls <= at) & (at <= n) & (LINE_ROOM <= room.saturating_sub(to))
}

// Puts a line: an offset, what is called, its number, a word on what came of it, and numbers.
pub fn put_line(
    text: &mut [u8],
    to: usize,
    at: usize,
    call: &[u8],
    number: u64,
    word: &[u8],
    ns: &[u64],
) -> usize
    ensures value { result ≡ reached (length text.old) to (line at call.now number word.now ns.now) }
    ensures text_after { text.new ≡ written text.old to (line at call.now number word.now ns.now) }
{
    let to = put_decimal(text, to, at as u64);
    let to = put(text, to, call);
    let to = put_numbers(text, to, &[number]);
    let to = put(text, to, word);
    let to = put_numbers(text, to, ns);
    put(text, to, b"\n")
}

// Puts the line of a run that has no whole call here.
pub fn put_bad(text: &mut [u8], to: usize, at: usize) -> usize
    ensures value { result ≡ reached (length text.old) to (bad_line at) }
    ensures text_after { text.new ≡ written text.old to (bad_line at) }
{
    let to = put_decimal(text, to, at as u64);
    put(text, to, b" bad\n")
}

fn put_end(text: &mut [u8], to: usize, at: usize, calls: usize, held: &[u8]) -> usize
    ensures value { result ≡ reached (length text.old) to (end_line at calls held.now) }
    ensures text_after { text.new ≡ written text.old to (end_line at calls held.now) }
{
    let to = put(text, to, b"end");
    let sum = adler32(held);
    let to = put_numbers(text, to, &[at as u64, calls as u64, sum as u64]);
    put(text, to, b"\n")
}

// Puts the last lines of a run of n octets that stands at index at, after so many calls; `held` is what it keeps its octets in.
pub fn put_last(text: &mut [u8], to: usize, n: usize, at: usize, calls: usize, held: &[u8]) -> usize
    ensures value { result ≡ reached (length text.old) to (last_lines n at calls held.now) }
    ensures text_after { text.new ≡ written text.old to (last_lines n at calls held.now) }
{
    if at == n {
        return put_end(text, to, at, calls, held);
    }
    let to = put_bad(text, to, at);
    put_end(text, to, at, calls, held)
}
