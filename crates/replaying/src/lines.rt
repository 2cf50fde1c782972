// The lines of a run's text, put into a lent text at a place. Text and place are handed on one by one, as in the crate text.
ghost use Rattle.std.specs.Prelude.{◌≡◌, ◌+◌, ◌≤◌, length, take};
ghost use Rattle.adler.specs.Adler.{adler};
ghost use Rattle.record.specs.Record.{fields};
ghost use Rattle.telling.specs.Lines.{line, line_room, Lined};
ghost use Rattle.replaying.specs.Lines.{packet_line, line_of};

use crate::Outcome;
use adler::adler32;
use grouping::Refused;
use intake::Answer;
use record::{Record, front_record};
use telling::put_line;

// Puts the line of a call, where there is room for it. The room is asked for, as `Lined` has it: the step that calls has it from `ready`.
fn put_call(
    text: &mut [u8],
    to: usize,
    at: usize,
    call: &[u8],
    lane: u8,
    word: &[u8],
    ns: &[u64],
) -> usize
    requires call_len_bound { (length call.now ≤ 8) × (length word.now ≤ 8) × (length ns.now ≤ 6) }
    requires line_room_in_bounds { to + line_room ≤ length text.old }
    ensures { Lined text.old to (line at call.now lane word.now ns.now) text.new result }
{
    put_line(text, to, at, call, lane as u64, word, ns)
}

// The Adler-32 of the first n octets of out.
fn adler_of(out: &[u8], n: usize) -> u32
    ensures { result ≡ adler (take n out.now) }
{
    adler32(&out[..n.min(out.len())])
}

// The numbers of a record, as a line has them. C is given them in 32 bits by the crate branmuslin, on which this one would have to stand for six lines.
fn numbers_of(r: Record) -> [u64; 6]
    ensures { result ≡ fields r }
{
    [
        r.station as u64,
        r.apid as u64,
        r.units as u64,
        r.packets as u64,
        r.missing as u64,
        r.broken as u64,
    ]
}

// Puts the line of a packet; where it ended a unit, that is the first octets of out.
#[tactic(auto, using(crate::proofs::One::one_is), unfolding(crate::specs::Lines::packet_line))]
fn put_packet(
    text: &mut [u8],
    to: usize,
    at: usize,
    lane: u8,
    answer: Result<Answer, Refused>,
    out: &[u8],
) -> usize
    requires { to + line_room ≤ length text.old }
    ensures { Lined text.old to (packet_line at lane answer out.now) text.new result }
{
    let call = b" packet";
    match answer {
        Err(Refused::Untaken(refusal)) => {
            let ns = [u64::from(u8::from(refusal))];
            put_call(text, to, at, call, lane, b" refused", &ns)
        }
        Err(Refused::Unread(unread)) => {
            let ns = [u64::from(u8::from(unread.refusal)), u64::from(unread.place)];
            put_call(text, to, at, call, lane, b" refused", &ns)
        }
        Ok(Answer::Repeat) => put_call(text, to, at, call, lane, b" repeat", &[]),
        Ok(Answer::Stray { missing, given_up }) => {
            let ns = [missing as u64, u64::from(given_up)];
            put_call(text, to, at, call, lane, b" stray", &ns)
        }
        Ok(Answer::Held { missing, given_up }) => {
            let ns = [missing as u64, u64::from(given_up)];
            put_call(text, to, at, call, lane, b" held", &ns)
        }
        Ok(
            Answer::Unit {
                octets,
                missing,
                given_up,
            },
        ) => {
            let sum = adler_of(out, octets) as u64;
            let ns = [missing as u64, u64::from(given_up), octets as u64, sum];
            put_call(text, to, at, call, lane, b" unit", &ns)
        }
    }
}

// Puts the line of what is told of the call at index at; out is the output after it.
#[tactic(auto, unfolding(crate::specs::Lines::line_of, crate::specs::Lines::record_line))]
pub(crate) fn put_told(text: &mut [u8], to: usize, at: usize, told: Outcome, out: &[u8]) -> usize
    requires { to + line_room ≤ length text.old }
    ensures { Lined text.old to (line_of at told out.now) text.new result }
{
    match told {
        Outcome::Opened { lane, refusal: 0 } => {
            put_call(text, to, at, b" open", lane, b" ok", &[])
        }
        Outcome::Opened { lane, refusal } => {
            put_call(text, to, at, b" open", lane, b" refused", &[refusal as u64])
        }
        Outcome::Taken { lane, answer } => put_packet(text, to, at, lane, answer, out),
        Outcome::Closed { lane, refusal: 0 } => {
            let ns = numbers_of(front_record(out));
            put_call(text, to, at, b" close", lane, b" record", &ns)
        }
        Outcome::Closed { lane, refusal } => {
            put_call(
                text,
                to,
                at,
                b" close",
                lane,
                b" refused",
                &[refusal as u64],
            )
        }
    }
}
