// Cases of lanes: calls from the state that the lines before made. A line's numbers stand from its second word on.
use crate::line::{Numbers, low8, low16};
use crate::octet_cases::{say_record, say_unread};
use crate::say::{front, lend, say_refused};
use crate::writing_cases::say_output;
use grouping::Refused;
use intake::{Answer, close_lane, open_lane, take_packet};
use lane::{Lane, Settings};
use state::{State, is_sound};
use std::io;
use std::io::Write;
use writing::write_space;

// Each number modulo what its field holds. No From is for it: five numbers are no type of this crate, and the settings are none.
fn settings_of(station: u32, apid: u32, secondary: u32, share: u32, cap: u32) -> Settings {
    Settings {
        station: low16(station),
        apid: low16(apid),
        secondary: low8(secondary),
        share: low8(share),
        cap: low8(cap),
    }
}

pub(crate) fn say_sound<W: Write>(to: &mut W, state: &State) -> io::Result<()> {
    let told = if is_sound(*state) { "sound" } else { "unsound" };
    write!(to, " {told}")
}

// What a call is given goes in one by one: a struct of the writer, the state and the numbers would be made for that call, and taken apart in it.
pub(crate) fn open<W: Write>(
    to: &mut W,
    state: &mut State,
    n: Numbers,
    pool: &[u8],
) -> io::Result<()> {
    let [_, lane, station, apid, secondary, share, cap, ..] = n;
    let settings = settings_of(station, apid, secondary, share, cap);
    let changed = open_lane(*state, lane as usize, settings, pool);
    *state = changed.state;
    // `Changed` is a struct of the C interface, in which 0 refuses nothing.
    match changed.refusal {
        0 => write!(to, " {}", "ok"),
        number => say_refused(to, number),
    }
}

pub(crate) fn close<W: Write>(
    to: &mut W,
    state: &mut State,
    n: Numbers,
    pool: &[u8],
) -> io::Result<()> {
    let [_, lane, octets, ..] = n;
    let mut out = [0; 20];
    let lent = lend(&mut out, octets as usize);
    let changed = close_lane(*state, lane as usize, pool, lent);
    *state = changed.state;
    match changed.refusal {
        0 => say_record(to, &out),
        number => say_refused(to, number),
    }
}

fn say_step<W: Write>(to: &mut W, word: &str, missing: u16, given_up: bool) -> io::Result<()> {
    write!(to, " {word} {missing} {}", u8::from(given_up))
}

// The answer, and of a unit its length and what lies in the output.
fn say_answer<W: Write>(to: &mut W, answer: Result<Answer, Refused>, out: &[u8]) -> io::Result<()> {
    match answer {
        Err(Refused::Untaken(refusal)) => say_refused(to, u8::from(refusal)),
        Err(Refused::Unread(unread)) => say_unread(to, unread),
        Ok(Answer::Repeat) => write!(to, " {}", "repeat"),
        Ok(Answer::Stray { missing, given_up }) => say_step(to, "stray", missing, given_up),
        Ok(Answer::Held { missing, given_up }) => say_step(to, "held", missing, given_up),
        Ok(
            Answer::Unit {
                octets,
                missing,
                given_up,
            },
        ) => {
            say_step(to, "unit", missing, given_up)?;
            write!(to, " {octets}")?;
            say_output(to, out, octets)
        }
    }
}

// Gives the lane a packet of type 0 without secondary header.
pub(crate) fn send<W: Write>(
    to: &mut W,
    state: &mut State,
    n: Numbers,
    content: &[u8],
    pool: &mut [u8],
) -> io::Result<()> {
    let [_, lane, octets, apid, flags, count, length, ..] = n;
    let data = front(content, length as usize);
    let mut packet = [0; 65542];
    let size = write_space(0, 0, apid, flags, count, data, &mut packet).unwrap_or(0);
    let mut out = [0xA5; 81928];
    let lent = lend(&mut out, octets as usize);
    let answered = take_packet(*state, lane as usize, front(&packet, size), pool, lent);
    *state = answered.state;
    say_answer(to, answered.answer, &out)
}

// Sends an unsegmented packet of APID 42 with one octet of data to lane 0. The state goes in and comes back by value, as it does in the library: put behind a
// reference after each packet, it would be copied once more.
fn send_short(state: State, count: u32, pool: &mut [u8]) -> State {
    let [high, low] = low16(49152 + count % 16384).to_be_bytes();
    let packet = [0, 42, high, low, 0, 0, 0];
    take_packet(state, 0, &packet, pool, &mut [0]).state
}

// Sends as many such packets as a lane may take.
pub(crate) fn fill(state: &mut State, pool: &mut [u8]) {
    let mut filled = *state;
    for sent in 0..262144 {
        filled = send_short(filled, sent, pool);
    }
    *state = filled;
}

// Makes a lane: its fields in the order of the struct.
pub(crate) fn make_lane(state: &mut State, n: Numbers) {
    let [_, lane, opened, station, apid, secondary, share, cap, ..] = n;
    let [
        ..,
        units,
        packets,
        missing,
        broken,
        last,
        grouped,
        octets,
        _,
    ] = n;
    if let Some(place) = state.lanes.get_mut(lane as usize) {
        *place = Lane {
            opened: opened == 1,
            settings: settings_of(station, apid, secondary, share, cap),
            units,
            packets,
            missing,
            broken,
            last: low16(last),
            grouped: grouped == 1,
            octets: low16(octets),
        };
    }
}

// Makes a mark.
pub(crate) fn make_mark(state: &mut State, n: Numbers) {
    let [_, block, mark, ..] = n;
    if let Some(place) = state.marks.get_mut(block as usize) {
        *place = low16(mark);
    }
}
