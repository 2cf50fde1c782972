// The intake's calls: open a lane, take a packet, close a lane. The state is handed in and back, the pool is lent; a refusal leaves everything as it was.
#![tactic(auto)]

mod closing;
mod lanes;
mod taking;

ghost use Rattle.std.specs.Prelude.{◌≡◌, length};
ghost use Rattle.state.specs.State.{lane_at};
ghost use Rattle.intake.specs.Calls.{packet_step};
ghost use Rattle.intake.specs.Told.{told, telling};
ghost use Rattle.intake.specs.After.{taken_as, changed_by, opened_by, opening, closing, closing_out, taking, taking_pool, taking_out};

use closing::{Own, credit_of, release};
use grouping::{Refused, Step, plan_packet};
use lane::{CLOSED, Lane, Settings, is_illegal};
use lanes::{count_of, lane_at, opened_with, with_one};
use record::write_record;
use refusal::Refusal;
use state::{State, is_unsound, is_within};
use taking::{carry_out, settled, user_part};

// What a packet is answered that is not refused: packets missing before it, and whether a group was given up. A unit's octets lie at the front of the
// output.
#[derive(Clone, Copy)]
pub enum Answer {
    Repeat,
    Stray {
        missing: u16,
        given_up: bool,
    },
    Held {
        missing: u16,
        given_up: bool,
    },
    Unit {
        octets: usize,
        missing: u16,
        given_up: bool,
    },
}

impl From<Step> for Answer {
    ghost from_gives = { λ step answer. answer ≡ taken_as step };

    fn from(step: Step) -> Answer {
        match step {
            Step::Repeat => Answer::Repeat,
            Step::Stray(a) => Answer::Stray {
                missing: a.missing,
                given_up: a.given_up,
            },
            Step::Hold { added, .. } => Answer::Held {
                missing: added.missing,
                given_up: added.given_up,
            },
            Step::Unit { added, octets, .. } => Answer::Unit {
                octets,
                missing: added.missing,
                given_up: added.given_up,
            },
        }
    }
}

// What a packet gives: the answer, or why it is refused, beside the state.
#[derive(Clone, Copy)]
pub struct Answered {
    pub answer: Result<Answer, Refused>,
    pub state: State,
}

// What an opening or a closing gives: the refusal, or 0. C is given it, so it is no Result (include/branmuslin.h).
#[repr(C)]
#[derive(Clone, Copy)]
pub struct Changed {
    pub refusal: u8,
    pub state: State,
}

// As C is told: the state after, or the one before with the refusal.
fn as_changed(before: State, after: Result<State, Refusal>) -> Changed
    ensures { result ≡ changed_by before after }
{
    match after {
        Ok(state) => Changed { refusal: 0, state },
        Err(refusal) => Changed {
            refusal: u8::from(refusal),
            state: before,
        },
    }
}

// The lane once it is open. It alone is handed on, since the state is large.
fn lane_opened(s: State, lane: usize, settings: Settings, octets: usize) -> Result<Lane, Refusal>
    ensures { opened_by s lane result ≡ opening s lane settings octets }
{
    if is_unsound(s, octets) {
        return Err(Refusal::NotSound);
    }
    if 7 < lane {
        return Err(Refusal::NotOpen);
    }
    let lanes = s.lanes;
    if lane_at(lanes, lane).opened {
        return Err(Refusal::AlreadyOpen);
    }
    if is_illegal(settings) {
        return Err(Refusal::BadSettings);
    }
    let opened = opened_with(settings);
    if !is_within(lanes, lane, opened) {
        return Err(Refusal::NotPromised);
    }
    Ok(opened)
}

// Opens a lane.
pub fn open_lane(s: State, lane: usize, settings: Settings, pool: &[u8]) -> Changed
    ensures { result ≡ opening s lane settings (length pool.now) }
{
    match lane_opened(s, lane, settings, pool.len()) {
        Ok(opened) => {
            let lanes = s.lanes;
            let marks = s.marks;
            Changed {
                refusal: 0,
                state: State {
                    lanes: with_one(lanes, lane, opened),
                    marks,
                },
            }
        }
        Err(refusal) => Changed {
            refusal: u8::from(refusal),
            state: s,
        },
    }
}

// The step that a packet comes to, where l is the lane of that number; or why it is refused: by 24, by its plan, or where that is not settled.
fn step_of(
    s: State,
    l: Lane,
    lane: usize,
    octets: &[u8],
    size: usize,
    room: usize,
) -> Result<Step, Refused>
    requires { l ≡ lane_at s lane }
    ensures { result ≡ packet_step s lane octets.now size room }
{
    if is_unsound(s, size) {
        return Err(Refused::Untaken(Refusal::NotSound));
    }
    let plan = plan_packet(l, octets, room)?;
    let lanes = s.lanes;
    settled(lanes, lane, l, plan)
}

// Gives a packet to a lane. The state is copied once, and the lane and the marks are changed in their places: so the lane is read and stored by its index, and
// not by `lane_at` and `with_one`, which are handed all eight.
pub fn take_packet(
    s: State,
    lane: usize,
    octets: &[u8],
    pool: &mut [u8],
    out: &mut [u8],
) -> Answered
    ensures answer_value { told result.answer ≡ telling (packet_step s lane octets.now (length pool.old) (length out.old)) }
    ensures value { result ≡ taking s lane octets.now (length pool.old) (length out.old) }
    ensures pool_after { pool.new ≡ taking_pool s lane octets.now (length out.old) pool.old }
    ensures out_after { out.new ≡ taking_out s lane octets.now pool.old out.old }
{
    let mut after = s;
    let lanes = s.lanes;
    let count = count_of(lanes);
    let l = if lane < count {
        after.lanes[lane]
    } else {
        CLOSED
    };
    let step = match step_of(s, l, lane, octets, pool.len(), out.len()) {
        Ok(step) => step,
        Err(refused) => {
            return Answered {
                answer: Err(refused),
                state: after,
            };
        }
    };
    let user = user_part(octets, l.settings.secondary);
    let own = Own {
        number: lane,
        lane: l,
    };
    let next = carry_out(own, &mut after.marks, step, user, pool, out);
    if lane < count {
        after.lanes[lane] = next;
    }
    Answered {
        answer: Ok(Answer::from(step)),
        state: after,
    }
}

// The state with the lane closed, once its credit record is written at the front of out. State, lane and output are the parameters of `close_lane`, which C hands in.
fn after_closing(s: State, lane: usize, octets: usize, out: &mut [u8]) -> Result<State, Refusal>
    ensures value { changed_by s result ≡ closing s lane octets (length out.old) }
    ensures out_after { out.new ≡ closing_out s lane octets out.old }
{
    if is_unsound(s, octets) {
        return Err(Refusal::NotSound);
    }
    let lanes = s.lanes;
    let l = lane_at(lanes, lane);
    if !l.opened {
        return Err(Refusal::NotOpen);
    }
    write_record(credit_of(l), out)?;
    let mut marks = s.marks;
    let own = Own {
        number: lane,
        lane: l,
    };
    release(own, &mut marks);
    Ok(State {
        lanes: with_one(lanes, lane, CLOSED),
        marks,
    })
}

// Closes a lane and writes its credit record at the front of out.
pub fn close_lane(s: State, lane: usize, pool: &[u8], out: &mut [u8]) -> Changed
    ensures value { result ≡ closing s lane (length pool.now) (length out.old) }
    ensures out_after { out.new ≡ closing_out s lane (length pool.now) out.old }
{
    as_changed(s, after_closing(s, lane, pool.len(), out))
}
