// What the C library has of the lanes, thin over the proved ones: the crate lanes_c gives C these functions, which include/branmuslin.h declares. The state goes in and comes back by value, and what a packet is
// answered is told in numbers. They are a crate of their own, so that a program that only reads and writes links nothing of them.
#![tactic(auto)]

ghost use Rattle.std.specs.Prelude.{◌≡◌, length};
ghost use Rattle.state.specs.State.{fresh_state, sound};
ghost use Rattle.intake.specs.After.{opening, closing, closing_out, taking, taking_pool, taking_out};
ghost use Rattle.lanes.specs.Numbers.{refused_numbers, taken_numbers, answer_numbers, numbered};

use grouping::Refused;
use intake::{Answer, Answered, Changed};
use lane::Settings;
use packet::Unread;
use state::State;

// What a packet is answered, in numbers, which C is given in place of an enum (include/branmuslin.h). kind: 0 refused, 1 repeat, 2 stray, 3 held, 4 unit;
// given_up: a group was given up; place: of a refusal 1 to 7, else 0.
#[repr(C)]
#[derive(Clone, Copy)]
pub struct Numbered {
    pub refusal: u8,
    pub kind: u8,
    pub given_up: bool,
    pub missing: u16,
    pub octets: usize,
    pub place: usize,
    pub state: State,
}

// Eight closed lanes.
#[unsafe(no_mangle)]
pub extern "C" fn branmuslin_fresh_start() -> State
    ensures { result ≡ fresh_state }
{
    state::fresh_start()
}

// Whether the state is sound.
#[unsafe(no_mangle)]
pub extern "C" fn branmuslin_is_sound(state: State) -> bool
    ensures { result ≡ sound state }
{
    state::is_sound(state)
}

// Opens a lane.
#[unsafe(no_mangle)]
pub extern "C" fn branmuslin_open_lane(
    state: State,
    lane: usize,
    settings: Settings,
    pool: &[u8],
) -> Changed
    ensures { result ≡ opening state lane settings (length pool.now) }
{
    intake::open_lane(state, lane, settings, pool)
}

// The numbers of an answer, without the state, which is large and is put beside once.
#[derive(Drop)]
struct Numbers {
    refusal: u8,
    kind: u8,
    given_up: bool,
    missing: u16,
    octets: usize,
    place: usize,
}

// A refusal has its place, or 0.
impl From<Refused> for Numbers {
    ghost from_gives = { λ refused numbers. numbers ≡ refused_numbers refused };

    fn from(refused: Refused) -> Numbers {
        let (refusal, place) = match refused {
            Refused::Unread(Unread { refusal, place }) => (refusal, place as usize),
            Refused::Untaken(refusal) => (refusal, 0),
        };
        Numbers {
            refusal: u8::from(refusal),
            kind: 0,
            given_up: false,
            missing: 0,
            octets: 0,
            place,
        }
    }
}

// Those of an answer that is no refusal. The kind is C's number (include/branmuslin.h), which stands once, below.
fn taken(kind: u8, given_up: bool, missing: u16, octets: usize) -> Numbers
    ensures { result ≡ taken_numbers kind given_up missing octets }
{
    Numbers {
        refusal: 0,
        kind,
        given_up,
        missing,
        octets,
        place: 0,
    }
}

impl From<Answer> for Numbers {
    ghost from_gives = { λ answer numbers. numbers ≡ answer_numbers answer };

    fn from(answer: Answer) -> Numbers {
        match answer {
            Answer::Repeat => taken(1, false, 0, 0),
            Answer::Stray { missing, given_up } => taken(2, given_up, missing, 0),
            Answer::Held { missing, given_up } => taken(3, given_up, missing, 0),
            Answer::Unit {
                octets,
                missing,
                given_up,
            } => taken(4, given_up, missing, octets),
        }
    }
}

// The state is put beside the numbers once, since it is large.
impl From<Answered> for Numbered {
    ghost from_gives = { λ a n. n ≡ numbered a };

    fn from(a: Answered) -> Numbered {
        let n = match a.answer {
            Ok(answer) => Numbers::from(answer),
            Err(refused) => Numbers::from(refused),
        };
        let state = a.state;
        Numbered {
            refusal: n.refusal,
            kind: n.kind,
            given_up: n.given_up,
            missing: n.missing,
            octets: n.octets,
            place: n.place,
            state,
        }
    }
}

// Gives a packet to a lane.
#[unsafe(no_mangle)]
pub extern "C" fn branmuslin_take_packet(
    state: State,
    lane: usize,
    packet: &[u8],
    pool: &mut [u8],
    out: &mut [u8],
) -> Numbered
    ensures value { result ≡ numbered (taking state lane packet.now (length pool.old) (length out.old)) }
    ensures pool_after { pool.new ≡ taking_pool state lane packet.now (length out.old) pool.old }
    ensures out_after { out.new ≡ taking_out state lane packet.now pool.old out.old }
{
    Numbered::from(intake::take_packet(state, lane, packet, pool, out))
}

// Closes a lane and writes its credit record at the front of out.
#[unsafe(no_mangle)]
pub extern "C" fn branmuslin_close_lane(
    state: State,
    lane: usize,
    pool: &[u8],
    out: &mut [u8],
) -> Changed
    ensures value { result ≡ closing state lane (length pool.now) (length out.old) }
    ensures out_after { out.new ≡ closing_out state lane (length pool.now) out.old }
{
    intake::close_lane(state, lane, pool, out)
}
