// What each call of a run does: it goes to the intake, with the front of the lent output. State, run, pool and output are handed on one by one, as the
// intake takes them: a struct of them would lend each part anew for a single call.
ghost use Rattle.std.specs.Prelude.{◌≡◌, ◌≤◌, length};
ghost use Rattle.runfile.specs.Calls.{call_in, call_size};
ghost use Rattle.runfile.specs.declared.Call.TheVariants.{Packet, Closing};
ghost use Rattle.replaying.specs.Running.{ran, call_pool, call_out, first_ran, first_pool, first_out};

use crate::{Outcome, Ran};
use intake::{close_lane, open_lane, take_packet};
use runfile::{CLOSING, Call, OPENING, PACKET, call_in};
use state::State;

fn run_packet(
    state: State,
    s: &[u8],
    lane: u8,
    space: u32,
    octets: u32,
    pool: &mut [u8],
    out: &mut [u8],
) -> Ran
    requires { call_size (Packet lane space octets) ≤ length s.now }
    ensures value { result ≡ ran state s.now pool.old out.old (Packet lane space octets) }
    ensures pool_after { pool.new ≡ call_pool state s.now pool.old out.old (Packet lane space octets) }
    ensures out_after { out.new ≡ call_out state s.now pool.old out.old (Packet lane space octets) }
{
    let room = (space as usize).min(out.len());
    let end = PACKET + octets as usize;
    let answered = take_packet(
        state,
        lane as usize,
        &s[PACKET..end],
        pool,
        &mut out[..room],
    );
    Ran {
        outcome: Outcome::Taken {
            lane,
            answer: answered.answer,
        },
        octets: end,
        state: answered.state,
    }
}

fn run_closing(state: State, s: &[u8], lane: u8, space: u32, pool: &[u8], out: &mut [u8]) -> Ran
    ensures value { result ≡ ran state s.now pool.now out.old (Closing lane space) }
    ensures out_after { out.new ≡ call_out state s.now pool.now out.old (Closing lane space) }
{
    let room = (space as usize).min(out.len());
    let changed = close_lane(state, lane as usize, pool, &mut out[..room]);
    Ran {
        outcome: Outcome::Closed {
            lane,
            refusal: changed.refusal,
        },
        octets: CLOSING,
        state: changed.state,
    }
}

// Runs the call at the front of s; None where there is no whole one.
pub(crate) fn run_call(state: State, s: &[u8], pool: &mut [u8], out: &mut [u8]) -> Option<Ran>
    ensures value { result ≡ first_ran state s.now pool.old out.old (call_in s.now) }
    ensures pool_after { pool.new ≡ first_pool state s.now pool.old out.old (call_in s.now) }
    ensures out_after { out.new ≡ first_out state s.now pool.old out.old (call_in s.now) }
{
    match call_in(s)? {
        Call::Opening { lane, settings } => {
            let changed = open_lane(state, lane as usize, settings, pool);
            Some(Ran {
                outcome: Outcome::Opened {
                    lane,
                    refusal: changed.refusal,
                },
                octets: OPENING,
                state: changed.state,
            })
        }
        Call::Packet {
            lane,
            space,
            octets,
        } => Some(run_packet(state, s, lane, space, octets, pool, out)),
        Call::Closing { lane, space } => Some(run_closing(state, s, lane, space, pool, out)),
    }
}
