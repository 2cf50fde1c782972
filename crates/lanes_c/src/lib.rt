// What a C program calls of the lanes, as include/branmuslin.h declares it: each function is that of the crate lanes by its own name, with the same
// clauses.
#![tactic(auto)]

ghost use Rattle.std.specs.Prelude.{◌≡◌, length};
ghost use Rattle.state.specs.State.{fresh_state, sound};
ghost use Rattle.intake.specs.After.{opening, closing, closing_out, taking, taking_pool, taking_out};
ghost use Rattle.lanes.specs.Numbers.{numbered};

use intake::Changed;
use lane::Settings;
use lanes::Numbered;
use state::State;

// Eight closed lanes.
#[unsafe(no_mangle)]
pub extern "C" fn branmuslin_fresh_start() -> State
    ensures { result ≡ fresh_state }
{
    lanes::branmuslin_fresh_start()
}

// Whether the state is sound.
#[unsafe(no_mangle)]
pub extern "C" fn branmuslin_is_sound(state: State) -> bool
    ensures { result ≡ sound state }
{
    lanes::branmuslin_is_sound(state)
}

// Opens a lane.
#[unsafe(no_mangle)]
pub extern "C" fn branmuslin_open_lane(
    state: State,
    lane: usize,
    settings: Settings,
    pool: &[u8],
) -> Changed
    ensures { result ≡ opening state lane settings (length pool.now) }
{
    lanes::branmuslin_open_lane(state, lane, settings, pool)
}

// Gives a packet to a lane.
#[unsafe(no_mangle)]
pub extern "C" fn branmuslin_take_packet(
    state: State,
    lane: usize,
    packet: &[u8],
    pool: &mut [u8],
    out: &mut [u8],
) -> Numbered
    ensures value { result ≡ numbered (taking state lane packet.now (length pool.old) (length out.old)) }
    ensures pool_after { pool.new ≡ taking_pool state lane packet.now (length out.old) pool.old }
    ensures out_after { out.new ≡ taking_out state lane packet.now pool.old out.old }
{
    lanes::branmuslin_take_packet(state, lane, packet, pool, out)
}

// Closes a lane and writes its credit record at the front of out.
#[unsafe(no_mangle)]
pub extern "C" fn branmuslin_close_lane(
    state: State,
    lane: usize,
    pool: &[u8],
    out: &mut [u8],
) -> Changed
    ensures value { result ≡ closing state lane (length pool.now) (length out.old) }
    ensures out_after { out.new ≡ closing_out state lane (length pool.now) out.old }
{
    lanes::branmuslin_close_lane(state, lane, pool, out)
}
