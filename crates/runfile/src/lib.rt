// Run files: the calls in them, one after another, and where a run of them begins.
#![tactic(auto)]

ghost use Rattle.std.specs.Prelude.{◌≡◌};
ghost use Rattle.runfile.specs.Calls.{settings_in, call_in, call_size};
ghost use Rattle.runfile.specs.Begun.{begun_in};
ghost use Rattle.runfile.specs.Start.{start};

use lane::Settings;
use octets::{be16_at, be32_at, octet_at};
use state::{State, fresh_start};
use telling::Progress;

// A call of the run file. `space` is the output space that it asks for; `octets` are those of the packet.
#[derive(Clone, Copy, Debug, PartialEq, Eq)]
pub enum Call {
    Opening { lane: u8, settings: Settings },
    Packet { lane: u8, space: u32, octets: u32 },
    Closing { lane: u8, space: u32 },
}

// The octets of an opening.
pub const OPENING: usize = 9;

// Those of a packet's call before the packet.
pub const PACKET: usize = 10;

// Those of a closing.
pub const CLOSING: usize = 6;

// Before the first call.
pub fn begin() -> Progress<State>
    ensures { result ≡ start }
{
    Progress {
        at: 0,
        calls: 0,
        done: false,
        state: fresh_start(),
    }
}

// The settings in an opening.
fn settings_in(s: &[u8]) -> Settings
    ensures { result ≡ settings_in s.now }
{
    Settings {
        station: be16_at(s, 2),
        apid: be16_at(s, 4),
        secondary: octet_at(s, 6),
        share: octet_at(s, 7),
        cap: octet_at(s, 8),
    }
}

// The octets of a call.
fn size_of(call: Call) -> usize
    ensures { result ≡ call_size call }
{
    match call {
        Call::Opening { .. } => OPENING,
        Call::Packet { octets, .. } => PACKET + octets as usize,
        Call::Closing { .. } => CLOSING,
    }
}

// The call that s begins with by its first octet, as far as it is there.
fn begun_in(s: &[u8]) -> Option<Call>
    ensures { result ≡ begun_in s.now }
{
    let lane = octet_at(s, 1);
    match octet_at(s, 0) {
        b'O' => Some(Call::Opening {
            lane,
            settings: settings_in(s),
        }),
        b'P' => Some(Call::Packet {
            lane,
            space: be32_at(s, 2),
            octets: be32_at(s, 6),
        }),
        b'C' => Some(Call::Closing {
            lane,
            space: be32_at(s, 2),
        }),
        _ => None,
    }
}

// The call at the front of s, where there is a whole one.
pub fn call_in(s: &[u8]) -> Option<Call>
    ensures { result ≡ call_in s.now }
{
    begun_in(s).filter(|call| size_of(*call) <= s.len())
}
