// Replaying a run file: each of its calls goes to the intake, and a line of text says what came of it. The text of a run can be long, so it is
// made in chunks.
#![tactic(auto)]

mod calls;
mod lines;

ghost use Rattle.std.specs.Prelude.{◌≡◌, true, ◌+◌, ◌≤◌, length};
ghost use Rattle.octets.specs.Output.{put as puts};
ghost use Rattle.telling.specs.Lines.{Lined};
ghost use Rattle.replaying.specs.Run.{standing, finished, ready, next, next_text, chunk_text, chunk_after, chunk_of};

use calls::run_call;
use grouping::Refused;
use intake::Answer;
use lines::put_told;
use state::State;
use telling::{Progress, put_last};
use text::put;

// What is told of a call: the refusal or 0, or the answer to a packet. The refusal of an opening or a closing is a number and no Result, as the intake gives
// it to C (`Changed`).
#[derive(Clone, Copy)]
pub enum Outcome {
    Opened {
        lane: u8,
        refusal: u8,
    },
    Taken {
        lane: u8,
        answer: Result<Answer, Refused>,
    },
    Closed {
        lane: u8,
        refusal: u8,
    },
}

// What is told of a call, its octets in the run file, and the state after it.
#[derive(Clone, Copy)]
pub struct Ran {
    pub outcome: Outcome,
    pub octets: usize,
    pub state: State,
}

// A chunk of a run's text: where the run stands after it, and its octets.
#[derive(Clone, Copy)]
pub struct Chunk {
    pub progress: Progress<State>,
    pub octets: usize,
}

// The longest run file.
const LONGEST: usize = 1048576;

// Whether a step can be taken in a run of n octets, with so much room for the text.
fn is_ready(n: usize, room: usize, chunk: Chunk) -> bool
    ensures { result ≡ ready n room chunk.progress chunk.octets }
{
    let p = chunk.progress;
    telling::is_ready(p.done, p.calls, p.at, n, chunk.octets, room)
}

// A chunk that ends with the run. What it shares with the end of a frame file is `..p`, as `deframing` says.
fn stopped(p: Progress<State>, octets: usize) -> Chunk
    ensures { (result.progress ≡ finished p) × (result.octets ≡ octets) }
{
    Chunk {
        progress: Progress { done: true, ..p },
        octets,
    }
}

// Takes one step, and puts its text after the octets of the chunk.
fn step(run: &[u8], chunk: Chunk, pool: &mut [u8], out: &mut [u8], text: &mut [u8]) -> Chunk
    requires { ready (length run.now) (length text.old) chunk.progress chunk.octets ≡ true }
    ensures progress_value { result.progress ≡ (next run.now (standing chunk.progress pool.old out.old)).progress }
    ensures pool_after { pool.new ≡ (next run.now (standing chunk.progress pool.old out.old)).pool }
    ensures out_after { out.new ≡ (next run.now (standing chunk.progress pool.old out.old)).out }
    ensures lined { Lined text.old chunk.octets (next_text run.now (standing chunk.progress pool.old out.old)) text.new result.octets }
{
    let p = chunk.progress;
    let to = chunk.octets;
    if LONGEST < run.len() {
        let end = put(text, to, b"too long\n");
        return stopped(p, end);
    }
    let Some(ran) = run_call(p.state, &run[p.at..], pool, out) else {
        let end = put_last(text, to, run.len(), p.at, p.calls, pool);
        return stopped(p, end);
    };
    let octets = put_told(text, to, p.at, ran.outcome, out);
    Chunk {
        progress: Progress {
            at: p.at + ran.octets,
            calls: p.calls + 1,
            done: false,
            state: ran.state,
        },
        octets,
    }
}

// The next chunk of the text of a run, put at the front of text: as many steps as there is room for. The run goes on where `progress` stands,
// with the pool and the output as the last chunk left them. What is lent stays with who calls, so it is handed in one by one.
pub fn replay_some(
    run: &[u8],
    progress: Progress<State>,
    pool: &mut [u8],
    out: &mut [u8],
    text: &mut [u8],
) -> Chunk
    ensures value { result ≡ chunk_of run.now (length text.old) (standing progress pool.old out.old) }
    ensures pool_after { pool.new ≡ (chunk_after run.now (length text.old) (standing progress pool.old out.old)).pool }
    ensures out_after { out.new ≡ (chunk_after run.now (length text.old) (standing progress pool.old out.old)).out }
    ensures text_after { text.new ≡ puts text.old 0 (chunk_text run.now (length text.old) (standing progress pool.old out.old)) }
    ensures octets_in_bounds { result.octets ≤ length text.old }
{
    let mut chunk = Chunk {
        progress,
        octets: 0,
    };
    while is_ready(run.len(), text.len(), chunk) {
        chunk = step(run, chunk, pool, out, text);
    }
    chunk
}
