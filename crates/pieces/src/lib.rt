// What octets of a frame recording are: a piece with the octets that come after it, one packet or the beginning of one; a field from its pointer on, whole packets and what
// is left.
#![tactic(auto)]

mod refusing;

ghost use Rattle.std.specs.Prelude.{Result, ◌≡◌, cond, ◌&&◌, ◌||◌, ◌++◌, eqb, ltb, leb, length, take};
ghost use Rattle.pieces.specs.Pieces.{number_told, longest, kind_of, joined_is, rest_of};
ghost use Rattle.walk.specs.Walk.{number_stopped};

use packet::Unread;
use putting::put_octets;
use reading::{Sizes, sizes_in};
use refusal::Refusal;
use refusing::{check, with_sizes};
use walk::walk;

// The most octets that a header has.
const HEADER: usize = 8;

// The most octets that a packet of a frame recording has.
const LONGEST: usize = 8192;

// What a piece is with the lead after it: exactly one packet, the beginning of one, or neither.
#[derive(Clone, Copy)]
pub enum Joined {
    Packet,
    Unfinished,
    Neither,
}

// Whether so many octets that are cut short can be the beginning of a packet: their header is cut short too, or announces no longer one than a frame recording has.
fn may_begin(octets: usize, sizes: Sizes) -> bool
    ensures { result ≡ (ltb octets sizes.header || leb sizes.size longest) }
{
    (octets < sizes.header) | (sizes.size <= LONGEST)
}

// What so many octets are that are read so, and whose header announces these sizes.
fn kind_of(read: Result<(), Refusal>, octets: usize, sizes: Sizes) -> Joined
    ensures { result ≡ kind_of (number_told read) octets sizes.header sizes.size }
{
    match read {
        Ok(()) if (sizes.size == octets) & (octets <= LONGEST) => Joined::Packet,
        Err(Refusal::CutShort) if may_begin(octets, sizes) => Joined::Unfinished,
        _ => Joined::Neither,
    }
}

// How n octets are read, from how the first eight are, or all if there are fewer: eight hold every header, so what is cut short there may be whole.
fn read_of_all(front: Result<(), Refusal>, size: usize, n: usize) -> Result<(), Refusal>
    ensures { number_told result ≡ cond (eqb (number_told front) 1 && leb 8 n && leb size n) 0 (number_told front) }
{
    match front {
        Err(Refusal::CutShort) if (HEADER <= n) & (size <= n) => Ok(()),
        _ => front,
    }
}

// Puts the first eight octets of a piece with the lead after it side by side, or all of them if there are fewer, and tells how many. A piece that has eight is the
// common one: so many octets are one move.
fn fill_front(piece: &[u8], lead: &[u8], front: &mut [u8; HEADER]) -> usize
    ensures front_after { take result front.new ≡ take 8 (piece.now ++ lead.now) }
    ensures value { result ≡ length (take 8 (piece.now ++ lead.now)) }
{
    if HEADER <= piece.len() {
        put_octets(front, 0, &piece[..HEADER]);
        return HEADER;
    }
    let b = lead.len().min(HEADER - piece.len());
    put_octets(front, 0, piece);
    put_octets(front, piece.len(), &lead[..b]);
    piece.len() + b
}

// Judges a piece with the lead after it. They lie apart, so their first octets are put side by side.
pub fn judge_joined(piece: &[u8], lead: &[u8]) -> Joined
    ensures { result ≡ joined_is (piece.now ++ lead.now) }
{
    let mut front = [0u8; HEADER];
    let end = fill_front(piece, lead, &mut front);
    let first = with_sizes(&front[..end]);
    let octets = piece.len() + lead.len();
    let read = read_of_all(check(first), first.sizes.size, octets);
    kind_of(read, octets, first.sizes)
}

// A field from its pointer on: where that is (from), where the whole packets end (to), how many there are, and whether what is left after them is dropped. No number here
// depends on the flag: it is no Option of them.
#[derive(Clone, Copy)]
pub struct Rest {
    pub from: usize,
    pub to: usize,
    pub packets: usize,
    pub dropped: bool,
}

// Whether what is left where a walk stopped so is cut short: at the end nothing is left, which is so too.
fn is_cut_short(stopped: Option<Unread>) -> bool
    ensures { result ≡ leb (number_stopped stopped) 1 }
{
    match stopped {
        None => true,
        Some(unread) => matches!(unread.refusal, Refusal::CutShort),
    }
}

// Reads whole packets from the pointer on. A pointer past the end of the field leaves nothing to read.
pub fn read_on(field: &[u8], pointer: usize) -> Rest
    ensures { result ≡ rest_of field.now pointer }
{
    let from = field.len().min(pointer);
    let walked = walk(&field[from..]);
    let to = from + walked.at;
    let sizes = sizes_in(&field[to..]);
    let is_unfinished = is_cut_short(walked.stopped) & may_begin(field.len() - to, sizes);
    Rest {
        from,
        to,
        packets: walked.packets,
        dropped: !is_unfinished,
    }
}
