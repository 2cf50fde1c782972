// The listing of some octets as text, written into a lent output.
#![tactic(auto)]

mod lines;

ghost use Rattle.std.specs.Prelude.{◌≡◌, ◌≤◌, leb, length, take};
ghost use Rattle.octets.specs.Output.{put as puts};
ghost use Rattle.listing.specs.Listing.{listing, recording_text};
ghost use Rattle.listing.specs.Told.{told, listed, after, octets_of};

use lines::{put_end, put_found};
use text::put;
use walk::look_at;

// Writes the listing of s at the front of out, if it fits, and answers its octets; None where out is too short.
pub fn list(s: &[u8], out: &mut [u8]) -> Option<usize>
    ensures result_value { told result ≡ listed (listing s.now) (length out.old) }
    ensures out_after { out.new ≡ after (listing s.now) out.old }
{
    if has_room(s, out.len()) {
        Some(put_all(s, out))
    } else {
        None
    }
}

// The longest recording that is listed.
pub const LONGEST: usize = 65536;

// Writes the text for a recording at the front of out, if it fits: its listing, or `too long`.
pub fn list_recording(s: &[u8], out: &mut [u8]) -> Option<usize>
    ensures result_value { told result ≡ listed (recording_text s.now) (length out.old) }
    ensures out_after { out.new ≡ after (recording_text s.now) out.old }
{
    if s.len() <= LONGEST {
        return list(s, out);
    }
    // `too long` and the end of its line have 9 octets.
    if out.len() < 9 {
        return None;
    }
    Some(put(out, 0, b"too long\n"))
}

// The octets of text that were written, as a part of it; none where it was too short.
pub fn written(listed: Option<usize>, text: &[u8]) -> &[u8]
    ensures result_value { result.now ≡ take (octets_of listed) text.now }
    ensures ref_ptr_value { result.ref_ptr ≡ text.entry.ref_ptr }
{
    let octets = listed.unwrap_or(0);
    &text[..octets.min(text.len())]
}

// The most octets that the text for a recording has (`room`, proofs/Room.antt).
pub const MOST_LISTED: usize = 1310758;

// Whether the listing of s has at most `room` octets. Where the longest listing would fit, as in the output of the program, it need not be
// measured.
fn has_room(s: &[u8], room: usize) -> bool
    ensures { result ≡ leb (length (listing s.now)) room }
{
    if s.len() <= LONGEST {
        if MOST_LISTED <= room {
            return true;
        }
    }
    fits(s, room)
}

// Whether the listing of s has at most `room` octets. The output must stay untouched where it doesn't fit, so each line is made in an array
// first, and again by `put_all`; no line has more than 128 octets (proofs/Short.antt). The two loops are the form that the paper names (`walk`). One function for both
// would need a trait with a type for the array and a type for the output, of more lines than a loop: a closure that puts into what it borrowed leaves a proof nothing
// to say of that.
fn fits(s: &[u8], room: usize) -> bool
    ensures { result ≡ leb (length (listing s.now)) room }
{
    let mut scratch = [0u8; 128];
    let mut at = 0;
    let mut packets = 0;
    let mut left = room;
    let last = loop {
        if s.len() <= at {
            break left;
        }
        let found = look_at(s, at);
        let line = put_found(&mut scratch, 0, at, found);
        // Where a line doesn't fit there is no room for the last one either.
        if left < line {
            break 0;
        }
        left -= line;
        match found.read {
            Ok(_) => {
                at = found.next;
                packets += 1;
            }
            Err(_) => break left,
        }
    };
    put_end(&mut scratch, 0, at, packets) <= last
}

// Puts the whole listing, and answers its length.
fn put_all(s: &[u8], out: &mut [u8]) -> usize
    requires { length (listing s.now) ≤ length out.old }
    ensures value { result ≡ length (listing s.now) }
    ensures out_after { out.new ≡ puts out.old 0 (listing s.now) }
{
    let mut at = 0;
    let mut packets = 0;
    let mut to = 0;
    let last = loop {
        if s.len() <= at {
            break to;
        }
        let found = look_at(s, at);
        to = put_found(out, to, at, found);
        match found.read {
            Ok(_) => {
                at = found.next;
                packets += 1;
            }
            Err(_) => break to,
        }
    };
    put_end(out, last, at, packets)
}
