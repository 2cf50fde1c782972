// The eight lanes: one of them by its number, and with another in its place.
ghost use Rattle.std.specs.Prelude.{◌≡◌, length, get_or, set};
ghost use Rattle.lane.specs.Lane.{closed, holding};
ghost use Rattle.intake.specs.Calls.{opened_with};

use lane::{CLOSED, Lane, Settings};

// How many lanes there are. The array that is passed whole tells its length, which a field does not.
pub(crate) fn count_of(lanes: [Lane; 8]) -> usize
    ensures { (result ≡ 8) × (length lanes ≡ 8) }
{
    8
}

// A lane by its number, and a closed one for a number over 7; and again that there are eight.
pub(crate) fn lane_at(lanes: [Lane; 8], i: usize) -> Lane
    ensures value { result ≡ get_or lanes i closed }
    ensures lanes_len { length lanes ≡ 8 }
{
    lanes.get(i).copied().unwrap_or(CLOSED)
}

// The lanes with another in the place of one of them. It is stored by its index: of what `get_mut` lent, a proof knows the length alone afterwards.
pub(crate) fn with_one(lanes: [Lane; 8], i: usize, l: Lane) -> [Lane; 8]
    ensures { result ≡ set lanes i l }
{
    let mut changed = lanes;
    if i < 8 {
        changed[i] = l;
    }
    changed
}

// The lane with an open group of n octets.
pub(crate) fn with_group(l: Lane, n: u16) -> Lane
    ensures { result ≡ holding l n }
{
    Lane {
        grouped: true,
        octets: n,
        ..l
    }
}

// A lane that was just opened.
pub(crate) fn opened_with(settings: Settings) -> Lane
    ensures { result ≡ opened_with settings }
{
    Lane {
        opened: true,
        settings,
        ..CLOSED
    }
}
