// A group that ends, and a lane's credit.
ghost use Rattle.std.specs.Prelude.{◌≡◌, true, ◌<◌};
ghost use Rattle.lane.specs.Lane.{credit_of, fine};
ghost use Rattle.intake.specs.After.{released_from};

use lane::Lane;
use marks::{BLOCKS, free_blocks};
use record::Record;

// What the lane's station is credited with, an open group counted as broken.
pub(crate) fn credit_of(l: Lane) -> Record
    requires { fine l ≡ true }
    ensures { result ≡ credit_of l }
{
    Record {
        station: l.settings.station,
        apid: l.settings.apid,
        units: l.units,
        packets: l.packets,
        missing: l.missing,
        broken: l.broken + u32::from(l.grouped),
    }
}

// The lane of a call, by its number and as it is before the call.
#[derive(Clone, Copy)]
pub(crate) struct Own {
    pub number: usize,
    pub lane: Lane,
}

// Frees the blocks of the lane's group, if it has one. The bound on the number is asked for here and where a group grows or is put. As an invariant of `Own` it would be
// owed for a repeat too, of which `Ready` asks nothing.
pub(crate) fn release(own: Own, marks: &mut [u16; BLOCKS])
    requires { own.number < 8 }
    ensures { marks.new ≡ released_from marks.old own.number own.lane }
{
    if own.lane.grouped {
        *marks = free_blocks(*marks, own.number as u8);
    }
}
