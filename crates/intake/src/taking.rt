// A packet's step: whether there is room for it, and what it does to its lane, the marks, the pool and the output. The state is not handed through: a step
// is handed one lane of it and lent the marks.
ghost use Rattle.std.specs.Prelude.{◌≡◌, true, false, cond, ◌+◌, ◌≤◌, ◌<◌, length, get_or, drop, Ok};
ghost use Rattle.octets.specs.Output.{put as puts};
ghost use Rattle.pool.specs.Octets.{pool_octets};
ghost use Rattle.grouping.specs.declared.Step.TheVariants.{Stray, Hold, Unit};
ghost use Rattle.lane.specs.Lane.{closed, fine};
ghost use Rattle.grouping.specs.Steps.{counted, lane_after};
ghost use Rattle.intake.specs.Calls.{settle};
ghost use Rattle.intake.specs.After.{grown, group_of, marks_after, pool_after, out_after};
ghost use Rattle.intake.specs.Ready.{Counts, Holds, Ends, Ready};

use crate::closing::{Own, release};
use crate::lanes::with_group;
use grouping::{Added, Plan, Refused, Step};
use lane::Lane;
use marks::{BLOCKS, blocks_for, grant_blocks};
use packet::SPACE_HEADER;
use pool::{gather_octets, store_octets};
use putting::put_octets;
use state::is_within;

// The step that a plan comes to beside the other lanes, where l is the lane of that number; or the refusal, if they leave no room.
pub(crate) fn settled(lanes: [Lane; 8], i: usize, l: Lane, plan: Plan) -> Result<Step, Refused>
    requires { l ≡ get_or lanes i closed }
    ensures { result ≡ settle lanes i (Ok plan) }
{
    match plan {
        Plan::Sure(step) => Ok(step),
        Plan::Ask {
            octets,
            refusal,
            step,
        } => if is_within(lanes, i, with_group(l, octets)) {
            Ok(step)
        } else {
            Err(Refused::Untaken(refusal))
        },
    }
}

// The user data of a packet that is not refused: what comes after its header and the secondary octets.
pub(crate) fn user_part(octets: &[u8], secondary: u8) -> &[u8]
    ensures { result.now ≡ drop (6 + secondary) octets.now }
{
    let from = SPACE_HEADER + usize::from(secondary);
    &octets[from.min(octets.len())..]
}

// The lane after a packet that is counted, with the group that it has then.
fn count_in(l: Lane, a: Added, units: u32, grouped: bool, octets: u16) -> Lane
    requires { fine (counted l a units grouped octets) ≡ true }
    ensures { result ≡ counted l a units grouped octets }
{
    Lane {
        units: l.units + units,
        packets: l.packets + 1,
        missing: l.missing + u32::from(a.missing),
        broken: l.broken + u32::from(a.given_up),
        last: a.count,
        grouped,
        octets,
        ..l
    }
}

// The marks become those of a group with n octets. `joins` is a flag and no Option of the octets before, here and below: those are the lane's own either way, and
// the definitions say it so (`grown`, `group_of`, `Hold a joins n`).
fn grow(own: Own, marks: &mut [u16; BLOCKS], joins: bool, n: usize)
    requires { (own.number < 8) × (n ≤ pool_octets) × (cond joins own.lane.octets 0 ≤ n) }
    ensures { marks.new ≡ grown marks.old own.number own.lane joins n }
{
    let need = blocks_for(n);
    if joins {
        let have = blocks_for(own.lane.octets as usize);
        *marks = grant_blocks(*marks, own.number as u8, have as u8, (need - have) as u8);
    } else {
        release(own, marks);
        *marks = grant_blocks(*marks, own.number as u8, 0, need as u8);
    }
}

// Where the user data begins in the group.
fn start_of(octets: u16, joins: bool) -> usize
    ensures { result ≡ cond joins octets 0 }
{
    if joins { octets as usize } else { 0 }
}

// The packet begins a group or is added to it: n octets with its user data.
fn hold(
    own: Own,
    marks: &mut [u16; BLOCKS],
    a: Added,
    joins: bool,
    n: usize,
    user: &[u8],
    pool: &mut [u8],
) -> Lane
    requires { Holds own.number own.lane a joins n (length user.now) (length pool.old) }
    ensures value { result ≡ lane_after own.lane (Ok (Hold a joins n)) }
    ensures marks_after { marks.new ≡ marks_after marks.old own.number own.lane (Ok (Hold a joins n)) }
    ensures pool_after { pool.new ≡ pool_after marks.old own.number own.lane (Ok (Hold a joins n)) user.now pool.old }
{
    grow(own, marks, joins, n);
    store_octets(
        *marks,
        own.number as u8,
        pool,
        start_of(own.lane.octets, joins),
        user,
    );
    count_in(own.lane, a, 0, true, n as u16)
}

// Puts the group that goes on at the front of out, and tells its octets.
fn put_group(own: Own, marks: [u16; BLOCKS], joins: bool, pool: &[u8], out: &mut [u8]) -> usize
    requires { (own.number < 8) × (cond joins own.lane.octets 0 ≤ length out.old) × (own.lane.octets ≤ pool_octets) }
    ensures value { result ≡ length (group_of marks own.number own.lane joins pool.now) }
    ensures out_after { out.new ≡ puts out.old 0 (group_of marks own.number own.lane joins pool.now) }
{
    if joins {
        return gather_octets(marks, own.number as u8, pool, own.lane.octets as usize, out);
    }
    0
}

// The packet ends a unit: the group that goes on and its user data, which fit the output.
fn end_unit(
    own: Own,
    marks: &mut [u16; BLOCKS],
    a: Added,
    joins: bool,
    n: usize,
    user: &[u8],
    pool: &[u8],
    out: &mut [u8],
) -> Lane
    requires { Ends own.number own.lane a joins n (length user.now) (length out.old) }
    ensures value { result ≡ lane_after own.lane (Ok (Unit a joins n)) }
    ensures marks_after { marks.new ≡ marks_after marks.old own.number own.lane (Ok (Unit a joins n)) }
    ensures out_after { out.new ≡ out_after marks.old own.number own.lane (Ok (Unit a joins n)) user.now pool.now out.old }
{
    let at = put_group(own, *marks, joins, pool, out);
    put_octets(out, at, user);
    release(own, marks);
    count_in(own.lane, a, 1, false, 0)
}

// The packet belongs to no group.
fn stray(own: Own, marks: &mut [u16; BLOCKS], a: Added) -> Lane
    requires { Counts own.number own.lane a 0 false 0 }
    ensures value { result ≡ lane_after own.lane (Ok (Stray a)) }
    ensures marks_after { marks.new ≡ marks_after marks.old own.number own.lane (Ok (Stray a)) }
{
    release(own, marks);
    count_in(own.lane, a, 0, false, 0)
}

// Takes the step, and tells the lane after it. The marks stay where they are, unless the step changes them.
pub(crate) fn carry_out(
    own: Own,
    marks: &mut [u16; BLOCKS],
    step: Step,
    user: &[u8],
    pool: &mut [u8],
    out: &mut [u8],
) -> Lane
    requires { Ready own.number own.lane (Ok step) (length user.now) (length pool.old) (length out.old) }
    ensures value { result ≡ lane_after own.lane (Ok step) }
    ensures marks_after { marks.new ≡ marks_after marks.old own.number own.lane (Ok step) }
    ensures pool_after { pool.new ≡ pool_after marks.old own.number own.lane (Ok step) user.now pool.old }
    ensures out_after { out.new ≡ out_after marks.old own.number own.lane (Ok step) user.now pool.old out.old }
{
    match step {
        Step::Repeat => own.lane,
        Step::Stray(a) => stray(own, marks, a),
        Step::Hold {
            added,
            joins,
            octets,
        } => hold(own, marks, added, joins, octets, user, pool),
        Step::Unit {
            added,
            joins,
            octets,
        } => end_unit(own, marks, added, joins, octets, user, pool, out),
    }
}
