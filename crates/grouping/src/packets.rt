// A Space Packet that comes to a lane with nothing after it: why it is refused before the grouping rule.
ghost use Rattle.std.specs.Prelude.{◌≡◌};
ghost use Rattle.grouping.specs.Packets.{misflags};
ghost use Rattle.grouping.specs.Faults.{judged, space_fault};

use crate::Terms;
use refusal::Refusal;

// Whether the secondary header flag and the lane's secondary length disagree.
fn is_misflagged(flag: u8, length: u8) -> bool
    ensures { result ≡ misflags flag length }
{
    ((flag == 1) & (length == 0)) | ((flag == 0) & (length != 0))
}

// The refusal of a Space Packet of these fields.
pub(crate) fn find_fault(
    terms: Terms,
    packet_type: u8,
    secondary: u8,
    apid: u16,
    size: u32,
) -> Result<(), Refusal>
    ensures { result ≡ judged (space_fault terms packet_type secondary apid size) }
{
    if packet_type == 1 {
        return Err(Refusal::NotTelemetry);
    }
    if apid != terms.settings.apid {
        return Err(Refusal::OtherApid);
    }
    if is_misflagged(secondary, terms.settings.secondary) {
        return Err(Refusal::FlagDiffers);
    }
    if size < u32::from(terms.settings.secondary) {
        return Err(Refusal::UnderSecondary);
    }
    Ok(())
}
