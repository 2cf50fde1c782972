// Why something is refused: each of the paper's numbers, by a name.
#![tactic(auto)]

ghost use Rattle.std.specs.Prelude.{◌≡◌};
ghost use Rattle.refusal.specs.Refusal.{number};

// In the order of the paper's table, whose numbers they are.
#[derive(Clone, Copy, Debug, PartialEq, Eq)]
pub enum Refusal {
    // the octets end before the header or the packet does
    CutShort = 1,
    // the version is neither 000 nor 111
    BadVersion = 2,
    // APID 2047, which is idle, with the secondary header flag
    IdleFlagged = 3,
    // the encapsulation length is less than its header
    UnderHeader = 4,
    // the encapsulation length is over 65,542
    OverLimit = 5,
    // no content, and the protocol ID is not 0
    NoContent = 6,
    // the fields name no protocol
    NamesNothing = 7,
    // a field that is given to a writer is over its width
    OverWidth = 8,
    // the output is too short for the packet or record
    NoRoom = 9,
    // data to write: none, or too much of it
    DataLength = 10,
    // the lane's number is over 7, or the lane is not open
    NotOpen = 11,
    // octets after the packet
    OctetsAfter = 12,
    // an Encapsulation Packet that is sent to a lane
    NotSpace = 13,
    // a telecommand, which is type 1
    NotTelemetry = 14,
    // the APID is not the lane's
    OtherApid = 15,
    // the secondary header flag and the lane's secondary length disagree
    FlagDiffers = 16,
    // the data field is shorter than the secondary length
    UnderSecondary = 17,
    // the lane has taken 262,144 packets
    LaneFull = 18,
    // the group would exceed the lane's own cap
    OverCap = 19,
    // the output is shorter than the finished unit
    UnitTooLong = 20,
    // the lane is already open
    AlreadyOpen = 21,
    // settings that no lane can have
    BadSettings = 22,
    // the share can't be promised
    NotPromised = 23,
    // the state is not sound, or the lent pool has not 16,384 octets
    NotSound = 24,
    // the record is not possible
    NotPossible = 25,
    // not a multiple of 20 octets, or a single record that has not 20
    NotRecords = 26,
    // no room beside what the other lanes hold or are promised
    OthersInTheWay = 27,
    // not the field, the piece buffer, the count, the pointer or the state that a frame has
    BadFrame = 28,
}

impl From<Refusal> for u8 {
    ghost from_gives = { λ r n. n ≡ number r };

    fn from(r: Refusal) -> u8 {
        r as u8
    }
}
