// Numbers in a slice of octets, the highest octet first. Every function is total, so no caller owes an index: past the end an octet reads as 0.
#![tactic(auto)]

ghost use Rattle.std.specs.Prelude.{◌≡◌};
ghost use Rattle.octets.specs.Octets.{octet, be16, be32};

// The octet at index k.
pub fn octet_at(s: &[u8], k: usize) -> u8
    ensures { result ≡ octet s.now k }
{
    s.get(k).copied().unwrap_or(0)
}

// The number in the two octets from index k on.
pub fn be16_at(s: &[u8], k: usize) -> u16
    ensures { result ≡ be16 s.now k }
{
    if k < s.len() {
        // `u16::from_be_bytes` of the two would be compiled to turn them round once more (docs/SPEED.md, walk).
        octet_at(s, k) as u16 * 256 + octet_at(s, k + 1) as u16
    } else {
        0
    }
}

// The number in the four octets from index k on: that of its two halves. One function for any number of octets would be no plainer, since an array of
// them has to be filled octet by octet first, past the end with 0.
pub fn be32_at(s: &[u8], k: usize) -> u32
    ensures { result ≡ be32 s.now k }
{
    if k < s.len() {
        be16_at(s, k) as u32 * 65536 + be16_at(s, k + 2) as u32
    } else {
        0
    }
}
