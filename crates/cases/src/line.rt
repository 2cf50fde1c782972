// The words of a line: a verb, then numbers in decimal, octets in hexadecimal, or a name. Every function is total, so that a line can say
// anything; a number that is missing is 0.
use crate::say::front;

// The words of a line as numbers, in their order; those of the verb mean nothing.
pub(crate) type Numbers = [u32; 16];

// What 16 bits hold of a number, and what 8 do: `as` is proved to lose nothing.
pub(crate) fn low16(n: u32) -> u16 {
    (n % 65536) as u16
}

pub(crate) fn low8(n: u32) -> u8 {
    (n % 256) as u8
}

// The line from an index on, or nothing.
pub(crate) fn rest_of(line: &[u8], from: usize) -> &[u8] {
    line.get(from..).unwrap_or_default()
}

// The number with one more digit, modulo 2^32.
fn longer(n: u32, digit: u8) -> u32 {
    n.wrapping_mul(10).wrapping_add(u32::from(digit % 16))
}

// The octet with one more digit, modulo 2^8; a blank is none.
fn shifted(n: u8, digit: u8) -> u8 {
    match digit {
        b' ' => n,
        ..b'a' => n.wrapping_mul(16).wrapping_add(digit % 16),
        _ => n.wrapping_mul(16).wrapping_add(digit % 16 + 9),
    }
}

// After the sixteenth word the places are taken again from the first.
pub(crate) fn numbers_of(line: &[u8]) -> Numbers {
    let mut numbers = [0; 16];
    for (k, word) in line.split(|octet| *octet == b' ').enumerate() {
        let number = &mut numbers[k % 16];
        *number = word.iter().fold(*number, |n, digit| longer(n, *digit));
    }
    numbers
}

// The octets that the text gives, put at the front of the room, which is all zeros: each has two digits, and a blank before the next.
pub(crate) fn octets_of<'a>(text: &[u8], room: &'a mut [u8]) -> &'a [u8] {
    for (octet, digits) in room.iter_mut().zip(text.chunks(3)) {
        *octet = digits.iter().fold(0, |n, digit| shifted(n, *digit));
    }
    let count = if text.is_empty() {
        0
    } else {
        text.len() / 3 + 1
    };
    front(room, count)
}
