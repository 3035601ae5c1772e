// A number that tells two readings of a file apart: a cyclic code of 64 bits. Two readings of one length always have
// different numbers where they differ within eight bytes on end; where they differ otherwise, it is one chance in 2^64
// that they have the same.

// The polynomial of ECMA-182, but for its highest power; the lowest bit is that of power 63.
const POLYNOMIAL: u64 = 0xc96c_5795_d787_0f42;

// Of no bytes.
pub(crate) const EMPTY: u64 = u64::MAX;

// Of so many bytes more.
pub(crate) fn extended(begun: u64, bytes: &[u8]) -> u64 {
    bytes.iter().fold(begun, |sum, byte| divided(sum, *byte))
}

// Eight steps of the division, for the bits of a byte.
fn divided(sum: u64, byte: u8) -> u64 {
    (0..8).fold(sum ^ byte as u64, |sum, _| step(sum))
}

fn step(sum: u64) -> u64 {
    if sum % 2 == 0 {
        sum >> 1
    } else {
        (sum >> 1) ^ POLYNOMIAL
    }
}
