// Checksums.

// Three times the sum, and the next number: every weight is odd, so each number counts.
pub(crate) fn mixed(sum: u64, next: u64) -> u64 {
    sum.wrapping_mul(3).wrapping_add(next)
}

pub(crate) fn float_bits(x: f32) -> u64 {
    u64::from(float::to_bits(x).0)
}
