// Random numbers from a seed, by xorshift, and inputs that are made of them.

// Which inputs a row has.
pub(crate) trait Inputs {
    type Input;

    fn fill(self, inputs: &mut [Self::Input], random: &mut u64);
}

pub(crate) fn next(random: &mut u64) -> u64 {
    let mut x = *random;
    x ^= x << 13;
    x ^= x >> 7;
    x ^= x << 17;
    *random = x;
    x
}

// From low up to high.
pub(crate) fn between(low: f32, high: f32, random: &mut u64) -> f32 {
    let places = next(random) / 0x100_0000_0000;
    let unit = (places as f32) / 16_777_216.0;
    low + (high - low) * unit
}
