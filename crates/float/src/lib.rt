// f32 helpers beside the language's: bit patterns with their NaNs, clamping to any two limits, and casts to
// whole numbers, worked out from the bits. Each is total.
#![tactic(auto)]

ghost use Rattle.std.specs.Prelude.{◌≡◌, ◌-◌, ◌≤◌, min};
ghost use Rattle.std.specs.Float.Ieee as Ieee;
ghost use Rattle.std.specs.Float.{binary32};
ghost use Rattle.float.specs.Float.{clip};

// The 32 bits of a float that travels unchanged: a NaN keeps its payload.
#[derive(Clone, Copy)]
pub struct F32Bits(pub u32);

// Rust's `f32::from_bits`. There is one NaN here, which every pattern of a NaN gives.
pub fn of_bits(bits: F32Bits) -> f32
    ensures { result ≡ Ieee.of_bits binary32 bits.0 }
{
    let b = bits.0;
    if is_nan_pattern(b) {
        return f32::NAN;
    }
    f32::from_bits(b)
}

// Rust's `f32::to_bits`, and 7FC00000 for the NaN.
#[tactic(auto, using(crate::proofs::Nans::nan_to_bits))]
pub fn to_bits(x: f32) -> F32Bits
    ensures { result.0 ≡ Ieee.to_bits binary32 x }
{
    if x.is_nan() {
        return F32Bits(0x7fc0_0000);
    }
    F32Bits(f32::to_bits(x))
}

// Whether the 32 bits are a NaN's: every exponent bit set, and a digit bit.
pub fn is_nan_pattern(bits: u32) -> bool
    ensures { result ≡ Ieee.nan_bits binary32 bits }
{
    bits % 0x8000_0000 > 0x7f80_0000
}

// Rust's `x.clamp(min, max)` where min is not above max, which std's asks for. A NaN passes through.
#[tactic(auto, unfolding(crate::specs::Float::clip))]
pub fn clamp(x: f32, min: f32, max: f32) -> f32
    ensures { result ≡ clip x min max }
{
    let y = if x < min { min } else { x };
    if y > max { max } else { y }
}

// How many of the 24 binary digits of a float stand behind the point, by the exponent's field: all, where it
// is below 1.
fn fraction_digits(exponent: u32) -> u32
    requires { exponent ≤ 150 }
    ensures { result ≡ min (150 - exponent) 24 }
{
    (150 - exponent).min(24)
}

// Rust's `x as u32`: the fraction is dropped, what is out of range goes to the nearest end, and a
// NaN gives 0.
// By the bits: std's cast goes by way of an `f64`, and encoding takes longer with it.
pub fn as_u32(x: f32) -> u32
    ensures { result ≡ Ieee.to_unsigned 32 x }
{
    if x.is_nan() {
        return 0;
    }
    let bits: u32 = f32::to_bits(x);
    // the value is digits * 2 ^ (exponent - 150)
    let exponent: u32 = bits / 0x80_0000;
    let digits: u32 = bits % 0x80_0000 + 0x80_0000;
    // below 2^24
    if bits < 0x4b80_0000 {
        return digits >> fraction_digits(exponent);
    }
    if bits < 0x4f80_0000 {
        return digits << (exponent - 150);
    }
    // 2^32 and more, or negative
    if bits < 0x8000_0000 { 0xffff_ffff } else { 0 }
}

// Rust's `x as u16`.
#[tactic(auto, using(crate::proofs::Truncating::narrow))]
pub fn as_u16(x: f32) -> u16
    ensures { result ≡ Ieee.to_unsigned 16 x }
{
    as_u32(x).min(0xffff) as u16
}
