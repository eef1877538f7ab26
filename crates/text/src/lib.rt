// Byte strings: comparing them, and putting bytes and numbers into a buffer, where what does not
// fit is dropped.
#![tactic(auto)]

ghost use Rattle.std.specs.Prelude.{◌≡◌, ◌≤◌, ◌<◌, min, length, take, drop};
ghost use Rattle.text.specs.Text.{same, put_at, place_after, digits, trimmed, decimal, hexadecimal};
ghost use Rattle.text.specs.Text.{glyph as Text·glyph};

// Whether the two are of one length and the same byte for byte.
#[tactic(auto, using(crate::proofs::Same::same_is))]
pub fn same_bytes(a: &[u8], b: &[u8]) -> bool
    ensures { result ≡ same a.now b.now }
{
    a == b
}

// Puts `text` into `out` from `at` on, and answers the place after it; what does not fit is dropped.
#[tactic(auto, unfolding(crate::specs::Text::place_after, crate::specs::Text::put_at))]
pub fn put(out: &mut [u8], at: usize, text: &[u8]) -> usize
    ensures { (out.new ≡ put_at out.old at text.now) × (result ≡ place_after out.old at text.now) }
{
    let count = text.len().min(out.len().saturating_sub(at));
    if count > 0 {
        out[at..at + count].copy_from_slice(&text[..count]);
    }
    at + count
}

// Puts `n` in decimal.
#[tactic(auto, unfolding(crate::specs::Text::decimal))]
pub fn put_decimal(out: &mut [u8], at: usize, n: u64) -> usize
    ensures { (out.new ≡ put_at out.old at (decimal n)) × (result ≡ place_after out.old at (decimal n)) }
{
    let mut text = [0u8; 20];
    spell(n, 10, 20, &mut text);
    let from = zeros(&text);
    put(out, at, &text[from..])
}

// Puts the last `width` hexadecimal digits of `n`, sixteen at most, in capitals.
#[tactic(auto, unfolding(crate::specs::Text::hexadecimal))]
pub fn put_hex(out: &mut [u8], at: usize, n: u64, width: usize) -> usize
    ensures { (out.new ≡ put_at out.old at (hexadecimal width n)) × (result ≡ place_after out.old at (hexadecimal width n)) }
{
    let mut text = [0u8; 16];
    let k = width.min(16);
    spell(n, 16, k, &mut text);
    put(out, at, &text[..k])
}

// Puts the last k digits of n in base at the start of out.
#[tactic(auto, unfolding(crate::specs::Text::digits))]
fn spell(n: u64, base: u64, k: usize, out: &mut [u8])
    requires base_nonzero { 0 < base }
    requires base_bound { base ≤ 16 }
    requires k_in_bounds { k ≤ length out.old }
    ensures { take k out.new ≡ digits base k n }
{
    let mut rest = n;
    // By place: what is written through `iter_mut().rev()` no proof knows.
    for i in (0..k).rev() {
        out[i] = glyph(rest % base);
        rest /= base;
    }
}

#[tactic(auto, unfolding(crate::specs::Text::glyph))]
fn glyph(d: u64) -> u8
    requires { d < 16 }
    ensures { result ≡ Text·glyph d }
{
    if d < 10 {
        b'0' + d as u8
    } else {
        b'A' + (d - 10) as u8
    }
}

// How many zeros stand in front, but for a last digit.
fn zeros(text: &[u8]) -> usize
    ensures { (result ≤ length text.now) × (drop result text.now ≡ trimmed text.now) }
{
    let last = text.len().saturating_sub(1);
    text.iter().position(|digit| *digit != b'0').unwrap_or(last)
}
