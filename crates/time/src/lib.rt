// Points and spans of time, in nanoseconds, for the Rust's Instant and Duration: two types, so that
// neither can stand for the other.
#![tactic(auto)]

ghost use Rattle.std.specs.Prelude.{◌≡◌};
ghost use Rattle.time.specs.Time.{reading_accepted, timeout_accepted};

#[derive(Clone, Copy, PartialEq, Eq, PartialOrd, Ord)]
pub struct Instant(pub u64);

#[derive(Clone, Copy, PartialEq, Eq, PartialOrd, Ord)]
pub struct Duration(pub u64);

// The latest reading that is accepted.
const LATEST: Instant = Instant(0x4000_0000_0000_0000);

// The longest timeout that is accepted.
const LONGEST: Duration = Duration(60_000_000_000);

// Whether a reading may follow the last: it does not go back, and is at most 2^62.
pub fn accepts_reading(last: Instant, reading: Instant) -> bool
    ensures { result ≡ reading_accepted last reading }
{
    last <= reading && reading <= LATEST
}

// Whether a run may wait so long: at most 60 s.
pub fn accepts_timeout(timeout: Duration) -> bool
    ensures { result ≡ timeout_accepted timeout }
{
    timeout <= LONGEST
}
