// The time that a mode switch has for its parts: the caps of its reads, its deadline and the
// settling sleep.
#![tactic(auto)]

ghost use Rattle.std.specs.Prelude.{◌≡◌, ◌≤◌};
ghost use Rattle.switch_time.specs.TimeLeft as Spec;

use run_wait::REGISTER_POLL_INTERVAL;
use time::{Duration, Instant};

// 100 ms, 30 ms and 20 ms.
const ENSURE_MODE_REGISTER_READ_TIMEOUT: Duration = Duration(100_000_000);

const ENSURE_MODE_HOLD_POSITION_TIMEOUT: Duration = Duration(30_000_000);

const ENSURE_MODE_SETTLE: Duration = Duration(20_000_000);

fn budget_cap(total: Duration, hard_cap: Duration, divisor: u64) -> Duration
    requires { 1 ≤ divisor }
    ensures { result ≡ Spec.budget_cap total hard_cap divisor }
{
    Duration(total.0 / divisor)
        .max(REGISTER_POLL_INTERVAL)
        .min(hard_cap)
}

pub fn mode_read_cap(total: Duration) -> Duration
    ensures { result ≡ Spec.mode_read_cap total }
{
    budget_cap(total, ENSURE_MODE_REGISTER_READ_TIMEOUT, 4)
}

pub fn hold_read_cap(total: Duration) -> Duration
    ensures { result ≡ Spec.hold_read_cap total }
{
    budget_cap(total, ENSURE_MODE_HOLD_POSITION_TIMEOUT, 6)
}

// The deadline; it stays at the latest instant there is rather than overflow.
pub fn deadline_after(now: Instant, timeout: Duration) -> Instant
    ensures { result ≡ Spec.deadline_after now timeout }
{
    Instant(now.0.saturating_add(timeout.0))
}

fn remaining_until(deadline: Instant, now: Instant) -> Option<Duration>
    ensures { result ≡ Spec.remaining_until deadline now }
{
    deadline.0.checked_sub(now.0).map(Duration)
}

pub fn capped_remaining(deadline: Instant, cap: Duration, now: Instant) -> Option<Duration>
    ensures { result ≡ Spec.capped_remaining deadline cap now }
{
    remaining_until(deadline, now).map(|left| left.min(cap))
}

fn beyond(left: Duration, reserve: Duration) -> Option<Duration>
    ensures { result ≡ Spec.beyond left reserve }
{
    if left <= reserve {
        return None;
    }
    Some(ENSURE_MODE_SETTLE.min(Duration(left.0 - reserve.0)))
}

// The settling sleep, or none where the reserve leaves no time for it.
pub fn sleep_up_to_reserving(deadline: Instant, reserve: Duration, now: Instant) -> Option<Duration>
    ensures { result ≡ Spec.sleep_up_to_reserving deadline reserve now }
{
    beyond(remaining_until(deadline, now)?, reserve)
}
