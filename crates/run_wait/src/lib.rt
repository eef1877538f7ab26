// The loop that the Rust's three waits share: look, then compare the clock with the deadline, then
// sleep. What to look for is left to the caller.
#![tactic(auto)]

pub mod ask;
pub mod look;

ghost use Rattle.std.specs.Prelude.{◌≡◌};
ghost use Rattle.run_wait.specs.Wait as Spec;

use run_want::message::Message;
use run_want::{Answer, Want, reading_of};
use time::{Duration, Instant};

// 2 ms.
pub const REGISTER_POLL_INTERVAL: Duration = Duration(2_000_000);

// After a look that found nothing, with the wait's opening.
#[derive(Clone, Copy)]
pub enum Wait {
    Checking(Instant),
    Napping(Instant),
}

// The wait goes on, or it is time for a look at what came since the opening, or the deadline is past.
// As a `ControlFlow` of an `Option` a look and being late would have no names.
#[derive(Clone, Copy)]
pub enum Waited<S> {
    Goes(S),
    Looks(Instant),
    Late,
}

// Whether `length` has passed since the opening. A difference and no sum, which could overflow.
fn is_late(opening: Instant, length: Duration, now: Instant) -> bool
    ensures { result ≡ Spec.late opening length now }
{
    opening <= now && length.0 <= now.0 - opening.0
}

pub fn wait_want(wait: Wait) -> Want<Message>
    ensures { result ≡ Spec.wait_want wait }
{
    match wait {
        Wait::Checking(_) => Want::Clock,
        Wait::Napping(_) => Want::Sleep(REGISTER_POLL_INTERVAL),
    }
}

pub fn wait_step(length: Duration, wait: Wait, answer: Answer) -> Waited<Wait>
    ensures { result ≡ Spec.wait_step length wait answer }
{
    match wait {
        Wait::Checking(opening) => {
            if is_late(opening, length, reading_of(answer)) {
                return Waited::Late;
            }
            Waited::Goes(Wait::Napping(opening))
        }
        Wait::Napping(opening) => Waited::Looks(opening),
    }
}
