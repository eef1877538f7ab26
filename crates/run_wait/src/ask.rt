// Asking the motor: the opening reading, then the send, then a wait. `wait_for_register_value` and
// `request_fresh_state` share it, and differ in what they look for and in what being late means.
ghost use Rattle.std.specs.Prelude.{◌≡◌};
ghost use Rattle.run_wait.specs.Ask as Spec;

use crate::{Wait, Waited, wait_step, wait_want};
use run_want::message::Message;
use run_want::{Answer, Failure, Want, reading_of, send_outcome};
use std::ops::ControlFlow;
use time::{Duration, Instant};

#[derive(Clone, Copy)]
pub enum Ask {
    Opening,
    Sending(Instant),
    Waiting(Wait),
}

pub fn ask_want(message: Message, ask: Ask) -> Want<Message>
    ensures { result ≡ Spec.ask_want message ask }
{
    match ask {
        Ask::Opening => Want::Clock,
        Ask::Sending(_) => Want::Send(message),
        Ask::Waiting(wait) => wait_want(wait),
    }
}

pub fn ask_step(length: Duration, ask: Ask, answer: Answer) -> Result<Waited<Ask>, Failure>
    ensures { result ≡ Spec.ask_step length ask answer }
{
    match ask {
        Ask::Opening => Ok(Waited::Goes(Ask::Sending(reading_of(answer)))),
        Ask::Sending(opening) => {
            send_outcome(answer)?;
            Ok(Waited::Looks(opening))
        }
        // by its cases, for the reason at `Waited`
        Ask::Waiting(wait) => match wait_step(length, wait, answer) {
            Waited::Goes(next) => Ok(Waited::Goes(Ask::Waiting(next))),
            Waited::Looks(opening) => Ok(Waited::Looks(opening)),
            Waited::Late => Ok(Waited::Late),
        },
    }
}

// A look has found what was asked for, or else the clock is compared next.
pub fn looked<T>(opening: Instant, found: Option<T>) -> ControlFlow<T, Ask>
    ensures { result ≡ Spec.looked opening found }
{
    match found {
        Some(found) => ControlFlow::Break(found),
        None => ControlFlow::Continue(Ask::Waiting(Wait::Checking(opening))),
    }
}
