// The ack wait: `wait_for_write_ack`. It opens after the send.
ghost use Rattle.std.specs.Prelude.{◌≡◌};
ghost use Rattle.run_write.specs.Ack as Spec;

use registers::{RegisterValue, register_value_matches};
use run_wait::look::fresh_entry;
use run_wait::{Wait, Waited, wait_step, wait_want};
use run_want::message::Message;
use run_want::{Answer, Failure, Stepped, Want, reading_of};
use state_cache::Entry;
use std::ops::ControlFlow;
use time::{Duration, Instant};

// 50 ms.
const WRITE_REGISTER_ACK_TIMEOUT: Duration = Duration(50_000_000);

// A phase of a run as the others are: as an `Option`, the one before the wait would have no name.
#[derive(Clone, Copy)]
pub enum AckWait {
    Opening,
    Waiting(Wait),
}

pub(crate) fn ack_want(ack: AckWait) -> Want<Message>
    ensures { result ≡ Spec.ack_want ack }
{
    match ack {
        AckWait::Opening => Want::Clock,
        AckWait::Waiting(wait) => wait_want(wait),
    }
}

fn ack_look(opening: Instant, value: RegisterValue, entry: Entry) -> Stepped<AckWait, ()>
    ensures { result ≡ Spec.ack_look opening value entry }
{
    match fresh_entry(opening, entry) {
        Entry::Empty => Ok(ControlFlow::Continue(AckWait::Waiting(Wait::Checking(opening)))),
        Entry::Held(got, _) if register_value_matches(got, value) => Ok(ControlFlow::Break(())),
        Entry::Held(got, _) => Err(Failure::Mismatch(got)),
    }
}

pub(crate) fn ack_step(
    value: RegisterValue,
    entry: Entry,
    ack: AckWait,
    answer: Answer,
) -> Stepped<AckWait, ()>
    ensures { result ≡ Spec.ack_step value entry ack answer }
{
    match ack {
        AckWait::Opening => ack_look(reading_of(answer), value, entry),
        AckWait::Waiting(wait) => match wait_step(WRITE_REGISTER_ACK_TIMEOUT, wait, answer) {
            Waited::Goes(next) => Ok(ControlFlow::Continue(AckWait::Waiting(next))),
            Waited::Looks(opening) => ack_look(opening, value, entry),
            Waited::Late => Err(Failure::Timeout),
        },
    }
}
