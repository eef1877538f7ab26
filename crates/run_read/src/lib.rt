// The register read: `wait_for_register_value`, and `get_register_u32` and `get_register_f32` on it. It
// asks, and waits for a reply that is no older than its opening.
#![tactic(auto)]

ghost use Rattle.std.specs.Prelude.{◌≡◌};
ghost use Rattle.run_read.specs.Read as Spec;

use registers::{RegisterDataType, RegisterValue, is_of_type};
use run_wait::Waited;
use run_wait::ask::{Ask, ask_step, ask_want, looked};
use run_wait::look::fresh_entry;
use run_want::message::Message;
use run_want::{Answer, Failure, Stepped, Want};
use state_cache::Entry;
use std::ops::ControlFlow;
use time::Duration;

pub fn read_want(rid: u8, ask: Ask) -> Want<Message>
    ensures { result ≡ Spec.read_want rid ask }
{
    ask_want(Message::ReadRegister(rid), ask)
}

// `entry` is what the cache holds of the register's replies. One function for this and the fresh state's step
// would take the look as a closure, with a `requires` that it can be called.
fn read_step(
    timeout: Duration,
    entry: Entry,
    ask: Ask,
    answer: Answer,
) -> Stepped<Ask, RegisterValue>
    ensures { result ≡ Spec.read_step timeout entry ask answer }
{
    match ask_step(timeout, ask, answer)? {
        Waited::Goes(next) => Ok(ControlFlow::Continue(next)),
        Waited::Looks(opening) => Ok(looked(opening, fresh_entry(opening, entry).value())),
        Waited::Late => Err(Failure::Timeout),
    }
}

// The type is tested on the value that was found, and nowhere before.
fn typed(data_type: RegisterDataType, value: RegisterValue) -> Result<RegisterValue, Failure>
    ensures { result ≡ Spec.typed data_type value }
{
    if !is_of_type(value, data_type) {
        return Err(Failure::WrongType);
    }
    Ok(value)
}

pub fn get_step(
    data_type: RegisterDataType,
    timeout: Duration,
    entry: Entry,
    ask: Ask,
    answer: Answer,
) -> Stepped<Ask, RegisterValue>
    ensures { result ≡ Spec.get_step data_type timeout entry ask answer }
{
    match read_step(timeout, entry, ask, answer)? {
        ControlFlow::Continue(next) => Ok(ControlFlow::Continue(next)),
        ControlFlow::Break(value) => Ok(ControlFlow::Break(typed(data_type, value)?)),
    }
}
