// The confirmed write: `write_register_u32` and `write_register_f32`, with `wait_for_write_ack`. It
// sends, waits for an ack of the value, and tries again, three times in all.
#![tactic(auto)]

pub mod ack;

ghost use Rattle.std.specs.Prelude.{◌≡◌};
ghost use Rattle.run_write.specs.Write as Spec;

use ack::{AckWait, ack_step, ack_want};
use registers::{RegisterValue, value_bits};
use run_want::message::Message;
use run_want::{Answer, Failure, Stepped, Want, send_outcome};
use state_cache::Entry;
use std::ops::ControlFlow;
use time::Duration;

const WRITE_REGISTER_ACK_ATTEMPTS: u8 = 3;

// 20 ms.
const WRITE_REGISTER_ACK_RETRY_GAP: Duration = Duration(20_000_000);

// `tries_left` is the number of tries after this one; in a gap, after the one that follows it.
#[derive(Clone, Copy)]
pub enum Write {
    Sending(u8),
    Waiting(u8, AckWait),
    Gap(u8),
}

pub fn first_try() -> Write
    ensures { result ≡ Spec.first_try }
{
    Write::Sending(WRITE_REGISTER_ACK_ATTEMPTS - 1)
}

pub fn write_want(rid: u8, value: RegisterValue, write: Write) -> Want<Message>
    ensures { result ≡ Spec.write_want rid value write }
{
    match write {
        Write::Sending(_) => Want::Send(Message::WriteRegister(rid, value_bits(value))),
        Write::Waiting(_, ack) => ack_want(ack),
        Write::Gap(_) => Want::Sleep(WRITE_REGISTER_ACK_RETRY_GAP),
    }
}

// The next try, or the last one's failure.
fn again(tries_left: u8, failure: Failure) -> Stepped<Write, ()>
    ensures { result ≡ Spec.again tries_left failure }
{
    if tries_left == 0 {
        return Err(failure);
    }
    Ok(ControlFlow::Continue(Write::Gap(tries_left - 1)))
}

fn write_waited(tries_left: u8, ack: Stepped<AckWait, ()>) -> Stepped<Write, ()>
    ensures { result ≡ Spec.write_waited tries_left ack }
{
    match ack {
        Ok(step) => Ok(step.map_continue(|next| Write::Waiting(tries_left, next))),
        Err(failure) => again(tries_left, failure),
    }
}

// `entry` is what the cache holds of the register's acks. A send that fails is not tried again.
// Inlined for the reason at `machine_want`.
#[inline(always)]
pub fn write_step(
    value: RegisterValue,
    entry: Entry,
    write: Write,
    answer: Answer,
) -> Stepped<Write, ()>
    ensures { result ≡ Spec.write_step value entry write answer }
{
    match write {
        Write::Sending(tries_left) => {
            send_outcome(answer)?;
            Ok(ControlFlow::Continue(Write::Waiting(tries_left, AckWait::Opening)))
        }
        Write::Waiting(tries_left, ack) => write_waited(
            tries_left,
            ack_step(value, entry, ack, answer),
        ),
        Write::Gap(tries_left) => Ok(ControlFlow::Continue(Write::Sending(tries_left))),
    }
}
