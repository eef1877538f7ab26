// What a run wants, one thing at a time: a reading of the clock, a message sent, a sleep; and how it is
// answered. Why a run fails, where its steps lead, and the frame of each message.
#![tactic(auto)]

pub mod message;

ghost use Rattle.std.specs.Prelude.{◌≡◌};
ghost use Rattle.run_want.specs.Want as Spec;

use message::Message;
use registers::RegisterValue;
use std::ops::ControlFlow;
use time::{Duration, Instant};

// `M` is what is sent: inside a run a `Message`, for the caller its frame.
#[derive(Clone, Copy)]
pub enum Want<M> {
    Clock,
    Send(M),
    Sleep(Duration),
}

#[derive(Clone, Copy)]
pub enum Answer {
    Reading(Instant),
    Send(Result<(), SendError>),
    Slept,
}

// How a send fails: as a timeout, or otherwise.
#[derive(Clone, Copy)]
pub enum SendError {
    Timeout,
    Failed,
}

// Why a run fails.
#[derive(Clone, Copy)]
pub enum Failure {
    Timeout,
    Mismatch(RegisterValue),
    WrongType,
    SendFailed,
}

// Where a step of a run leads: on to a phase, or to an end, or it fails.
pub type Stepped<S, T> = Result<ControlFlow<T, S>, Failure>;

impl From<SendError> for Failure {
    ghost from_gives = { λ error failure. failure ≡ Spec.failure_of error };

    fn from(error: SendError) -> Failure {
        match error {
            SendError::Timeout => Failure::Timeout,
            SendError::Failed => Failure::SendFailed,
        }
    }
}

// Whether this kind of answer is wanted.
pub fn fits(want: Want<Message>, answer: Answer) -> bool
    ensures { result ≡ Spec.fits want answer }
{
    matches!(
        (want, answer),
        (Want::Clock, Answer::Reading(_))
            | (Want::Send(_), Answer::Send(_))
            | (Want::Sleep(_), Answer::Slept)
    )
}

// The reading that answers a want of the clock.
pub fn reading_of(answer: Answer) -> Instant
    ensures { result ≡ Spec.reading_of answer }
{
    match answer {
        Answer::Reading(reading) => reading,
        Answer::Send(_) | Answer::Slept => Instant(0),
    }
}

// How the wanted send went.
pub fn send_outcome(answer: Answer) -> Result<(), Failure>
    ensures { result ≡ Spec.send_outcome answer }
{
    if let Answer::Send(sent) = answer {
        sent?;
    }
    Ok(())
}
