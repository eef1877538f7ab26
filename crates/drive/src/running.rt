// The calls that change the session: each as the value that it is, and the ways to make it.
use crate::fields::{bits_at, frame_at, number_at};
use run_want::{Answer, SendError};
use script::CallName;
use session::Session;
use session_begin::Start;
use session_call::{Call, Returned, step, step_lent};
use session_lent::process_feedback_frame;
use time::{Duration, Instant};

// By the function over all calls where the line says `lent`, by the entry that lends the session where it
// says `frame-lent`, else by the entry by value, to which `step` hands it.
pub(crate) fn make_call(session: &mut Session, line: script::Call) -> Returned {
    if line.name == CallName::FrameLent {
        let taken = process_feedback_frame(session, frame_at(line, 1), reading_at(line, 0));
        return Returned::Frame(taken);
    }
    let call = call_of(line);
    if line.is_lent {
        return step_lent(session, call);
    }
    // what goes by value gives back the session, as it was where the call is refused
    let done = step(*session, call);
    *session = done.session;
    done.told
}

fn call_of(line: script::Call) -> Call {
    match line.name {
        CallName::Clock
        | CallName::Sent
        | CallName::SendTimeout
        | CallName::SendFailed
        | CallName::Slept => Call::Answer(answer_of(line)),
        CallName::Frame => Call::Frame(frame_at(line, 1), reading_at(line, 0)),
        CallName::Patch => Call::Patch(number_at(line, 0), number_at(line, 1), number_at(line, 2)),
        _ => Call::Start(start_of(line)),
    }
}

fn start_of(line: script::Call) -> Start {
    match line.name {
        CallName::GetU32 => Start::GetRegisterU32(number_at(line, 0), timeout_at(line, 1)),
        CallName::GetF32 => Start::GetRegisterF32(number_at(line, 0), timeout_at(line, 1)),
        CallName::WriteU32 => Start::WriteRegisterU32(number_at(line, 0), number_at(line, 1)),
        CallName::WriteF32 => Start::WriteRegisterF32(number_at(line, 0), bits_at(line, 1)),
        CallName::FreshState => Start::RequestFreshState(timeout_at(line, 0)),
        CallName::Mode => Start::EnsureControlMode(number_at(line, 0), timeout_at(line, 1)),
        _ => Start::StoreParameters,
    }
}

fn answer_of(line: script::Call) -> Answer {
    match line.name {
        CallName::Clock => Answer::Reading(reading_at(line, 0)),
        CallName::Sent => Answer::Send(Ok(())),
        CallName::SendTimeout => Answer::Send(Err(SendError::Timeout)),
        CallName::SendFailed => Answer::Send(Err(SendError::Failed)),
        _ => Answer::Slept,
    }
}

fn timeout_at(line: script::Call, place: usize) -> Duration {
    Duration(number_at(line, place))
}

fn reading_at(line: script::Call, place: usize) -> Instant {
    Instant(number_at(line, place))
}
