// What a call on the session returns; of a start or an answer the run's next want, or its result.
use crate::page::Page;
use crate::values::{put_feedback_state, put_value};
use motor_core::error::Refusal;
use registers::RegisterValue;
use run_machine::{Outcome, RunResult};
use run_want::{Failure, Want};
use session_call::Returned;
use session_step::{Told, Wanted};
use state_feedback::MotorFeedbackState;

pub(crate) fn put_returned(page: &mut Page, returned: Returned) -> Result<(), Refusal> {
    match returned {
        Returned::Run(told) => put_told(page, told?),
        Returned::Frame(taken) => {
            taken?;
            page.put(b"taken");
        }
        Returned::Patch(patched) => page.put_numbered(b"patched ", patched),
    }
    Ok(())
}

fn put_told(page: &mut Page, told: Told) {
    match told {
        Told::Want(want) => put_want(page, want),
        Told::Result(outcome) => put_result(page, outcome),
    }
}

fn put_want(page: &mut Page, want: Wanted) {
    match want {
        Want::Clock => page.put(b"want clock"),
        Want::Send(command) => page.put_frame(b"want send ", command),
        Want::Sleep(length) => page.put_numbered(b"want sleep ", length.0),
    }
}

fn put_result(page: &mut Page, outcome: RunResult) {
    match outcome {
        Ok(Outcome::Done) => page.put(b"done"),
        Ok(Outcome::Value(value)) => put_worded(page, b"done", value),
        Ok(Outcome::State(Some(state))) => put_state(page, state),
        Ok(Outcome::State(None)) => page.put(b"no-state"),
        Err(failure) => put_failure(page, failure),
    }
}

fn put_failure(page: &mut Page, failure: Failure) {
    match failure {
        Failure::Timeout => page.put(b"timeout"),
        Failure::Mismatch(value) => put_worded(page, b"mismatch", value),
        Failure::WrongType => page.put(b"wrong-type"),
        Failure::SendFailed => page.put(b"send-failed"),
    }
}

// The word and the value.
fn put_worded(page: &mut Page, word: &[u8], value: RegisterValue) {
    page.put(word);
    put_value(page, value);
}

fn put_state(page: &mut Page, state: MotorFeedbackState) {
    page.put(b"done state");
    put_feedback_state(page, state);
}
