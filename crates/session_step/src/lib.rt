// An answer to a run, in the small parts of a session: its head and run, with the one entry that the run
// looks at.
#![tactic(auto)]

ghost use Rattle.std.specs.Prelude.{◌≡◌, Some};
ghost use Rattle.session_step.specs.Parts as Spec;

use motor_core::error::Refusal;
use protocol_frame::Command;
use run_machine::{Machine, Outcome, RunResult, machine_want};
use run_step::machine_step;
use run_want::message::{Message, message_data, message_id};
use run_want::{Answer, Stepped, Want, fits};
use session::Head;
use state_cache::Entry;
use std::ops::ControlFlow;
use time::{Instant, accepts_reading};

// What the caller is to do next.
pub type Wanted = Want<Command>;

// What a start or an answer returns if it is not refused: what the run wants, or its result. As a
// `ControlFlow` a result would be a `Break`, though the call that returns it did not break off.
#[derive(Clone, Copy)]
pub enum Told {
    Want(Wanted),
    Result(RunResult),
}

// The small parts after an answer.
#[derive(Clone, Copy)]
pub struct AnswerStep {
    pub told: Told,
    pub head: Head,
    pub run: Option<Machine>,
}

// A want in the caller's terms: a send by its frame. Inlined for the reason at `machine_want`.
#[inline(always)]
pub fn caller_want(head: Head, want: Want<Message>) -> Wanted
    ensures { result ≡ Spec.caller_want head want }
{
    match want {
        Want::Clock => Want::Clock,
        Want::Send(message) => Want::Send(Command {
            arbitration_id: message_id(head.motor_id, message),
            data: message_data(head.motor_id, head.limits, message),
        }),
        Want::Sleep(length) => Want::Sleep(length),
    }
}

fn accepts_answer(last: Instant, answer: Answer) -> bool
    ensures { result ≡ Spec.answer_accepted last answer }
{
    match answer {
        Answer::Reading(reading) => accepts_reading(last, reading),
        Answer::Send(_) | Answer::Slept => true,
    }
}

// What an accepted answer leaves of the head.
pub fn with_reading(head: Head, answer: Answer) -> Head
    ensures { result ≡ Spec.with_reading head answer }
{
    match answer {
        Answer::Reading(last) => Head { last, ..head },
        Answer::Send(_) | Answer::Slept => head,
    }
}

fn stepped(head: Head, next: Stepped<Machine, Outcome>) -> AnswerStep
    ensures { result ≡ Spec.stepped head next }
{
    let (told, run) = match next {
        Ok(ControlFlow::Continue(machine)) => (
            Told::Want(caller_want(head, machine_want(machine))),
            Some(machine),
        ),
        Ok(ControlFlow::Break(outcome)) => (Told::Result(Ok(outcome)), None),
        Err(failure) => (Told::Result(Err(failure)), None),
    };
    AnswerStep { told, head, run }
}

// Answers what the run wants, in the small parts. `entry` is what the run's place holds.
pub fn answer_step(
    head: Head,
    entry: Entry,
    run: Option<Machine>,
    answer: Answer,
) -> Result<AnswerStep, Refusal>
    ensures { result ≡ Spec.answer_step head entry run answer }
{
    let machine = run.ok_or(Refusal::NotWanted)?;
    if !fits(machine_want(machine), answer) {
        return Err(Refusal::NotWanted);
    }
    if !accepts_answer(head.last, answer) {
        return Err(Refusal::Reading);
    }
    let next = machine_step(head.feedback.latest, entry, machine, answer);
    Ok(stepped(with_reading(head, answer), next))
}
