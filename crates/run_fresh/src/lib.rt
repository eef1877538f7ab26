// The fresh-state request, `request_fresh_state`: asks for feedback and waits for a record that is no
// older. Storing, which begins with one, is in `store`.
#![tactic(auto)]

pub mod store;

ghost use Rattle.std.specs.Prelude.{◌≡◌};
ghost use Rattle.run_fresh.specs.State as Spec;

use run_wait::Waited;
use run_wait::ask::{Ask, ask_step, ask_want, looked};
use run_wait::look::fresh_record;
use run_want::message::Message;
use run_want::{Answer, Stepped, Want};
use state_feedback::{FeedbackSnapshot, MotorFeedbackState};
use std::ops::ControlFlow;
use time::Duration;

pub fn state_want(ask: Ask) -> Want<Message>
    ensures { result ≡ Spec.state_want ask }
{
    ask_want(Message::RequestFeedback, ask)
}

// Past the deadline there is no state, which is no failure. Like `read_step` of run_read, and apart from it for
// the reason given there.
pub fn state_step(
    timeout: Duration,
    latest: Option<FeedbackSnapshot>,
    ask: Ask,
    answer: Answer,
) -> Stepped<Ask, Option<MotorFeedbackState>>
    ensures { result ≡ Spec.state_step timeout latest ask answer }
{
    match ask_step(timeout, ask, answer)? {
        Waited::Goes(next) => Ok(ControlFlow::Continue(next)),
        Waited::Looks(opening) => Ok(looked(
            opening,
            fresh_record(opening, latest).map(|snapshot| Some(snapshot.state)),
        )),
        Waited::Late => Ok(ControlFlow::Break(None)),
    }
}
