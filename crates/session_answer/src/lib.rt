// Answering the run of a session: the entry that the run looks at is found, and the work done in the
// small parts.
#![tactic(auto)]

ghost use Rattle.std.specs.Prelude.{◌≡◌};
ghost use Rattle.session_answer.specs.Answer as Spec;

use motor_core::error::Refusal;
use run_machine::{Machine, machine_place};
use run_want::Answer;
use session::{After, Session};
use session_step::{Told, answer_step, with_reading};
use state_cache::{Entry, Place, slot_of};

pub type AfterCall = After<Result<Told, Refusal>>;

fn run_place(run: Option<Machine>) -> Option<Place>
    ensures { result ≡ Spec.run_place run }
{
    machine_place(run?)
}

fn entry_at(session: &Session, place: Option<Place>) -> Entry
    ensures { result ≡ Spec.entry_at session.now.replies session.now.acks place }
{
    match place {
        None => Entry::Empty,
        Some(Place::Reply(rid)) => slot_of(&session.replies, rid),
        Some(Place::Ack(rid)) => slot_of(&session.acks, rid),
    }
}

// Answers what the run of the session that is lent wants.
#[tactic(auto, unfolding(crate::specs::Answer::answer_run))]
pub fn answer_lent(session: &mut Session, answer: Answer) -> Result<Told, Refusal>
    ensures told { result ≡ (Spec.answer_run session.old answer).told }
    ensures session { session.new ≡ (Spec.answer_run session.old answer).session }
{
    let entry = entry_at(session, run_place(session.run));
    let step = answer_step(session.head, entry, session.run, answer)?;
    // that is the step's head, which is copied no further
    session.head = with_reading(session.head, answer);
    session.run = step.run;
    Ok(step.told)
}

// The same for a session that goes by value: it is lent for the answer and handed back, in two lines for the
// reason at `After`. Inlined, it copies the session less often.
#[inline(always)]
pub fn answer_run(mut session: Session, answer: Answer) -> AfterCall
    ensures { result ≡ Spec.answer_run session answer }
{
    let told = answer_lent(&mut session, answer);
    After { session, told }
}
