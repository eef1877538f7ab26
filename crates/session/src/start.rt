// A session's start, from three limits or from a model's name.
ghost use Rattle.std.specs.Prelude.{◌≡◌};
ghost use Rattle.model_list.specs.Counted.{models_of};
ghost use Rattle.session.specs.Session.{fresh_head, fresh};
ghost use Rattle.session.specs.Start as Spec;

use crate::{Head, Session};
use model_list::{ModelList, model_limits};
use motor_core::bus::accepts_motor_id;
use motor_core::error::Refusal;
use motor_core::model::{Maxima, PvTLimits, limits_of};
use state_cache::Entry;
use state_feedback::FeedbackCache;
use time::Instant;

// No record, number 0, last reading 0.
fn fresh_head(motor_id: u16, feedback_id: u16, limits: PvTLimits) -> Head
    ensures { result ≡ fresh_head motor_id feedback_id limits }
{
    Head {
        motor_id,
        feedback_id,
        limits,
        feedback: FeedbackCache {
            latest: None,
            sequence: 0,
        },
        last: Instant(0),
    }
}

// Empty caches and no run.
#[tactic(auto, unfolding(crate::specs::Session::fresh))]
fn fresh(motor_id: u16, feedback_id: u16, limits: PvTLimits) -> Session
    ensures { result ≡ fresh motor_id feedback_id limits }
{
    Session {
        head: fresh_head(motor_id, feedback_id, limits),
        replies: [Entry::Empty; 82],
        acks: [Entry::Empty; 82],
        run: None,
    }
}

// A fresh session with these limits, or the refusal of a limit or of the motor id. The two ids are the
// head's by themselves: a struct of them would be taken apart here.
#[tactic(auto, unfolding(crate::specs::Start::from_limits))]
pub fn from_limits(motor_id: u16, feedback_id: u16, maxima: Maxima) -> Result<Session, Refusal>
    ensures { result ≡ Spec.from_limits motor_id feedback_id maxima }
{
    let limits = limits_of(maxima)?;
    if !accepts_motor_id(motor_id) {
        return Err(Refusal::MotorId);
    }
    Ok(fresh(motor_id, feedback_id, limits))
}

// A fresh session with the limits of the first model of that name, or the refusal of the name, or as
// from its limits.
#[tactic(auto, unfolding(crate::specs::Start::from_model))]
pub fn from_model(
    motor_id: u16,
    feedback_id: u16,
    list: &ModelList,
    name: &[u8],
) -> Result<Session, Refusal>
    ensures { result ≡ Spec.from_model motor_id feedback_id (models_of list.now) name.now }
{
    let maxima = model_limits(list, name)?;
    from_limits(motor_id, feedback_id, maxima)
}
