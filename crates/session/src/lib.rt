// A motor's session: its head, the caches of the motor's register replies and acks, and the run that is
// open. It goes by value.
#![tactic(auto)]

pub mod start;

ghost use Rattle.std.specs.Prelude.{◌≡◌};
ghost use Rattle.protocol_address.specs.Address.{frame_accepted};
ghost use Rattle.session.specs.Session as Spec;

use motor_core::bus::CanFrame;
use motor_core::model::PvTLimits;
use run_machine::Machine;
use state_cache::Entry;
use state_feedback::{FeedbackCache, FeedbackSnapshot};
use time::Instant;

// The ids and limits of the motor, its latest record, and the last reading: the small part that a frame
// or an answer works on.
#[derive(Clone, Copy)]
pub struct Head {
    pub motor_id: u16,
    pub feedback_id: u16,
    pub limits: PvTLimits,
    pub feedback: FeedbackCache,
    pub last: Instant,
}

// A slot for each register number up to the last register, 81, and the machine of the run that is open.
#[derive(Clone, Copy)]
pub struct Session {
    pub head: Head,
    pub replies: [Entry; 82],
    pub acks: [Entry; 82],
    pub run: Option<Machine>,
}

// A session goes by value, so that it stands beside what a call tells; first, since copies of it are
// cheaper so. Each call by value lends its session in two lines: one function for all of them would take the
// call as a closure, with a `requires` that it can be called.
#[derive(Clone, Copy)]
pub struct After<T> {
    pub session: Session,
    pub told: T,
}

pub type AfterPatch = After<bool>;

// Whether a frame may be this motor's, as the Rust tests it. Taking a frame tests more.
pub fn accepts_frame(head: Head, frame: CanFrame) -> bool
    ensures { result ≡ frame_accepted head.motor_id head.feedback_id frame }
{
    protocol_address::accepts_frame(frame, head.motor_id, head.feedback_id)
}

pub fn latest_state_snapshot(head: Head) -> Option<FeedbackSnapshot>
    ensures { result ≡ head.feedback.latest }
{
    head.feedback.latest
}

// Sets status and temperatures of the latest record, and answers whether there is one.
pub fn patch_lent(session: &mut Session, status: u8, t_mos: u8, t_rotor: u8) -> bool
    ensures told { result ≡ (Spec.patch session.old status t_mos t_rotor).told }
    ensures session { session.new ≡ (Spec.patch session.old status t_mos t_rotor).session }
{
    match state_feedback::patch_latest(session.head.feedback, status, t_mos, t_rotor) {
        Some(feedback) => {
            session.head.feedback = feedback;
            true
        }
        None => false,
    }
}

// The same for a session that goes by value: it is lent for the patch and handed back.
pub fn patch_latest(mut session: Session, status: u8, t_mos: u8, t_rotor: u8) -> AfterPatch
    ensures { result ≡ Spec.patch session status t_mos t_rotor }
{
    let told = patch_lent(&mut session, status, t_mos, t_rotor);
    After { session, told }
}
