// A frame, in the small parts of a session: the record or the entry that it brings.
#![tactic(auto)]

ghost use Rattle.std.specs.Prelude.{◌≡◌};
ghost use Rattle.session_frame.specs.Frame as Spec;

use motor_core::bus::CanFrame;
use motor_core::error::Refusal;
use protocol_address::sort_own;
use protocol_received::{Received, read_sorted};
use session::{After, Head};
use state_cache::{Entry, Place};
use state_feedback::{FeedbackCache, state_of, update};
use time::{Instant, accepts_reading};

// What a frame that is taken brings: the latest record, or the entry of a register's replies or acks.
#[derive(Clone, Copy)]
pub enum FrameStep {
    Latest(FeedbackCache),
    Kept(Place, Entry),
}

pub type AfterFrame = After<Result<(), Refusal>>;

// By what the frame says.
fn taken_step(
    feedback: FeedbackCache,
    arbitration_id: u32,
    received: Received,
    reading: Instant,
) -> FrameStep
    ensures { result ≡ Spec.taken_step feedback arbitration_id received reading }
{
    match received {
        Received::Reply(rid, value) => {
            FrameStep::Kept(Place::Reply(rid), Entry::Held(value, reading))
        }
        Received::Ack(rid, value) => FrameStep::Kept(Place::Ack(rid), Entry::Held(value, reading)),
        Received::Feedback(decoded) => {
            FrameStep::Latest(update(feedback, state_of(arbitration_id, decoded), reading))
        }
    }
}

// Takes a frame of this motor's, with its reading. The reading becomes the last.
#[tactic(auto, unfolding(crate::specs::Frame::frame_step))]
pub fn frame_step(head: Head, frame: CanFrame, reading: Instant) -> Result<FrameStep, Refusal>
    ensures { result ≡ Spec.frame_step head frame reading }
{
    if !accepts_reading(head.last, reading) {
        return Err(Refusal::Reading);
    }
    match sort_own(frame, head.motor_id, head.feedback_id) {
        None => Err(Refusal::ForeignFrame),
        Some(sorted) => {
            let received = read_sorted(frame.data, sorted, head.limits);
            Ok(taken_step(head.feedback, frame.arbitration_id, received, reading))
        }
    }
}
