// Taking a frame into a session that is lent. The record or the one slot that the frame brings, and the last
// reading, are written where they stand; nothing else of the session is touched.
#![tactic(auto)]

ghost use Rattle.std.specs.Prelude.{◌≡◌};
ghost use Rattle.session_frame.specs.Frame.{take_frame};

use motor_core::bus::CanFrame;
use motor_core::error::Refusal;
use session::{After, Session};
use session_frame::{AfterFrame, FrameStep, frame_step};
use state_cache::{Place, slot_index};
use time::Instant;

// Takes a frame, with its reading, into the session that is lent.
#[tactic(auto, using(crate::proofs::ByParts::taken_outcome, crate::proofs::ByParts::taken_session, crate::proofs::ByParts::refused_outcome, crate::proofs::ByParts::refused_session, state_cache::proofs::Places::slot_below))]
pub fn process_feedback_frame(
    session: &mut Session,
    frame: CanFrame,
    reading: Instant,
) -> Result<(), Refusal>
    ensures outcome { result ≡ (take_frame session.old frame reading).told }
    ensures session { session.new ≡ (take_frame session.old frame reading).session }
{
    let step = frame_step(session.head, frame, reading)?;
    session.head.last = reading;
    match step {
        FrameStep::Latest(feedback) => session.head.feedback = feedback,
        FrameStep::Kept(place, entry) => match place {
            Place::Reply(rid) => session.replies[slot_index(rid)] = entry,
            Place::Ack(rid) => session.acks[slot_index(rid)] = entry,
        },
    }
    Ok(())
}

// The same for a session that goes by value: it is lent for the frame and handed back, in two lines for the
// reason at `After`.
pub fn take_frame(mut session: Session, frame: CanFrame, reading: Instant) -> AfterFrame
    ensures { result ≡ take_frame session frame reading }
{
    let told = process_feedback_frame(&mut session, frame, reading);
    After { session, told }
}
