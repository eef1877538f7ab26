// One session stays in a local and is lent for every frame.
use crate::sessions::{frame_of, session_4310, session_total};
use session::Session;
use session_lent::process_feedback_frame;
use time::Instant;

// A frame's reading is its place.
fn after_frames(frames: &[[u8; 8]], mut session: Session) -> Session {
    for (place, data) in frames.iter().enumerate() {
        let _ = process_feedback_frame(&mut session, frame_of(*data), Instant(place as u64));
    }
    session
}

pub(crate) fn take_lent(frames: &[[u8; 8]]) -> u64 {
    session_4310().map_or(0, |session| session_total(after_frames(frames, session)))
}
