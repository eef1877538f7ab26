// A session of motor 1, model 4310, takes frames. The checksum has everything that a frame may change.
use crate::protocol::MAXIMA_4310;
use crate::sums::{float_bits, mixed};
use motor_core::bus::CanFrame;
use registers::{RegisterValue, holds_u32, value_bits};
use session::Session;
use session::start::from_limits;
use session_lent::take_frame;
use state_cache::Entry;
use state_feedback::{FeedbackSnapshot, MotorFeedbackState};
use time::Instant;

pub(crate) fn session_4310() -> Option<Session> {
    from_limits(1, 0x11, MAXIMA_4310).ok()
}

pub(crate) fn frame_of(data: [u8; 8]) -> CanFrame {
    CanFrame {
        arbitration_id: 0x11,
        data,
        dlc: 8,
        is_extended: false,
    }
}

// A frame's reading is its place.
pub(crate) fn take(frames: &[[u8; 8]]) -> u64 {
    session_4310().map_or(0, |session| session_total(after_frames(frames, session)))
}

fn after_frames(frames: &[[u8; 8]], mut session: Session) -> Session {
    for (place, data) in frames.iter().enumerate() {
        session = take_frame(session, frame_of(*data), Instant(place as u64)).session;
    }
    session
}

pub(crate) fn session_total(session: Session) -> u64 {
    let feedback = session.head.feedback;
    let latest = feedback.latest.map_or(0, latest_total);
    let counted = mixed(latest, feedback.sequence);
    let timed = mixed(counted, session.head.last.0);
    let replied = mixed(timed, entries_total(&session.replies));
    mixed(replied, entries_total(&session.acks))
}

fn latest_total(snapshot: FeedbackSnapshot) -> u64 {
    let stamped = mixed(snapshot.sequence, snapshot.received_at.0);
    let sent = mixed(stamped, sender_total(snapshot.state));
    mixed(sent, floats_total(snapshot.state))
}

// Who sent it, and the status by number and name.
fn sender_total(s: MotorFeedbackState) -> u64 {
    let ids = mixed(u64::from(s.can_id), u64::from(s.arbitration_id));
    let status = mixed(ids, u64::from(s.status_code));
    mixed(status, s.status_name as u64)
}

fn floats_total(s: MotorFeedbackState) -> u64 {
    let moving = mixed(float_bits(s.pos), float_bits(s.vel));
    let turning = mixed(moving, float_bits(s.torq));
    let warm = mixed(turning, float_bits(s.t_mos));
    mixed(warm, float_bits(s.t_rotor))
}

fn entries_total(entries: &[Entry]) -> u64 {
    entries
        .iter()
        .fold(0, |sum, entry| mixed(sum, entry_total(*entry)))
}

fn entry_total(entry: Entry) -> u64 {
    match entry {
        Entry::Empty => 0,
        Entry::Held(value, stamp) => {
            let valued = mixed(type_number(value), u64::from(value_bits(value)));
            mixed(valued, stamp.0)
        }
    }
}

fn type_number(value: RegisterValue) -> u64 {
    if holds_u32(value) { 1 } else { 2 }
}
