// The latest feedback with its stamp and its number, as the Rust's feedback.rs keeps it, and the patch
// of its status and temperatures.
#![tactic(auto)]

ghost use Rattle.std.specs.Prelude.{◌≡◌};
ghost use Rattle.state_feedback.specs.Feedback as Spec;

use protocol_feedback::SensorFeedback;
use protocol_status::StatusName;
use time::Instant;

#[derive(Clone, Copy)]
pub struct MotorFeedbackState {
    pub can_id: u8,
    pub arbitration_id: u32,
    pub status_code: u8,
    pub status_name: StatusName,
    pub pos: f32,
    pub vel: f32,
    pub torq: f32,
    pub t_mos: f32,
    pub t_rotor: f32,
}

#[derive(Clone, Copy)]
pub struct FeedbackSnapshot {
    pub state: MotorFeedbackState,
    pub received_at: Instant,
    pub sequence: u64,
}

#[derive(Clone, Copy)]
pub struct FeedbackCache {
    pub latest: Option<FeedbackSnapshot>,
    pub sequence: u64,
}

// What is kept of a feedback that came under this arbitration id.
pub fn state_of(arbitration_id: u32, decoded: SensorFeedback) -> MotorFeedbackState
    ensures { result ≡ Spec.state_of arbitration_id decoded }
{
    MotorFeedbackState {
        can_id: decoded.can_id,
        arbitration_id,
        status_code: decoded.status_code,
        status_name: protocol_status::status_name(decoded.status_code),
        pos: decoded.pos,
        vel: decoded.vel,
        torq: decoded.torq,
        t_mos: decoded.t_mos,
        t_rotor: decoded.t_rotor,
    }
}

// The number after this one; the greatest stays.
fn next_sequence(sequence: u64) -> u64
    ensures { result ≡ Spec.next_sequence sequence }
{
    sequence.saturating_add(1)
}

// The state becomes the latest, with the next number.
pub fn update(
    cache: FeedbackCache,
    state: MotorFeedbackState,
    received_at: Instant,
) -> FeedbackCache
    ensures { result ≡ Spec.update cache state received_at }
{
    let sequence = next_sequence(cache.sequence);
    FeedbackCache {
        latest: Some(FeedbackSnapshot {
            state,
            received_at,
            sequence,
        }),
        sequence,
    }
}

fn patch_state(state: MotorFeedbackState, status: u8, t_mos: u8, t_rotor: u8) -> MotorFeedbackState
    ensures { result ≡ Spec.patch_state state status t_mos t_rotor }
{
    MotorFeedbackState {
        status_code: status,
        status_name: protocol_status::status_name(status),
        t_mos: f32::from(t_mos),
        t_rotor: f32::from(t_rotor),
        ..state
    }
}

// Sets status and temperatures of the latest; its number and stamp stay. Nothing where there is none.
pub fn patch_latest(
    cache: FeedbackCache,
    status: u8,
    t_mos: u8,
    t_rotor: u8,
) -> Option<FeedbackCache>
    ensures { result ≡ Spec.patch_latest cache status t_mos t_rotor }
{
    let snapshot = cache.latest?;
    let patched = FeedbackSnapshot {
        state: patch_state(snapshot.state, status, t_mos, t_rotor),
        ..snapshot
    };
    Some(FeedbackCache {
        latest: Some(patched),
        ..cache
    })
}
