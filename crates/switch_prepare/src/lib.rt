// `prepare_for_mode_switch`: the position to hold is read, and every mode's setpoint is cleared.
#![tactic(auto)]

ghost use Rattle.std.specs.Prelude.{◌≡◌};
ghost use Rattle.switch_prepare.specs.Prepare as Spec;

use float::F32Bits;
use protocol_hold::ControlMode;
use registers::{RegisterValue, value_bits};
use run_wait::ask::Ask;
use run_want::Stepped;
use std::ops::ControlFlow;
use switch_stage::{Progress, Stage};
use switch_time::{capped_remaining, hold_read_cap};
use time::{Duration, Instant};

// The preparation goes on, or it is over and the mode can be written.
pub type Prepare = ControlFlow<Progress, (Progress, Stage)>;

fn read_position(progress: Progress) -> Prepare
    ensures { result ≡ Spec.read_position progress }
{
    ControlFlow::Continue((progress, Stage::HoldRemaining))
}

fn reading_position(progress: Progress, length: Duration, ask: Ask) -> Prepare
    ensures { result ≡ Spec.reading_position progress length ask }
{
    ControlFlow::Continue((progress, Stage::HoldReading(length, ask)))
}

fn clear(progress: Progress, channel: ControlMode) -> Prepare
    ensures { result ≡ Spec.clear progress channel }
{
    ControlFlow::Continue((progress, Stage::Clearing(channel)))
}

// The position to hold is read, but for the velocity mode.
pub fn prepare(mode: ControlMode, progress: Progress) -> Prepare
    ensures { result ≡ Spec.prepare mode progress }
{
    match mode {
        ControlMode::Mit | ControlMode::PosVel | ControlMode::ForcePos => read_position(progress),
        ControlMode::Vel => clear(progress, ControlMode::Vel),
    }
}

// The read of the position, if there is time left for it.
pub fn hold_time(timeout: Duration, progress: Progress, now: Instant) -> Prepare
    ensures { result ≡ Spec.hold_time timeout progress now }
{
    match capped_remaining(progress.deadline, hold_read_cap(timeout), now) {
        None => clear(progress, ControlMode::Vel),
        Some(length) => reading_position(progress, length, Ask::Opening),
    }
}

// After a step of that read: a failure means no position.
pub fn after_hold_read(
    progress: Progress,
    length: Duration,
    next: Stepped<Ask, RegisterValue>,
) -> Prepare
    ensures { result ≡ Spec.after_hold_read progress length next }
{
    match next {
        Ok(ControlFlow::Continue(ask)) => reading_position(progress, length, ask),
        Ok(ControlFlow::Break(value)) => {
            let hold_position = Some(F32Bits(value_bits(value)));
            clear(
                Progress {
                    hold_position,
                    ..progress
                },
                ControlMode::Vel,
            )
        }
        Err(_) => clear(progress, ControlMode::Vel),
    }
}

// After a clearing frame, sent or not: the next one, and after MIT's the preparation is over.
pub fn cleared(channel: ControlMode, progress: Progress) -> Prepare
    ensures { result ≡ Spec.cleared channel progress }
{
    match channel {
        ControlMode::Vel => clear(progress, ControlMode::PosVel),
        ControlMode::PosVel => clear(progress, ControlMode::ForcePos),
        ControlMode::ForcePos => clear(progress, ControlMode::Mit),
        ControlMode::Mit => ControlFlow::Break(progress),
    }
}
