// `ensure_control_mode` around its writes of the mode: the confirmed write, the settling sleep, and on to
// the verifying read. `verifies_left` is the number of verifying reads after the next one, and goes beside
// the progress for the reason in `switch_step`.
#![tactic(auto)]

ghost use Rattle.std.specs.Prelude.{◌≡◌};
ghost use Rattle.switch_write.specs.WriteMode as Spec;

use protocol_hold::ControlMode;
use run_want::Stepped;
use run_write::{Write, first_try};
use std::ops::ControlFlow;
use switch_finish::{Finishing, finish};
use switch_prepare::Prepare;
use switch_stage::{ModeRead, Progress, Stage, Switch, goes};
use switch_time::{mode_read_cap, sleep_up_to_reserving};
use time::{Duration, Instant};

const ENSURE_MODE_VERIFY_ATTEMPTS: u8 = 3;

pub fn write_mode(verifies_left: u8, progress: Progress) -> Stepped<Switch, ()>
    ensures { result ≡ Spec.write_mode verifies_left progress }
{
    goes(progress, Stage::Writing(verifies_left, first_try()))
}

// After a step of the preparation: it goes on, or the mode is written.
pub fn after_prepare(next: Prepare) -> Stepped<Switch, ()>
    ensures { result ≡ Spec.after_prepare next }
{
    match next {
        ControlFlow::Continue((progress, stage)) => goes(progress, stage),
        ControlFlow::Break(progress) => write_mode(ENSURE_MODE_VERIFY_ATTEMPTS - 1, progress),
    }
}

// After a step of the write.
pub fn after_mode_write(
    verifies_left: u8,
    progress: Progress,
    next: Stepped<Write, ()>,
) -> Stepped<Switch, ()>
    ensures { result ≡ Spec.after_mode_write verifies_left progress next }
{
    match next? {
        ControlFlow::Continue(write) => goes(progress, Stage::Writing(verifies_left, write)),
        ControlFlow::Break(()) => goes(progress, Stage::SettleRemaining(verifies_left)),
    }
}

// After the finish: the hold frame, or the verifying read.
pub fn after_finish(verifies_left: u8, progress: Progress, next: Finishing) -> Stepped<Switch, ()>
    ensures { result ≡ Spec.after_finish verifies_left progress next }
{
    match next {
        Finishing::Holds => goes(progress, Stage::Holding(verifies_left)),
        Finishing::Done => goes(progress, Stage::Remaining(ModeRead::Verify(verifies_left))),
    }
}

// What follows the settling sleep, or the reading that leaves no time for one.
pub fn after_settling(
    mode: ControlMode,
    verifies_left: u8,
    progress: Progress,
) -> Stepped<Switch, ()>
    ensures { result ≡ Spec.after_settling mode verifies_left progress }
{
    after_finish(
        verifies_left,
        progress,
        finish(mode, progress.hold_position),
    )
}

// The settling sleep, as long as there is time for it.
pub fn settle_sleep(
    mode: ControlMode,
    timeout: Duration,
    verifies_left: u8,
    progress: Progress,
    now: Instant,
) -> Stepped<Switch, ()>
    ensures { result ≡ Spec.settle_sleep mode timeout verifies_left progress now }
{
    match sleep_up_to_reserving(progress.deadline, mode_read_cap(timeout), now) {
        None => after_settling(mode, verifies_left, progress),
        Some(length) => goes(progress, Stage::SettleSleep(verifies_left, length)),
    }
}
