// The mode switch, `ensure_control_mode`: the reads of the mode, and the step from stage to stage.
#![tactic(auto)]

ghost use Rattle.std.specs.Prelude.{◌≡◌};
ghost use Rattle.switch_step.specs.Switch as Spec;

use protocol_hold::ControlMode;
use registers::{RegisterDataType, RegisterValue, register_value_matches};
use run_read::get_step;
use run_wait::ask::Ask;
use run_want::{Answer, Failure, Stepped, reading_of, send_outcome};
use run_write::write_step;
use state_cache::Entry;
use std::ops::ControlFlow;
use switch_finish::Finishing;
use switch_prepare::{after_hold_read, cleared, hold_time, prepare};
use switch_stage::{ModeRead, Progress, Stage, Switch, goes, mode_value};
use switch_time::{capped_remaining, deadline_after, mode_read_cap};
use switch_write::{
    after_finish, after_mode_write, after_prepare, after_settling, settle_sleep, write_mode,
};
use time::{Duration, Instant};

// Before its first read, that it ran out of time.
fn started(deadline: Instant) -> Stepped<Switch, ()>
    ensures { result ≡ Spec.started deadline }
{
    let progress = Progress {
        deadline,
        hold_position: None,
        last_error: Failure::Timeout,
    };
    goes(progress, Stage::Remaining(ModeRead::First))
}

fn in_mode_read(
    which: ModeRead,
    progress: Progress,
    length: Duration,
    ask: Ask,
) -> Stepped<Switch, ()>
    ensures { result ≡ Spec.in_mode_read which progress length ask }
{
    goes(progress, Stage::Reading(which, length, ask))
}

// A read of the mode did not find it.
fn not_yet(
    mode: ControlMode,
    which: ModeRead,
    progress: Progress,
    last_error: Failure,
) -> Stepped<Switch, ()>
    ensures { result ≡ Spec.not_yet mode which (Spec.with_error progress last_error) }
{
    let progress = Progress {
        last_error,
        ..progress
    };
    match which {
        ModeRead::First => after_prepare(prepare(mode, progress)),
        ModeRead::Verify(0) => Err(last_error),
        ModeRead::Verify(verifies_left) => write_mode(verifies_left - 1, progress),
    }
}

// A timeout of a mode read is no end; any other failure is.
fn after_mode_read(
    mode: ControlMode,
    which: ModeRead,
    progress: Progress,
    length: Duration,
    next: Stepped<Ask, RegisterValue>,
) -> Stepped<Switch, ()>
    ensures { result ≡ Spec.after_mode_read mode which progress length next }
{
    match next {
        Ok(ControlFlow::Continue(ask)) => in_mode_read(which, progress, length, ask),
        Ok(ControlFlow::Break(got)) if register_value_matches(got, mode_value(mode)) => Ok(
            ControlFlow::Break(()),
        ),
        Ok(ControlFlow::Break(got)) => not_yet(mode, which, progress, Failure::Mismatch(got)),
        Err(Failure::Timeout) => not_yet(mode, which, progress, Failure::Timeout),
        Err(failure) => Err(failure),
    }
}

// Past the deadline no read is tried, and the result is the last error.
fn mode_time(
    timeout: Duration,
    which: ModeRead,
    progress: Progress,
    now: Instant,
) -> Stepped<Switch, ()>
    ensures { result ≡ Spec.mode_time timeout which progress now }
{
    match capped_remaining(progress.deadline, mode_read_cap(timeout), now) {
        None => Err(progress.last_error),
        Some(length) => in_mode_read(which, progress, length, Ask::Opening),
    }
}

// `entry` is what the stage's place holds. What a stage counts goes beside the progress: as a struct the
// two would be put together in six arms here and taken apart by each `goes`. Of mode and timeout most
// functions want one.
fn stage_step(
    mode: ControlMode,
    timeout: Duration,
    entry: Entry,
    progress: Progress,
    stage: Stage,
    answer: Answer,
) -> Stepped<Switch, ()>
    ensures { result ≡ Spec.stage_step mode timeout entry progress stage answer }
{
    match stage {
        Stage::Remaining(which) => mode_time(timeout, which, progress, reading_of(answer)),
        Stage::Reading(which, length, ask) => after_mode_read(
            mode,
            which,
            progress,
            length,
            get_step(RegisterDataType::UInt32, length, entry, ask, answer),
        ),
        Stage::HoldRemaining => after_prepare(hold_time(timeout, progress, reading_of(answer))),
        Stage::HoldReading(length, ask) => after_prepare(after_hold_read(
            progress,
            length,
            get_step(RegisterDataType::Float, length, entry, ask, answer),
        )),
        Stage::Clearing(channel) => after_prepare(cleared(channel, progress)),
        Stage::Writing(verifies_left, write) => after_mode_write(
            verifies_left,
            progress,
            write_step(mode_value(mode), entry, write, answer),
        ),
        Stage::SettleRemaining(verifies_left) => settle_sleep(
            mode,
            timeout,
            verifies_left,
            progress,
            reading_of(answer),
        ),
        Stage::SettleSleep(verifies_left, _) => after_settling(mode, verifies_left, progress),
        Stage::Holding(verifies_left) => {
            send_outcome(answer)?;
            after_finish(verifies_left, progress, Finishing::Done)
        }
    }
}

pub fn switch_step(
    mode: ControlMode,
    timeout: Duration,
    entry: Entry,
    switch: Switch,
    answer: Answer,
) -> Stepped<Switch, ()>
    ensures { result ≡ Spec.switch_step mode timeout entry switch answer }
{
    match switch {
        Switch::Starting => started(deadline_after(reading_of(answer), timeout)),
        Switch::Begun(progress, stage) => stage_step(mode, timeout, entry, progress, stage, answer),
    }
}
