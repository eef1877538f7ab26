// The stages of a mode switch: what a switch keeps, what each stage wants and where it looks. A session
// holds one of them while a switch is open.
#![tactic(auto)]

ghost use Rattle.std.specs.Prelude.{◌≡◌};
ghost use Rattle.switch_stage.specs.Stage as Spec;

use float::F32Bits;
use protocol_hold::ControlMode;
use registers::RegisterValue;
use run_read::read_want;
use run_wait::ask::Ask;
use run_want::message::Message;
use run_want::{Failure, Stepped, Want};
use run_write::{Write, write_want};
use state_cache::Place;
use std::ops::ControlFlow;
use time::{Duration, Instant};

const MODE_REGISTER: u8 = 10;

const POSITION_REGISTER: u8 = 80;

// What a switch keeps from its first reading on. The position to hold is a float by its bits.
#[derive(Clone, Copy)]
pub struct Progress {
    pub deadline: Instant,
    pub hold_position: Option<F32Bits>,
    pub last_error: Failure,
}

// The first read of the mode, or one that verifies it, with the number of those after it.
// As an `Option`, the first read would have no name.
#[derive(Clone, Copy)]
pub enum ModeRead {
    First,
    Verify(u8),
}

// Named after what each wants: `..Remaining` the clock, to know the time that is left; a read, a frame,
// a write, a sleep. The number in the last four is that of the verifying reads after the next one.
#[derive(Clone, Copy)]
pub enum Stage {
    Remaining(ModeRead),
    Reading(ModeRead, Duration, Ask),
    HoldRemaining,
    HoldReading(Duration, Ask),
    Clearing(ControlMode),
    Writing(u8, Write),
    SettleRemaining(u8),
    SettleSleep(u8, Duration),
    Holding(u8),
}

// Before its first reading a switch keeps nothing.
// A phase of a run as the others are: as an `Option`, the first would have no name.
#[derive(Clone, Copy)]
pub enum Switch {
    Starting,
    Begun(Progress, Stage),
}

// With no position to hold it is 0.0.
fn hold_message(mode: ControlMode, progress: Progress) -> Message
    ensures { result ≡ Spec.hold_message mode progress }
{
    Message::Setpoint(mode, progress.hold_position.unwrap_or(F32Bits(0)))
}

pub fn mode_value(mode: ControlMode) -> RegisterValue
    ensures { result ≡ Spec.mode_value mode }
{
    RegisterValue::UInt32(u32::from(mode))
}

#[inline(always)]
fn stage_want(mode: ControlMode, progress: Progress, stage: Stage) -> Want<Message>
    ensures { result ≡ Spec.stage_want mode progress stage }
{
    match stage {
        Stage::Remaining(_) => Want::Clock,
        Stage::Reading(_, _, ask) => read_want(MODE_REGISTER, ask),
        Stage::HoldRemaining => Want::Clock,
        Stage::HoldReading(_, ask) => read_want(POSITION_REGISTER, ask),
        Stage::Clearing(channel) => Want::Send(hold_message(channel, progress)),
        Stage::Writing(_, write) => write_want(MODE_REGISTER, mode_value(mode), write),
        Stage::SettleRemaining(_) => Want::Clock,
        Stage::SettleSleep(_, length) => Want::Sleep(length),
        Stage::Holding(_) => Want::Send(hold_message(mode, progress)),
    }
}

// Inlined, as `stage_want`, for the reason at `machine_want`.
#[inline(always)]
pub fn switch_want(mode: ControlMode, switch: Switch) -> Want<Message>
    ensures { result ≡ Spec.switch_want mode switch }
{
    match switch {
        Switch::Starting => Want::Clock,
        Switch::Begun(progress, stage) => stage_want(mode, progress, stage),
    }
}

fn stage_place(stage: Stage) -> Option<Place>
    ensures { result ≡ Spec.stage_place stage }
{
    match stage {
        Stage::Reading(_, _, _) => Some(Place::Reply(MODE_REGISTER)),
        Stage::HoldReading(_, _) => Some(Place::Reply(POSITION_REGISTER)),
        Stage::Writing(_, _) => Some(Place::Ack(MODE_REGISTER)),
        Stage::Remaining(_)
        | Stage::HoldRemaining
        | Stage::Clearing(_)
        | Stage::SettleRemaining(_)
        | Stage::SettleSleep(_, _)
        | Stage::Holding(_) => None,
    }
}

pub fn switch_place(switch: Switch) -> Option<Place>
    ensures { result ≡ Spec.switch_place switch }
{
    match switch {
        Switch::Starting => None,
        Switch::Begun(_, stage) => stage_place(stage),
    }
}

// On to a stage.
pub fn goes(progress: Progress, stage: Stage) -> Stepped<Switch, ()>
    ensures { result ≡ Spec.goes progress stage }
{
    Ok(ControlFlow::Continue(Switch::Begun(progress, stage)))
}
