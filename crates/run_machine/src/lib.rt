// The machine of each run: where it stands, what it wants and where it looks; and what a run can end
// with.
#![tactic(auto)]

ghost use Rattle.std.specs.Prelude.{◌≡◌};
ghost use Rattle.run_machine.specs.Machine as Spec;

use protocol_hold::ControlMode;
use registers::{RegisterDataType, RegisterValue};
use run_fresh::state_want;
use run_fresh::store::{Store, store_want};
use run_read::read_want;
use run_wait::ask::Ask;
use run_want::message::Message;
use run_want::{Failure, Want};
use run_write::{Write, write_want};
use state_cache::Place;
use state_feedback::MotorFeedbackState;
use switch_stage::{Switch, switch_place, switch_want};
use time::Duration;

// The run's own arguments, then its phase.
#[derive(Clone, Copy)]
pub enum Machine {
    GetRegister(RegisterDataType, u8, Duration, Ask),
    WriteRegister(u8, RegisterValue, Write),
    RequestFreshState(Duration, Ask),
    StoreParameters(Store),
    EnsureControlMode(ControlMode, Duration, Switch),
}

// What a run ends with, if it does not fail.
#[derive(Clone, Copy)]
pub enum Outcome {
    Done,
    Value(RegisterValue),
    State(Option<MotorFeedbackState>),
}

pub type RunResult = Result<Outcome, Failure>;

// Inlined, with the wants of a switch and the step of a write, so that an answer copies no machine for a call.
#[inline(always)]
pub fn machine_want(machine: Machine) -> Want<Message>
    ensures { result ≡ Spec.machine_want machine }
{
    match machine {
        Machine::GetRegister(_, rid, _, ask) => read_want(rid, ask),
        Machine::WriteRegister(rid, value, write) => write_want(rid, value, write),
        Machine::RequestFreshState(_, ask) => state_want(ask),
        Machine::StoreParameters(store) => store_want(store),
        Machine::EnsureControlMode(mode, _, switch) => switch_want(mode, switch),
    }
}

pub fn machine_place(machine: Machine) -> Option<Place>
    ensures { result ≡ Spec.machine_place machine }
{
    match machine {
        Machine::GetRegister(_, rid, _, _) => Some(Place::Reply(rid)),
        Machine::WriteRegister(rid, _, _) => Some(Place::Ack(rid)),
        Machine::RequestFreshState(_, _) => None,
        Machine::StoreParameters(_) => None,
        Machine::EnsureControlMode(_, _, switch) => switch_place(switch),
    }
}
