// The arguments of each start: the machine that the run begins with, or why they are refused. No session
// is looked at.
#![tactic(auto)]

ghost use Rattle.std.specs.Prelude.{◌≡◌};
ghost use Rattle.run_arguments.specs.Arguments as Spec;

use motor_core::error::Refusal;
use protocol_hold::ControlMode;
use registers::{
    RegisterAccess, RegisterDataType, RegisterValue, is_known, is_of_type, register_info,
};
use run_fresh::store::Store;
use run_machine::Machine;
use run_wait::ask::Ask;
use run_write::first_try;
use switch_stage::Switch;
use time::{Duration, accepts_timeout};

// The timeout, if it is accepted.
fn checked_timeout(timeout: Duration) -> Result<Duration, Refusal>
    ensures { result ≡ Spec.checked_timeout timeout }
{
    if !accepts_timeout(timeout) {
        return Err(Refusal::Timeout);
    }
    Ok(timeout)
}

pub fn get_start(
    data_type: RegisterDataType,
    rid: u8,
    timeout: Duration,
) -> Result<Machine, Refusal>
    ensures { result ≡ Spec.get_start data_type rid timeout }
{
    if !is_known(rid) {
        return Err(Refusal::Register);
    }
    let timeout = checked_timeout(timeout)?;
    Ok(Machine::GetRegister(data_type, rid, timeout, Ask::Opening))
}

pub fn write_start(rid: u8, value: RegisterValue) -> Result<Machine, Refusal>
    ensures { result ≡ Spec.write_start rid value }
{
    let info = register_info(rid).ok_or(Refusal::Register)?;
    match info.access {
        RegisterAccess::ReadOnly => Err(Refusal::ReadOnly),
        RegisterAccess::ReadWrite if !is_of_type(value, info.data_type) => Err(Refusal::ValueType),
        RegisterAccess::ReadWrite => Ok(Machine::WriteRegister(rid, value, first_try())),
    }
}

pub fn fresh_state_start(timeout: Duration) -> Result<Machine, Refusal>
    ensures { result ≡ Spec.fresh_state_start timeout }
{
    let timeout = checked_timeout(timeout)?;
    Ok(Machine::RequestFreshState(timeout, Ask::Opening))
}

pub fn store_start() -> Machine
    ensures { result ≡ Spec.store_start }
{
    Machine::StoreParameters(Store::Asking(Ask::Opening))
}

pub fn mode_start(mode: u32, timeout: Duration) -> Result<Machine, Refusal>
    ensures { result ≡ Spec.mode_start mode timeout }
{
    let mode = ControlMode::try_from(mode)?;
    let timeout = checked_timeout(timeout)?;
    Ok(Machine::EnsureControlMode(mode, timeout, Switch::Starting))
}
