// The starts of the runs on a session: refused while a run is open, or by their arguments. A start
// takes no reading; it returns the run's first want.
#![tactic(auto)]

ghost use Rattle.std.specs.Prelude.{◌≡◌};
ghost use Rattle.session_begin.specs.Begin.{begin};
ghost use Rattle.session_begin.specs.Begin as Spec;
ghost use Rattle.session_begin.specs.declared.Start.TheVariants.{
  GetRegisterU32,
  GetRegisterF32,
  WriteRegisterU32,
  WriteRegisterF32,
  RequestFreshState,
  StoreParameters,
  EnsureControlMode,
};

use float::F32Bits;
use motor_core::error::Refusal;
use registers::{RegisterDataType, RegisterValue, value_from_bits};
use run_arguments::{fresh_state_start, get_start, mode_start, store_start, write_start};
use run_machine::{Machine, machine_want};
use session::{After, Session};
use session_answer::AfterCall;
use session_step::{Told, caller_want};
use time::Duration;

// A run that is to be started, with its arguments.
#[derive(Clone, Copy)]
pub enum Start {
    GetRegisterU32(u8, Duration),
    GetRegisterF32(u8, Duration),
    WriteRegisterU32(u8, u32),
    WriteRegisterF32(u8, F32Bits),
    RequestFreshState(Duration),
    StoreParameters,
    EnsureControlMode(u32, Duration),
}

// The machine that a start's arguments make.
fn machine_of(start: Start) -> Result<Machine, Refusal>
    ensures { result ≡ Spec.machine_of start }
{
    match start {
        Start::GetRegisterU32(rid, timeout) => get_start(RegisterDataType::UInt32, rid, timeout),
        Start::GetRegisterF32(rid, timeout) => get_start(RegisterDataType::Float, rid, timeout),
        Start::WriteRegisterU32(rid, value) => write_start(rid, RegisterValue::UInt32(value)),
        Start::WriteRegisterF32(rid, value) => {
            write_start(rid, value_from_bits(RegisterDataType::Float, value.0))
        }
        Start::RequestFreshState(timeout) => fresh_state_start(timeout),
        Start::StoreParameters => Ok(store_start()),
        Start::EnsureControlMode(mode, timeout) => mode_start(mode, timeout),
    }
}

// The machine of a start, where no run is open.
fn start_step(run: Option<Machine>, start: Start) -> Result<Machine, Refusal>
    ensures { result ≡ Spec.start_step run start }
{
    if run.is_some() {
        return Err(Refusal::RunOpen);
    }
    machine_of(start)
}

// Opens a run in the session that is lent.
pub fn begin_lent(session: &mut Session, start: Start) -> Result<Told, Refusal>
    ensures told { result ≡ (begin session.old start).told }
    ensures session { session.new ≡ (begin session.old start).session }
{
    let machine = start_step(session.run, start)?;
    session.run = Some(machine);
    Ok(Told::Want(caller_want(session.head, machine_want(machine))))
}

// The same for a session that goes by value: it is lent for the start and handed back, in two lines for the
// reason at `After`.
fn begin(mut session: Session, start: Start) -> AfterCall
    ensures { result ≡ begin session start }
{
    let told = begin_lent(&mut session, start);
    After { session, told }
}

// Reads a register that holds a whole number; refused where a run is open, the register is unknown or the
// timeout too long.
pub fn get_register_u32(session: Session, rid: u8, timeout: Duration) -> AfterCall
    ensures { result ≡ begin session (GetRegisterU32 rid timeout) }
{
    begin(session, Start::GetRegisterU32(rid, timeout))
}

// Reads a register that holds a float; refused where a run is open, the register is unknown or the
// timeout too long.
pub fn get_register_f32(session: Session, rid: u8, timeout: Duration) -> AfterCall
    ensures { result ≡ begin session (GetRegisterF32 rid timeout) }
{
    begin(session, Start::GetRegisterF32(rid, timeout))
}

// Writes a whole number and waits for its ack; refused where a run is open, the register is unknown
// or can only be read, or holds the other type.
pub fn write_register_u32(session: Session, rid: u8, value: u32) -> AfterCall
    ensures { result ≡ begin session (WriteRegisterU32 rid value) }
{
    begin(session, Start::WriteRegisterU32(rid, value))
}

// Writes a float, given by its bits, and waits for its ack; refused where a run is open, the register is unknown
// or can only be read, or holds the other type.
pub fn write_register_f32(session: Session, rid: u8, value: F32Bits) -> AfterCall
    ensures { result ≡ begin session (WriteRegisterF32 rid value) }
{
    begin(session, Start::WriteRegisterF32(rid, value))
}

// Asks the motor for its state; refused where a run is open or the timeout is too long.
pub fn request_fresh_state(session: Session, timeout: Duration) -> AfterCall
    ensures { result ≡ begin session (RequestFreshState timeout) }
{
    begin(session, Start::RequestFreshState(timeout))
}

// Stores the motor's parameters, disabling it first if need be; refused where a run is open.
pub fn store_parameters(session: Session) -> AfterCall
    ensures { result ≡ begin session StoreParameters }
{
    begin(session, Start::StoreParameters)
}

// Switches the motor to a control mode, 1 to 4; refused where a run is open, the mode is another or
// the timeout too long.
pub fn ensure_control_mode(session: Session, mode: u32, timeout: Duration) -> AfterCall
    ensures { result ≡ begin session (EnsureControlMode mode timeout) }
{
    begin(session, Start::EnsureControlMode(mode, timeout))
}
