// What runs want and come to where it is easily believed otherwise; runs that no start makes.
use crate::sessions::{of_motor, started, take};
use crate::text;
use motor_core::error::Refusal;
use protocol_frame::Command;
use registers::RegisterDataType;
use run_machine::{Machine, Outcome, RunResult};
use run_wait::Wait;
use run_wait::ask::Ask;
use run_want::{Answer, Failure, SendError, Want};
use session::Session;
use session_answer::{AfterCall, answer_run};
use session_begin::{ensure_control_mode, get_register_f32, get_register_u32, write_register_u32};
use session_step::{Told, Wanted};
use std::io::Print;
use time::{Duration, Instant};

const MINUTE: Duration = Duration(60_000_000_000);

// Motor 1's reply of register 10, and its ack; each holds 1. Then an ack that holds 2.
const REPLY: u64 = 0x0100_330a_0100_0000;

const ACK: u64 = 0x0100_550a_0100_0000;

const ACK_TWO: u64 = 0x0100_550a_0200_0000;

// Replies of register 80: a NaN from motor 1, and from the motor 0x4FF the position that makes a frame
// which holds it the read of register 10.
const NAN_POSITION: u64 = 0x0100_3350_4523_c17f;

const POSITION_4FF: u64 = 0xff04_3350_ff04_330a;

// How a run begins: the calls on register 10, and the switch to a mode.
#[derive(Clone, Copy)]
enum Begin {
    GetU32(Duration),
    GetF32(Duration),
    WriteU32(u32),
    Mode(u32, Duration),
}

fn begun(motor_id: u16, begin: Begin) -> Result<AfterCall, Refusal> {
    let session = of_motor(motor_id)?;
    Ok(match begin {
        Begin::GetU32(timeout) => get_register_u32(session, 10, timeout),
        Begin::GetF32(timeout) => get_register_f32(session, 10, timeout),
        Begin::WriteU32(value) => write_register_u32(session, 10, value),
        Begin::Mode(mode, timeout) => ensure_control_mode(session, mode, timeout),
    })
}

fn put_told(rt: &impl Print, told: Told) {
    match told {
        Told::Want(want) => put_want(rt, want),
        Told::Result(result) => put_result(rt, result),
    }
}

fn put_want(rt: &impl Print, want: Wanted) {
    match want {
        Want::Clock => text(rt, b" clock"),
        Want::Send(command) => put_send(rt, command),
        Want::Sleep(_) => text(rt, b" sleep"),
    }
}

fn put_send(rt: &impl Print, command: Command) {
    let Command {
        arbitration_id,
        data,
    } = command;
    let _ = print!(rt; " send {arbitration_id:x} {data:016x}");
}

fn put_result(rt: &impl Print, res: RunResult) {
    match res {
        Ok(Outcome::Done) => text(rt, b" done"),
        Ok(Outcome::Value(_)) => text(rt, b" value"),
        Ok(Outcome::State(Some(_))) => text(rt, b" state"),
        Ok(Outcome::State(None)) => text(rt, b" no state"),
        Err(failure) => put_failure(rt, failure),
    }
}

fn put_failure(rt: &impl Print, failure: Failure) {
    match failure {
        Failure::Timeout => text(rt, b" timeout"),
        Failure::Mismatch(_) => text(rt, b" mismatch"),
        Failure::WrongType => text(rt, b" wrong type"),
        Failure::SendFailed => text(rt, b" send failed"),
    }
}

// Prints what a start or an answer returns.
fn told(rt: &impl Print, after: AfterCall) -> Session {
    match after.told {
        Ok(told) => put_told(rt, told),
        Err(_) => text(rt, b" refused"),
    }
    after.session
}

// A step by its letter, so that a run stands on one line: a frame, stamped 6, or an answer, of which a
// reading is 5 to 7.
fn step(rt: &impl Print, session: Session, letter: u8) -> Session {
    if let Some(data) = frame_of(letter) {
        return take(session, data, 6).session;
    }
    told(rt, answer_run(session, answer_of(letter)))
}

fn frame_of(letter: u8) -> Option<u64> {
    match letter {
        b'r' => Some(REPLY),
        b'a' => Some(ACK),
        b'b' => Some(ACK_TWO),
        b'n' => Some(NAN_POSITION),
        b'p' => Some(POSITION_4FF),
        _ => None,
    }
}

fn answer_of(letter: u8) -> Answer {
    match letter {
        b'5' => Answer::Reading(Instant(5)),
        b'6' => Answer::Reading(Instant(6)),
        b'7' => Answer::Reading(Instant(7)),
        b't' => Answer::Send(Err(SendError::Timeout)),
        b'f' => Answer::Send(Err(SendError::Failed)),
        b'z' => Answer::Slept,
        _ => Answer::Send(Ok(())),
    }
}

fn steps(rt: &impl Print, mut session: Session, letters: &[u8]) {
    for letter in letters {
        session = step(rt, session, *letter);
    }
}

// A run of this motor from its beginning on, and what each of its steps returns.
fn play(
    rt: &impl Print,
    name: &[u8],
    motor_id: u16,
    begin: Begin,
    letters: &[u8],
) -> Result<(), Refusal> {
    let begun = begun(motor_id, begin)?;
    text(rt, name);
    steps(rt, told(rt, begun), letters);
    text(rt, b"\n");
    Ok(())
}

// A mode switch of motor 1.
fn switch(
    rt: &impl Print,
    name: &[u8],
    mode: u32,
    timeout: Duration,
    letters: &[u8],
) -> Result<(), Refusal> {
    play(rt, name, 1, Begin::Mode(mode, timeout), letters)
}

fn switches(rt: &impl Print) -> Result<(), Refusal> {
    // A failed send in a mode read ends the switch only where it did not time out.
    switch(
        rt,
        b"a switch, its first send failed as timeout:",
        1,
        MINUTE,
        b"555t",
    )?;
    switch(rt, b"otherwise:", 1, MINUTE, b"555f")?;
    // At the deadline 0 ns remain, and the mode is still read.
    switch(rt, b"a switch at its deadline:", 1, Duration(0), b"555s5")?;
    switch(rt, b"past it:", 1, Duration(0), b"57")?;
    // The velocity mode's switch does not read register 80.
    switch(rt, b"to the velocity mode:", 3, MINUTE, b"555tssss")?;
    // A NaN's bits travel, to the frames that clear and to the one that holds.
    switch(
        rt,
        b"with the position 7FC12345:",
        2,
        MINUTE,
        b"555t55nssssssb66z",
    )?;
    // A clearing frame may have the read's id and bytes.
    play(
        rt,
        b"motor 4FF, position 0A3304FF:",
        0x4ff,
        Begin::Mode(1, MINUTE),
        b"555t55pssss",
    )
}

// A session with this read open, answered once.
fn made_up(
    rt: &impl Print,
    name: &[u8],
    rid: u8,
    timeout: Duration,
    ask: Ask,
    answer: Answer,
) -> Result<(), Refusal> {
    let mut session = started()?;
    text(rt, name);
    session.run = Some(Machine::GetRegister(RegisterDataType::UInt32, rid, timeout, ask));
    told(rt, answer_run(session, answer));
    text(rt, b"\n");
    Ok(())
}

pub(crate) fn run(rt: &impl Print) -> Result<(), Refusal> {
    // A read opens before its send: a reply that comes between the two counts.
    play(
        rt,
        b"a read, its reply before the sent:",
        1,
        Begin::GetU32(MINUTE),
        b"5rs",
    )?;
    // A write opens after its send: an ack that comes before the opening does not count.
    play(
        rt,
        b"a write, its ack before the sent:",
        1,
        Begin::WriteU32(1),
        b"as7",
    )?;
    // Register 10 holds a whole number; reading it as a float is sent all the same.
    play(
        rt,
        b"register 10 as a float, with its reply:",
        1,
        Begin::GetF32(Duration(0)),
        b"5rs",
    )?;
    play(rt, b"without:", 1, Begin::GetF32(Duration(0)), b"5s5")?;
    switches(rt)?;
    made_up_runs(rt)
}

fn made_up_runs(rt: &impl Print) -> Result<(), Refusal> {
    made_up(
        rt,
        b"opening FFFFFFFFFFFFFFFF, length 3, reading 5:",
        10,
        Duration(3),
        Ask::Waiting(Wait::Checking(Instant(u64::MAX))),
        Answer::Reading(Instant(5)),
    )?;
    made_up(
        rt,
        b"opening 5, length FFFFFFFFFFFFFFFF, reading 5:",
        10,
        Duration(u64::MAX),
        Ask::Waiting(Wait::Checking(Instant(5))),
        Answer::Reading(Instant(5)),
    )?;
    made_up(
        rt,
        b"register FF, a look:",
        255,
        MINUTE,
        Ask::Sending(Instant(0)),
        Answer::Send(Ok(())),
    )
}
