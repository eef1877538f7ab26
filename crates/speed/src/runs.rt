// A session reads register 10, writes it or switches the mode, which that register is, once for each
// frame. The motor answers each frame at once. The checksum has what the calls tell and
// all that a frame may change.
use crate::frames::of_motor_1_in_d0;
use crate::sessions::{frame_of, session_4310, session_total};
use crate::sums::mixed;
use crate::ways::{RunTold, Way};
use motor_core::bus::CanFrame;
use protocol_frame::data_bytes;
use registers::value_bits;
use run_machine::{Outcome, RunResult};
use run_want::{Answer, Want};
use session::Session;
use session_step::{Told, Wanted};
use time::{Duration, Instant};

// As closures the three would each take the line, the frame and the place.
#[derive(Clone, Copy)]
pub(crate) enum Kind {
    Read,
    Write,
    Switch,
}

// A session with what it was told last, the value of the motor's register 10, the clock, and the
// checksum of what was told so far.
#[derive(Clone, Copy)]
struct Line {
    session: Session,
    told: RunTold,
    value: u32,
    now: Instant,
    sum: u64,
}

// The value that a frame carries, the lowest byte first.
fn value_in(data: [u8; 8]) -> u32 {
    u32::from_le_bytes([data[4], data[5], data[6], data[7]])
}

// The motor sends every frame back, with its own low four bits in d0; a read comes back with the value.
fn motor_frame(value: u32, data: u64) -> CanFrame {
    let mut bytes = data_bytes(data);
    if bytes[2] == 0x33 {
        bytes[4..].copy_from_slice(&value.to_le_bytes());
    }
    bytes[0] = of_motor_1_in_d0(bytes[0]);
    frame_of(bytes)
}

// The value after a frame: a write sets it.
fn value_after(value: u32, data: u64) -> u32 {
    let bytes = data_bytes(data);
    if bytes[2] == 0x55 {
        value_in(bytes)
    } else {
        value
    }
}

fn result_number(res: RunResult) -> u64 {
    match res {
        Ok(Outcome::Done) => 1,
        Ok(Outcome::Value(value)) => u64::from(value_bits(value)),
        Ok(Outcome::State(Some(_))) => 2,
        Ok(Outcome::State(None)) => 3,
        Err(_) => 4,
    }
}

fn want_total(sum: u64, want: Wanted) -> u64 {
    match want {
        Want::Clock => sum,
        Want::Send(command) => mixed(mixed(sum, u64::from(command.arbitration_id)), command.data),
        Want::Sleep(length) => mixed(sum, length.0),
    }
}

fn told_total(sum: u64, told: RunTold) -> u64 {
    match told {
        Ok(Told::Want(want)) => want_total(sum, want),
        Ok(Told::Result(result)) => mixed(sum, result_number(result)),
        Err(refusal) => mixed(sum, u64::from(u8::from(refusal))),
    }
}

// What a call told.
fn hear(line: &mut Line, told: RunTold) {
    line.told = told;
    line.sum = told_total(line.sum, told);
}

fn clock_read<W: Way>(line: &mut Line) {
    let told = W::answer(&mut line.session, Answer::Reading(line.now));
    hear(line, told);
}

fn sent<W: Way>(line: &mut Line, data: u64) {
    W::take(&mut line.session, motor_frame(line.value, data), line.now);
    let told = W::answer(&mut line.session, Answer::Send(Ok(())));
    hear(line, told);
    line.value = value_after(line.value, data);
}

fn slept<W: Way>(line: &mut Line, length: Duration) {
    let told = W::answer(&mut line.session, Answer::Slept);
    hear(line, told);
    line.now = Instant(line.now.0.wrapping_add(length.0));
}

// Does what is wanted, if anything is, and says so.
fn answered<W: Way>(line: &mut Line) {
    match line.told {
        Ok(Told::Want(Want::Clock)) => clock_read::<W>(line),
        Ok(Told::Want(Want::Send(command))) => sent::<W>(line, command.data),
        Ok(Told::Want(Want::Sleep(length))) => slept::<W>(line, length),
        _ => {}
    }
}

// A run whose frames are answered at once is over after so many answers.
fn answer_all<W: Way>(line: &mut Line, count: u64) {
    for _ in 0..count {
        answered::<W>(line);
    }
}

// The run of a place. The motor has the frame's value if it is read; a write is of it; a switch is to mode
// 2 if the place is even, else to 1. The readings of a read or a write are its place; of switches the clock
// stands but for sleeps.
fn one_run<W: Way>(kind: Kind, line: &mut Line, data: [u8; 8], place: u64) {
    match kind {
        Kind::Read => {
            line.value = value_in(data);
            line.now = Instant(place);
            let told = W::read(&mut line.session);
            hear(line, told);
            answer_all::<W>(line, 2);
        }
        Kind::Write => {
            line.now = Instant(place);
            let told = W::write(&mut line.session, value_in(data));
            hear(line, told);
            answer_all::<W>(line, 2);
        }
        Kind::Switch => {
            let told = W::switch(&mut line.session, (2 - place % 2) as u32);
            hear(line, told);
            answer_all::<W>(line, 19);
        }
    }
}

// The motor is in mode 1.
fn at_first(session: Session) -> Line {
    Line {
        session,
        told: Ok(Told::Want(Want::Clock)),
        value: 1,
        now: Instant(0),
        sum: 0,
    }
}

fn runs_total<W: Way>(kind: Kind, session: Session, frames: &[[u8; 8]]) -> u64 {
    let mut line = at_first(session);
    for (place, data) in frames.iter().enumerate() {
        one_run::<W>(kind, &mut line, *data, place as u64);
    }
    mixed(line.sum, session_total(line.session))
}

pub(crate) fn run_all<W: Way>(kind: Kind, frames: &[[u8; 8]]) -> u64 {
    session_4310().map_or(0, |session| runs_total::<W>(kind, session, frames))
}
