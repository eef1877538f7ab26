// What a session makes of a frame, at the ends of what is taken and counted.
use crate::{line, number, text};
use model_damiao::damiao_models;
use motor_core::bus::CanFrame;
use motor_core::error::Refusal;
use motor_core::model::Maxima;
use session::Session;
use session::start::{from_limits, from_model};
use session_frame::AfterFrame;
use session_lent::take_frame;
use state_cache::{Entry, cached_entry};
use std::io::Print;
use time::Instant;

const FEEDBACK: u64 = 0x1100_0000_0000_1e28;

const TEN_IS_ONE: u64 = 0x0100_330a_0100_0000;

// The same of motor 17, and with the d0 and d1 of the motor 0xF11, which there is not.
const REPLY_OF_17: u64 = 0x1100_330a_0100_0000;

const REPLY_OF_NO_MOTOR: u64 = 0x110f_330a_0100_0000;

fn with_limit(motor_id: u16, p_max: f32) -> Result<Session, Refusal> {
    let maxima = Maxima {
        p_max,
        v_max: 30.0,
        t_max: 10.0,
    };
    from_limits(motor_id, 0x11, maxima)
}

pub(crate) fn started() -> Result<Session, Refusal> {
    of_motor(1)
}

pub(crate) fn of_motor(motor_id: u16) -> Result<Session, Refusal> {
    with_limit(motor_id, 12.5)
}

fn frame_on(arbitration_id: u32, data: u64) -> CanFrame {
    CanFrame {
        arbitration_id,
        data: protocol_frame::data_bytes(data),
        dlc: 8,
        is_extended: false,
    }
}

pub(crate) fn take(session: Session, data: u64, reading: u64) -> AfterFrame {
    take_frame(session, frame_on(0x11, data), Instant(reading))
}

// The number of the latest record, 0 if there is none.
fn record_number(session: Session) -> u64 {
    session::latest_state_snapshot(session.head).map_or(0, |snapshot| snapshot.sequence)
}

// The refusal's number, 0 if there is none.
fn refusal<T>(outcome: Result<T, Refusal>) -> u64
where
    T: Drop,
{
    match outcome {
        Ok(_) => 0,
        Err(refusal) => number(refusal),
    }
}

// The number that the next record has.
fn next_sequence(rt: &impl Print, name: &[u8], session: Session, reading: u64) -> Session {
    let session = take(session, FEEDBACK, reading).session;
    line(rt, name, record_number(session));
    session
}

// The number of the record that the second last and the last number lead to.
fn numbers_end(rt: &impl Print) -> Result<(), Refusal> {
    let mut session = started()?;
    session.head.feedback.sequence = u64::MAX - 1;
    let session = next_sequence(rt, b"after number FFFFFFFFFFFFFFFE comes ", session, 1);
    next_sequence(rt, b"and after that ", session, 2);
    Ok(())
}

// A frame with this reading after one at 5.
fn reading(rt: &impl Print, name: &[u8], reading: u64) -> Result<(), Refusal> {
    let session = take(started()?, FEEDBACK, 5).session;
    line(rt, name, refusal(take(session, FEEDBACK, reading).told));
    Ok(())
}

fn patch_with_none(rt: &impl Print) -> Result<(), Refusal> {
    let patched = session::patch_latest(started()?, 0, 0, 0).told;
    line(
        rt,
        b"a patch before the first record answers ",
        u64::from(patched),
    );
    Ok(())
}

// What is cached of a register's reply after one of register 10: its bits, or 0 with none; or the refusal.
fn cached(rt: &impl Print, name: &[u8], rid: u8) -> Result<(), Refusal> {
    let session = take(started()?, TEN_IS_ONE, 5).session;
    match cached_entry(session.replies, rid) {
        Ok(entry) => line(rt, name, bits_of(entry)),
        Err(refusal) => {
            text(rt, name);
            line(rt, b"refused ", number(refusal));
        }
    }
    Ok(())
}

fn bits_of(entry: Entry) -> u64 {
    match entry {
        Entry::Empty => 0,
        Entry::Held(value, _) => u64::from(registers::value_bits(value)),
    }
}

// A frame on an id, with this reading, after one at 5.
fn other(rt: &impl Print, name: &[u8], id: u32, data: u64, reading: u64) -> Result<(), Refusal> {
    let session = take(started()?, FEEDBACK, 5).session;
    let after = take_frame(session, frame_on(id, data), Instant(reading));
    line(rt, name, refusal(after.told));
    Ok(())
}

fn others(rt: &impl Print) -> Result<(), Refusal> {
    other(rt, b"refusal of 11 0F 33 0A: ", 0x11, REPLY_OF_NO_MOTOR, 5)?;
    other(rt, b"of motor 17's reply: ", 0x11, REPLY_OF_17, 5)?;
    other(rt, b"before the last reading: ", 0x11, REPLY_OF_17, 4)?;
    other(
        rt,
        b"of motor 17's feedback on its own id: ",
        0x21,
        FEEDBACK,
        5,
    )?;
    other(rt, b"the same on the feedback id: ", 0x11, FEEDBACK, 5)?;
    let session = take(started()?, REPLY_OF_17, 9).session;
    line(
        rt,
        b"after a refused frame at 9, of one at 1: ",
        refusal(take(session, FEEDBACK, 1).told),
    );
    Ok(())
}

// The refusal of a start with the motor id 500.
fn limit_refusal(rt: &impl Print, name: &[u8], p_max: f32) {
    line(rt, name, refusal(with_limit(0x500, p_max)));
}

fn model_refusal(rt: &impl Print, name: &[u8], model: &[u8]) {
    line(
        rt,
        name,
        refusal(from_model(0x500, 0x11, &damiao_models(), model)),
    );
}

pub(crate) fn run(rt: &impl Print) -> Result<(), Refusal> {
    numbers_end(rt)?;
    cached(rt, b"register 10 after 01 00 33 0A: ", 10)?;
    cached(rt, b"register 9: ", 9)?;
    cached(rt, b"register 37: ", 37)?;
    readings(rt)?;
    others(rt)?;
    patch_with_none(rt)?;
    limit_refusal(rt, b"start with limit 0 and motor id 500: ", 0.0);
    model_refusal(rt, b"with an unknown name and motor id 500: ", b"4311");
    model_refusal(rt, b"with motor id 500: ", b"4310");
    Ok(())
}

fn readings(rt: &impl Print) -> Result<(), Refusal> {
    reading(rt, b"after reading 5, refusal of 5: ", 5)?;
    reading(rt, b"of 4: ", 4)?;
    reading(rt, b"of 4000000000000000: ", 0x4000_0000_0000_0000)?;
    reading(rt, b"of 4000000000000001: ", 0x4000_0000_0000_0001)
}
