// Bench cases that are run and not proved, and what no line of the script reaches. Each line is a name
// and what came out.
#![tactic(auto)]

mod running;
mod sessions;

use float::F32Bits;
use model_damiao::damiao_models;
use model_list::{Names, model_limits};
use model_query::Query;
use model_shown::display_models;
use model_suggest::suggest_models_by_limits;
use motor_core::error::Refusal;
use motor_core::model::Maxima;
use motor_core::name::Name;
use protocol_setpoint::MitSetpoint;
use std::io::Print;

pub(crate) fn text(rt: &impl Print, words: &[u8]) {
    let _ = rt.write_all(words);
}

pub(crate) fn line(rt: &impl Print, name: &[u8], number: u64) {
    text(rt, name);
    let _ = println!(rt; "{number:x}");
}

// The same limit three times.
fn alike(limit: F32Bits) -> Maxima {
    let max = float::of_bits(limit);
    Maxima {
        p_max: max,
        v_max: max,
        t_max: max,
    }
}

// The position code that an MIT frame carries.
fn position_code(limit: F32Bits, position: f32) -> u64 {
    let setpoint = MitSetpoint {
        target_position: position,
        target_velocity: 0.0,
        stiffness: 0.0,
        damping: 0.0,
        feedforward_torque: 0.0,
    };
    match protocol_setpoint::mit_cmd(1, alike(limit), setpoint) {
        Ok(command) => command.data / 0x1_0000_0000_0000,
        Err(refusal) => number(refusal),
    }
}

// The position that a code decodes to.
fn position(limit: F32Bits, d1: u8, d2: u8) -> f32 {
    match protocol_feedback::decode_feedback(alike(limit), [0, d1, d2, 0, 0, 0, 0, 0]) {
        Ok(feedback) => feedback.pos,
        Err(_) => 0.0,
    }
}

pub(crate) fn number(refusal: Refusal) -> u64 {
    u64::from(u8::from(refusal))
}

fn bits(x: f32) -> u64 {
    u64::from(float::to_bits(x).0)
}

fn put_refused(rt: &impl Print, refusal: Refusal) {
    let number = number(refusal);
    let _ = print!(rt; " refused {number}");
}

fn words(rt: &impl Print, names: &Names) {
    for name in names.as_slice() {
        text(rt, b" ");
        text(rt, name.as_bytes());
    }
}

// The models nearest to a query, in their order.
fn nearest(rt: &impl Print, name: &[u8], query: Query, count: usize) {
    text(rt, name);
    match suggest_models_by_limits(&damiao_models(), query, count) {
        Ok(names) => words(rt, &names),
        Err(refusal) => put_refused(rt, refusal),
    }
    text(rt, b"\n");
}

// All models as they are shown.
fn shown(rt: &impl Print) {
    let query = Query {
        p: 12.5,
        v: 20.0,
        t: 28.0,
    };
    text(rt, b"nearest to 12.5, 20, 28, as they are shown:");
    match suggest_models_by_limits(&damiao_models(), query, 16) {
        Ok(names) => words(rt, &display_models(names.as_slice())),
        Err(refusal) => put_refused(rt, refusal),
    }
    text(rt, b"\n");
}

// One name twice, under which two models are shown.
fn shown_once(rt: &impl Print) {
    let mut names = Names::new();
    names.push(Name::new(b"4340X"));
    names.push(Name::new(b"4340_v20"));
    names.push(Name::new(b"4340X"));
    text(rt, b"4340X 4340_v20 4340X are shown as:");
    words(rt, &display_models(names.as_slice()));
    text(rt, b"\n");
}

// A model's maxima by its name, or the refusal.
fn limits(rt: &impl Print, name: &[u8]) {
    text(rt, b"limits of ");
    text(rt, name);
    match model_limits(&damiao_models(), name) {
        Ok(maxima) => {
            float_bits(rt, maxima.p_max);
            float_bits(rt, maxima.v_max);
            float_bits(rt, maxima.t_max);
        }
        Err(refusal) => put_refused(rt, refusal),
    }
    text(rt, b"\n");
}

fn float_bits(rt: &impl Print, x: f32) {
    let pattern = bits(x);
    let _ = print!(rt; " {pattern:08x}");
}

fn main(rt: HostRuntime) {
    // Encoding a decoded code does not always give that code.
    let decoded = position(F32Bits(0x4148_0000), 0x00, 0x01);
    line(&rt, b"limit 12.5, code 1 decodes to ", bits(decoded));
    line(
        &rt,
        b"and encodes again to ",
        position_code(F32Bits(0x4148_0000), decoded),
    );
    // The maximum does not always encode to the largest code.
    let high = F32Bits(0x3f80_8001);
    line(
        &rt,
        b"limit 3F808001 at its maximum encodes to ",
        position_code(high, float::of_bits(high)),
    );
    // A decoded value does not always lie within the limits.
    line(
        &rt,
        b"limit 3F808000, code FFFF decodes to ",
        bits(position(F32Bits(0x3f80_8000), 0xff, 0xff)),
    );
    nearest(
        &rt,
        b"nearest three to 12.5, 30, 10:",
        Query {
            p: 12.5,
            v: 30.0,
            t: 10.0,
        },
        3,
    );
    // 8006 has the smaller square, but the roots round alike, so the list's order decides.
    nearest(
        &rt,
        b"nearest ten to C692A844, 46A12838, C7276C48:",
        Query {
            p: float::of_bits(F32Bits(0xc692_a844)),
            v: float::of_bits(F32Bits(0x46a1_2838)),
            t: float::of_bits(F32Bits(0xc727_6c48)),
        },
        10,
    );
    shown(&rt);
    shown_once(&rt);
    limits(&rt, b"6248P");
    limits(&rt, b"6248");
    if let Err(refusal) = runs(&rt) {
        put_refused(&rt, refusal);
    }
}

fn runs(rt: &impl Print) -> Result<(), Refusal> {
    sessions::run(rt)?;
    running::run(rt)
}
