// Any call on a session, by one function that the session is lent to.
#![tactic(auto)]

ghost use Rattle.std.specs.Prelude.{◌≡◌};
ghost use Rattle.session_begin.specs.Begin.{begin};
ghost use Rattle.session_call.specs.Step as Spec;

use motor_core::bus::CanFrame;
use motor_core::error::Refusal;
use run_want::Answer;
use session::{After, AfterPatch, Session, patch_latest, patch_lent};
use session_answer::{AfterCall, answer_lent, answer_run};
use session_begin::{
    Start, begin_lent, ensure_control_mode, get_register_f32, get_register_u32,
    request_fresh_state, store_parameters, write_register_f32, write_register_u32,
};
use session_frame::AfterFrame;
use session_lent::{process_feedback_frame, take_frame};
use session_step::Told;
use time::Instant;

#[derive(Clone, Copy)]
pub enum Call {
    Start(Start),
    Answer(Answer),
    Frame(CanFrame, Instant),
    Patch(u8, u8, u8),
}

// What a call returns: of a run what a start or an answer tells, of a frame whether it was taken, of a patch
// whether there was a record.
#[derive(Clone, Copy)]
pub enum Returned {
    Run(Result<Told, Refusal>),
    Frame(Result<(), Refusal>),
    Patch(bool),
}

pub type AfterStep = After<Returned>;

// Makes a call on the session that is lent. Inlined, so that which call it is need not be asked where it is known.
#[tactic(auto, unfolding(crate::specs::Step::step))]
#[inline(always)]
pub fn step_lent(session: &mut Session, call: Call) -> Returned
    ensures told { result ≡ (Spec.step session.old call).told }
    ensures session { session.new ≡ (Spec.step session.old call).session }
{
    match call {
        Call::Start(start) => Returned::Run(begin_lent(session, start)),
        Call::Answer(answer) => Returned::Run(answer_lent(session, answer)),
        Call::Frame(frame, reading) => {
            Returned::Frame(process_feedback_frame(session, frame, reading))
        }
        Call::Patch(status, t_mos, t_rotor) => {
            Returned::Patch(patch_lent(session, status, t_mos, t_rotor))
        }
    }
}

// A start by its own entry, for a session that goes by value.
fn started(session: Session, start: Start) -> AfterCall
    ensures { result ≡ begin session start }
{
    match start {
        Start::GetRegisterU32(rid, timeout) => get_register_u32(session, rid, timeout),
        Start::GetRegisterF32(rid, timeout) => get_register_f32(session, rid, timeout),
        Start::WriteRegisterU32(rid, value) => write_register_u32(session, rid, value),
        Start::WriteRegisterF32(rid, value) => write_register_f32(session, rid, value),
        Start::RequestFreshState(timeout) => request_fresh_state(session, timeout),
        Start::StoreParameters => store_parameters(session),
        Start::EnsureControlMode(mode, timeout) => ensure_control_mode(session, mode, timeout),
    }
}

// The same for a session that goes by value, by the entries by value.
#[tactic(auto, unfolding(crate::specs::Step::step))]
pub fn step(session: Session, call: Call) -> AfterStep
    ensures { result ≡ Spec.step session call }
{
    match call {
        Call::Start(start) => {
            let AfterCall { session, told } = started(session, start);
            After {
                session,
                told: Returned::Run(told),
            }
        }
        Call::Answer(answer) => {
            let AfterCall { session, told } = answer_run(session, answer);
            After {
                session,
                told: Returned::Run(told),
            }
        }
        Call::Frame(frame, reading) => {
            let AfterFrame { session, told } = take_frame(session, frame, reading);
            After {
                session,
                told: Returned::Frame(told),
            }
        }
        Call::Patch(status, t_mos, t_rotor) => {
            let AfterPatch { session, told } = patch_latest(session, status, t_mos, t_rotor);
            After {
                session,
                told: Returned::Patch(told),
            }
        }
    }
}
