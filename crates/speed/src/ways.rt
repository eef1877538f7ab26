// The two ways in which a run's calls are made on a session that stands in a local: by the entries by value,
// or by the one function that the session is lent to.
use motor_core::bus::CanFrame;
use motor_core::error::Refusal;
use run_want::Answer;
use session::{After, Session};
use session_answer::answer_run;
use session_begin::{Start, ensure_control_mode, get_register_u32, write_register_u32};
use session_call::{Call, Returned, step_lent};
use session_lent::take_frame;
use session_step::Told;
use time::{Duration, Instant};

// In nanoseconds.
const READ_TIMEOUT: Duration = Duration(100_000_000);

const SWITCH_TIMEOUT: Duration = Duration(400_000_000);

pub(crate) type RunTold = Result<Told, Refusal>;

pub(crate) trait Way {
    // Starts to read register 10.
    fn read(session: &mut Session) -> RunTold;

    // Starts to write it.
    fn write(session: &mut Session, value: u32) -> RunTold;

    fn switch(session: &mut Session, mode: u32) -> RunTold;

    fn answer(session: &mut Session, answer: Answer) -> RunTold;

    fn take(session: &mut Session, frame: CanFrame, reading: Instant);
}

pub(crate) struct ByValue;

pub(crate) struct Lent;

impl Way for ByValue {
    fn read(session: &mut Session) -> RunTold {
        kept(session, get_register_u32(*session, 10, READ_TIMEOUT))
    }

    fn write(session: &mut Session, value: u32) -> RunTold {
        kept(session, write_register_u32(*session, 10, value))
    }

    fn switch(session: &mut Session, mode: u32) -> RunTold {
        kept(session, ensure_control_mode(*session, mode, SWITCH_TIMEOUT))
    }

    fn answer(session: &mut Session, answer: Answer) -> RunTold {
        kept(session, answer_run(*session, answer))
    }

    fn take(session: &mut Session, frame: CanFrame, reading: Instant) {
        *session = take_frame(*session, frame, reading).session;
    }
}

impl Way for Lent {
    fn read(session: &mut Session) -> RunTold {
        started(session, Start::GetRegisterU32(10, READ_TIMEOUT))
    }

    fn write(session: &mut Session, value: u32) -> RunTold {
        started(session, Start::WriteRegisterU32(10, value))
    }

    fn switch(session: &mut Session, mode: u32) -> RunTold {
        started(session, Start::EnsureControlMode(mode, SWITCH_TIMEOUT))
    }

    fn answer(session: &mut Session, answer: Answer) -> RunTold {
        run_told(step_lent(session, Call::Answer(answer)))
    }

    fn take(session: &mut Session, frame: CanFrame, reading: Instant) {
        let _ = step_lent(session, Call::Frame(frame, reading));
    }
}

fn kept(session: &mut Session, after: After<RunTold>) -> RunTold {
    *session = after.session;
    after.told
}

fn started(session: &mut Session, start: Start) -> RunTold {
    run_told(step_lent(session, Call::Start(start)))
}

// What a start or an answer tells; of another call, which no run makes, a refusal.
fn run_told(returned: Returned) -> RunTold {
    match returned {
        Returned::Run(told) => told,
        _ => Err(Refusal::NotWanted),
    }
}
