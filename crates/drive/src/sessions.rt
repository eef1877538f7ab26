// The calls on the session.
use crate::fields::{frame_at, maxima_at, number_at};
use crate::page::Page;
use crate::results::put_returned;
use crate::running::make_call;
use crate::session_text::put_session;
use model_damiao::damiao_models;
use motor_core::error::Refusal;
use script::{Call, CallName};
use script_words::second_word;
use session::start::{from_limits, from_model};
use session::{Session, accepts_frame};

// A start that is refused leaves the session that is in use.
pub(crate) fn start(
    page: &mut Page,
    session: &mut Option<Session>,
    call: Call,
    line: &[u8],
) -> Result<(), Refusal> {
    *session = Some(started(call, line)?);
    page.put(b"started");
    Ok(())
}

fn started(call: Call, line: &[u8]) -> Result<Session, Refusal> {
    match call.name {
        CallName::StartModel => from_model(
            number_at(call, 1),
            number_at(call, 2),
            &damiao_models(),
            second_word(line),
        ),
        _ => from_limits(number_at(call, 0), number_at(call, 1), maxima_at(call, 2)),
    }
}

// A call on the session in use, if one has started.
pub(crate) fn answer(
    page: &mut Page,
    session: &mut Option<Session>,
    call: Call,
) -> Result<(), Refusal> {
    match session {
        Some(session) => on_session(page, session, call),
        None => {
            page.put(b"no session");
            Ok(())
        }
    }
}

fn on_session(page: &mut Page, session: &mut Session, call: Call) -> Result<(), Refusal> {
    match call.name {
        CallName::Accepts => {
            page.put_numbered(b"accepts ", accepts_frame(session.head, frame_at(call, 0)));
        }
        CallName::Session => put_session(page, session),
        _ => return put_returned(page, make_call(session, call)),
    }
    Ok(())
}
