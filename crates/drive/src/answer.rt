// The answer to a call. A call that is refused puts nothing on the page.
use crate::page::Page;
use crate::{commands, listing, motor, reports, sessions};
use motor_core::error::Refusal;
use script::{Call, CallName};
use session::Session;

pub(crate) fn answer(
    page: &mut Page,
    session: &mut Option<Session>,
    call: Call,
    line: &[u8],
) -> Result<(), Refusal> {
    match call.name {
        CallName::StartLimits | CallName::StartModel => sessions::start(page, session, call, line),
        CallName::Mit
        | CallName::PosVel
        | CallName::Vel
        | CallName::ForcePos
        | CallName::ReadReg
        | CallName::WriteReg
        | CallName::StoreParams
        | CallName::FeedbackRequest
        | CallName::Disable
        | CallName::Zero
        | CallName::Clear => commands::answer(page, call),
        CallName::MakeFeedback | CallName::MakeReply | CallName::MakeAck => {
            motor::answer(page, call)
        }
        CallName::Match | CallName::Suggest => listing::answer(page, call),
        CallName::Decode | CallName::Sort | CallName::StatusName | CallName::Register => {
            reports::answer(page, call)
        }
        _ => sessions::answer(page, session, call),
    }
}
