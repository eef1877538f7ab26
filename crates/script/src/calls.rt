// The table of the calls.
ghost use Rattle.std.specs.Prelude.{◌≡◌, option_map, find};
ghost use Rattle.text.specs.Text.{same};
ghost use Rattle.script.specs.Line.{calls, form_of};

use script_words::Kind;
use script_words::Kind::{Flag, Name, U8, U16, U32, U64};

#[derive(Clone, Copy, PartialEq, Eq, Debug)]
pub enum CallName {
    StartLimits,
    StartModel,
    GetU32,
    GetF32,
    WriteU32,
    WriteF32,
    FreshState,
    Store,
    Mode,
    Clock,
    Sent,
    SendTimeout,
    SendFailed,
    Slept,
    Frame,
    FrameLent,
    Accepts,
    Patch,
    Session,
    Mit,
    PosVel,
    Vel,
    ForcePos,
    ReadReg,
    WriteReg,
    StoreParams,
    FeedbackRequest,
    Disable,
    Zero,
    Clear,
    MakeFeedback,
    MakeReply,
    MakeAck,
    Decode,
    Sort,
    StatusName,
    Register,
    Match,
    Suggest,
}

// A call's word, its name, the kinds of its arguments, and whether `lent` may stand before it.
#[derive(Clone, Copy)]
pub struct Row(
    pub &'static [u8],
    pub CallName,
    pub &'static [Kind],
    pub bool,
);

static CALLS: [Row; 39] = [
    Row(
        b"start-limits",
        CallName::StartLimits,
        &[U16, U16, U32, U32, U32],
        false,
    ),
    Row(
        b"start-model",
        CallName::StartModel,
        &[Name, U16, U16],
        false,
    ),
    Row(b"get-u32", CallName::GetU32, &[U8, U64], true),
    Row(b"get-f32", CallName::GetF32, &[U8, U64], true),
    Row(b"write-u32", CallName::WriteU32, &[U8, U32], true),
    Row(b"write-f32", CallName::WriteF32, &[U8, U32], true),
    Row(b"fresh-state", CallName::FreshState, &[U64], true),
    Row(b"store", CallName::Store, &[], true),
    Row(b"mode", CallName::Mode, &[U32, U64], true),
    Row(b"clock", CallName::Clock, &[U64], true),
    Row(b"sent", CallName::Sent, &[], true),
    Row(b"send-timeout", CallName::SendTimeout, &[], true),
    Row(b"send-failed", CallName::SendFailed, &[], true),
    Row(b"slept", CallName::Slept, &[], true),
    Row(b"frame", CallName::Frame, &[U64, U32, U64, U8, Flag], false),
    Row(
        b"frame-lent",
        CallName::FrameLent,
        &[U64, U32, U64, U8, Flag],
        false,
    ),
    Row(b"accepts", CallName::Accepts, &[U32, U64, U8, Flag], false),
    Row(b"patch", CallName::Patch, &[U8, U8, U8], true),
    Row(b"session", CallName::Session, &[], false),
    Row(
        b"mit",
        CallName::Mit,
        &[U16, U32, U32, U32, U32, U32, U32, U32, U32],
        false,
    ),
    Row(b"pos-vel", CallName::PosVel, &[U16, U32, U32], false),
    Row(b"vel", CallName::Vel, &[U16, U32], false),
    Row(
        b"force-pos",
        CallName::ForcePos,
        &[U16, U32, U32, U32],
        false,
    ),
    Row(b"read-reg", CallName::ReadReg, &[U16, U8], false),
    Row(b"write-reg", CallName::WriteReg, &[U16, U8, U32], false),
    Row(b"store-params", CallName::StoreParams, &[U16], false),
    Row(
        b"feedback-request",
        CallName::FeedbackRequest,
        &[U16],
        false,
    ),
    Row(b"disable", CallName::Disable, &[U16], false),
    Row(b"zero", CallName::Zero, &[U16], false),
    Row(b"clear", CallName::Clear, &[U16], false),
    Row(
        b"make-feedback",
        CallName::MakeFeedback,
        &[U8, U8, U32, U32, U32, U8, U8],
        false,
    ),
    Row(b"make-reply", CallName::MakeReply, &[U16, U8, U32], false),
    Row(b"make-ack", CallName::MakeAck, &[U16, U8, U32], false),
    Row(b"decode", CallName::Decode, &[U32, U32, U32, U64], false),
    Row(b"sort", CallName::Sort, &[U64], false),
    Row(b"status-name", CallName::StatusName, &[U8], false),
    Row(b"register", CallName::Register, &[U8], false),
    Row(b"match", CallName::Match, &[U32, U32, U32, U32], false),
    Row(b"suggest", CallName::Suggest, &[U32, U32, U32, U64], false),
];

// The row of the call with this word.
pub fn row_of(word: &[u8]) -> Option<Row>
    ensures { option_map form_of result ≡ find (λ f. same f.word word.now) calls }
{
    CALLS.iter().find(|row| row.0 == word).copied()
}
