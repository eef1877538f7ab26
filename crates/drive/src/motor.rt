// The calls that make what a motor sends.
use crate::fields::number_at;
use crate::page::Page;
use motor_core::error::Refusal;
use protocol_motor::{FeedbackFields, encode_feedback, encode_register_reply, encode_write_ack};
use script::{Call, CallName};

pub(crate) fn answer(page: &mut Page, call: Call) -> Result<(), Refusal> {
    let data = made(call)?;
    page.put(b"data ");
    page.put_hex(data, 16);
    Ok(())
}

fn made(call: Call) -> Result<u64, Refusal> {
    match call.name {
        CallName::MakeFeedback => encode_feedback(fields_of(call)),
        CallName::MakeReply => {
            encode_register_reply(number_at(call, 0), number_at(call, 1), number_at(call, 2))
        }
        _ => encode_write_ack(number_at(call, 0), number_at(call, 1), number_at(call, 2)),
    }
}

fn fields_of(call: Call) -> FeedbackFields {
    FeedbackFields {
        can_id: number_at(call, 0),
        status_code: number_at(call, 1),
        pos: number_at(call, 2),
        vel: number_at(call, 3),
        torq: number_at(call, 4),
        t_mos: number_at(call, 5),
        t_rotor: number_at(call, 6),
    }
}
