// The messages that runs send: which command, and its frame.
ghost use Rattle.std.specs.Prelude.{◌≡◌};
ghost use Rattle.run_want.specs.Message as Spec;

use float::F32Bits;
use motor_core::model::PvTLimits;
use protocol_hold::{ControlMode, hold_data, hold_id};
use protocol_request::{
    REQUEST_ID, encode_disable_cmd, encode_feedback_request_cmd, encode_register_read_cmd,
    encode_register_write_cmd, encode_store_params_cmd,
};

// A setpoint is the one of that mode that stands still at a position: to clear the mode's channel before
// a switch, or to hold the position after it.
#[derive(Clone, Copy)]
pub enum Message {
    ReadRegister(u8),
    WriteRegister(u8, u32),
    RequestFeedback,
    Disable,
    StoreParams,
    Setpoint(ControlMode, F32Bits),
}

pub fn message_id(motor_id: u16, message: Message) -> u32
    ensures { result ≡ Spec.message_id motor_id message }
{
    match message {
        Message::ReadRegister(_) => REQUEST_ID,
        Message::WriteRegister(_, _) => REQUEST_ID,
        Message::RequestFeedback => REQUEST_ID,
        Message::Disable => u32::from(motor_id),
        Message::StoreParams => REQUEST_ID,
        Message::Setpoint(mode, _) => hold_id(motor_id, mode),
    }
}

// The eight data bytes, as one number.
pub fn message_data(motor_id: u16, limits: PvTLimits, message: Message) -> u64
    ensures { result ≡ Spec.message_data motor_id limits message }
{
    match message {
        Message::ReadRegister(rid) => encode_register_read_cmd(motor_id, rid),
        Message::WriteRegister(rid, bits) => encode_register_write_cmd(motor_id, rid, bits),
        Message::RequestFeedback => encode_feedback_request_cmd(motor_id),
        Message::Disable => encode_disable_cmd(),
        Message::StoreParams => encode_store_params_cmd(motor_id),
        Message::Setpoint(mode, position) => hold_data(limits, mode, position),
    }
}
