// Requests to the motor: register reads and writes, storing, feedback; and disable, zero and clear, which
// only their last byte tells apart. Each as its data, and as a frame or a refusal.
#![tactic(auto)]

ghost use Rattle.std.specs.Prelude.{◌≡◌};
ghost use Rattle.protocol_request.specs.Request as Spec;

use motor_core::error::Refusal;
use protocol_frame::{Command, addressed};

// The arbitration id of register and store commands and of feedback requests.
pub const REQUEST_ID: u32 = 0x7ff;

const DISABLE: u64 = 0xffff_ffff_ffff_fffd;

const SET_ZERO: u64 = 0xffff_ffff_ffff_fffe;

const CLEAR_ERROR: u64 = 0xffff_ffff_ffff_fffb;

#[tactic(auto, unfolding(crate::specs::Request::register_read_data))]
pub fn encode_register_read_cmd(motor_id: u16, rid: u8) -> u64
    ensures { result ≡ Spec.register_read_data motor_id rid }
{
    addressed(motor_id, 0x33, rid, 0)
}

#[tactic(auto, unfolding(crate::specs::Request::register_write_data))]
pub fn encode_register_write_cmd(motor_id: u16, rid: u8, bits: u32) -> u64
    ensures { result ≡ Spec.register_write_data motor_id rid bits }
{
    addressed(motor_id, 0x55, rid, bits)
}

#[tactic(auto, unfolding(crate::specs::Request::store_params_data))]
pub fn encode_store_params_cmd(motor_id: u16) -> u64
    ensures { result ≡ Spec.store_params_data motor_id }
{
    addressed(motor_id, 0xaa, 0x01, 0)
}

#[tactic(auto, unfolding(crate::specs::Request::feedback_request_data))]
pub fn encode_feedback_request_cmd(motor_id: u16) -> u64
    ensures { result ≡ Spec.feedback_request_data motor_id }
{
    addressed(motor_id, 0xcc, 0x00, 0)
}

#[tactic(auto, unfolding(crate::specs::Request::disable_data))]
pub fn encode_disable_cmd() -> u64
    ensures { result ≡ Spec.disable_data }
{
    DISABLE
}

#[tactic(auto, unfolding(protocol_frame::specs::Command::frame_for))]
pub fn register_read_cmd(motor_id: u16, rid: u8) -> Result<Command, Refusal>
    ensures { result ≡ Spec.register_read_cmd motor_id rid }
{
    protocol_frame::frame_for(
        motor_id,
        REQUEST_ID,
        encode_register_read_cmd(motor_id, rid),
    )
}

#[tactic(auto, unfolding(protocol_frame::specs::Command::frame_for))]
pub fn register_write_cmd(motor_id: u16, rid: u8, bits: u32) -> Result<Command, Refusal>
    ensures { result ≡ Spec.register_write_cmd motor_id rid bits }
{
    protocol_frame::frame_for(
        motor_id,
        REQUEST_ID,
        encode_register_write_cmd(motor_id, rid, bits),
    )
}

#[tactic(auto, unfolding(protocol_frame::specs::Command::frame_for))]
pub fn store_params_cmd(motor_id: u16) -> Result<Command, Refusal>
    ensures { result ≡ Spec.store_params_cmd motor_id }
{
    protocol_frame::frame_for(motor_id, REQUEST_ID, encode_store_params_cmd(motor_id))
}

#[tactic(auto, unfolding(protocol_frame::specs::Command::frame_for))]
pub fn feedback_request_cmd(motor_id: u16) -> Result<Command, Refusal>
    ensures { result ≡ Spec.feedback_request_cmd motor_id }
{
    protocol_frame::frame_for(motor_id, REQUEST_ID, encode_feedback_request_cmd(motor_id))
}

#[tactic(auto, unfolding(protocol_frame::specs::Command::frame_for))]
pub fn disable_cmd(motor_id: u16) -> Result<Command, Refusal>
    ensures { result ≡ Spec.disable_cmd motor_id }
{
    protocol_frame::frame_for(motor_id, u32::from(motor_id), encode_disable_cmd())
}

#[tactic(auto, unfolding(crate::specs::Request::special))]
pub fn set_zero_cmd(motor_id: u16) -> Result<Command, Refusal>
    ensures { result ≡ Spec.set_zero_cmd motor_id }
{
    protocol_frame::frame_for(motor_id, u32::from(motor_id), SET_ZERO)
}

#[tactic(auto, unfolding(crate::specs::Request::special))]
pub fn clear_error_cmd(motor_id: u16) -> Result<Command, Refusal>
    ensures { result ≡ Spec.clear_error_cmd motor_id }
{
    protocol_frame::frame_for(motor_id, u32::from(motor_id), CLEAR_ERROR)
}
