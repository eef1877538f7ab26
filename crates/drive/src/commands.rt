// The calls that make a command frame.
use crate::fields::{bits_at, maxima_at, number_at, real_at};
use crate::page::Page;
use motor_core::error::Refusal;
use protocol_frame::Command;
use protocol_setpoint::MitSetpoint;
use script::{Call, CallName};

pub(crate) fn answer(page: &mut Page, call: Call) -> Result<(), Refusal> {
    page.put_frame(b"frame ", made(call)?);
    Ok(())
}

fn made(call: Call) -> Result<Command, Refusal> {
    let motor_id = number_at(call, 0);
    match call.name {
        CallName::Mit => mit(call),
        CallName::PosVel => protocol_setpoint::pos_vel_cmd(
            motor_id,
            bits_at(call, 1),
            bits_at(call, 2),
        ),
        CallName::Vel => protocol_setpoint::vel_cmd(motor_id, bits_at(call, 1)),
        CallName::ForcePos => protocol_setpoint::force_pos_cmd(
            motor_id,
            bits_at(call, 1),
            real_at(call, 2),
            real_at(call, 3),
        ),
        CallName::ReadReg => protocol_request::register_read_cmd(motor_id, number_at(call, 1)),
        CallName::WriteReg => protocol_request::register_write_cmd(
            motor_id,
            number_at(call, 1),
            number_at(call, 2),
        ),
        CallName::StoreParams => protocol_request::store_params_cmd(motor_id),
        CallName::FeedbackRequest => protocol_request::feedback_request_cmd(motor_id),
        CallName::Disable => protocol_request::disable_cmd(motor_id),
        CallName::Zero => protocol_request::set_zero_cmd(motor_id),
        _ => protocol_request::clear_error_cmd(motor_id),
    }
}

fn mit(call: Call) -> Result<Command, Refusal> {
    let setpoint = MitSetpoint {
        target_position: real_at(call, 4),
        target_velocity: real_at(call, 5),
        stiffness: real_at(call, 6),
        damping: real_at(call, 7),
        feedforward_torque: real_at(call, 8),
    };
    protocol_setpoint::mit_cmd(number_at(call, 0), maxima_at(call, 1), setpoint)
}
