// The control modes, the numbers that register 10 has for them, and the frame of the setpoint that
// stands still in each.
#![tactic(auto)]

ghost use Rattle.std.specs.Prelude.{◌≡◌};
ghost use Rattle.protocol_hold.specs.Mode as Spec;

use float::{F32Bits, of_bits};
use motor_core::error::Refusal;
use motor_core::model::PvTLimits;
use protocol_setpoint::{
    MitSetpoint, encode_force_pos_cmd, encode_mit_cmd, encode_pos_vel_cmd, encode_vel_cmd,
    force_pos_id, pos_vel_id, vel_id,
};

#[derive(Clone, Copy)]
pub enum ControlMode {
    Mit = 1,
    PosVel = 2,
    Vel = 3,
    ForcePos = 4,
}

// The mode that has this number in register 10.
impl TryFrom<u32> for ControlMode {
    type Error = Refusal;

    ghost try_from_gives = { λ number mode. mode ≡ Spec.control_mode number };

    fn try_from(number: u32) -> Result<ControlMode, Refusal> {
        match number {
            1 => Ok(ControlMode::Mit),
            2 => Ok(ControlMode::PosVel),
            3 => Ok(ControlMode::Vel),
            4 => Ok(ControlMode::ForcePos),
            _ => Err(Refusal::Mode),
        }
    }
}

// What register 10 holds in the mode.
impl From<ControlMode> for u32 {
    ghost from_gives = { λ mode number. number ≡ Spec.mode_number mode };

    fn from(mode: ControlMode) -> u32 {
        // its discriminants are the numbers, which a `match` would only repeat
        mode as u32
    }
}

// Where the mode's setpoints go.
pub fn hold_id(motor_id: u16, mode: ControlMode) -> u32
    ensures { result ≡ Spec.hold_id motor_id mode }
{
    match mode {
        ControlMode::Mit => u32::from(motor_id),
        ControlMode::PosVel => pos_vel_id(motor_id),
        ControlMode::Vel => vel_id(motor_id),
        ControlMode::ForcePos => force_pos_id(motor_id),
    }
}

fn still_at(position: f32) -> MitSetpoint
    ensures { result ≡ Spec.still_at position }
{
    MitSetpoint {
        target_position: position,
        target_velocity: 0.0,
        stiffness: 0.0,
        damping: 0.0,
        feedforward_torque: 0.0,
    }
}

// The mode's setpoint at a position, all else 0; the velocity mode's has no position.
pub fn hold_data(limits: PvTLimits, mode: ControlMode, position: F32Bits) -> u64
    ensures { result ≡ Spec.hold_data limits mode position.0 }
{
    match mode {
        ControlMode::Mit => encode_mit_cmd(still_at(of_bits(position)), limits),
        ControlMode::PosVel => encode_pos_vel_cmd(position, F32Bits(0)),
        ControlMode::Vel => encode_vel_cmd(F32Bits(0)),
        ControlMode::ForcePos => encode_force_pos_cmd(position, 0.0, 0.0),
    }
}
