// Setpoint frames: MIT, position-velocity, velocity and force-position. Each as its data, and as a frame
// or a refusal.
#![tactic(auto)]

ghost use Rattle.std.specs.Prelude.{◌≡◌, ◌+◌, ◌*◌, ◌/◌, ◌%◌};
ghost use Rattle.protocol_codes.specs.Codes.{bits_in, float_to_uint};
ghost use Rattle.protocol_setpoint.specs.Setpoint as Spec;

use float::F32Bits;
use motor_core::error::Refusal;
use motor_core::model::{Maxima, PvTLimits, limits_of};
use protocol_codes::{Width, full_scale};
use protocol_frame::Command;

// The targets and gains of an MIT frame.
#[derive(Clone, Copy)]
pub struct MitSetpoint {
    pub target_position: f32,
    pub target_velocity: f32,
    pub stiffness: f32,
    pub damping: f32,
    pub feedforward_torque: f32,
}

const KP_MAX: f32 = 500.0;

const KD_MAX: f32 = 5.0;

// A float from x_min to x_max as a code.
#[tactic(auto, unfolding(protocol_codes::specs::Codes::float_to_uint))]
fn float_to_uint(x: f32, x_min: f32, x_max: f32, width: Width) -> u32
    ensures { result ≡ float_to_uint (bits_in width) x x_min x_max }
{
    let span = x_max - x_min;
    let clipped = float::clamp(x, x_min, x_max);
    float::as_u32((clipped - x_min) * full_scale(width) / span)
}

// The five codes of an MIT frame, each cut to its width.
#[tactic(auto, unfolding(protocol_frame::specs::Layout::packed_onto))]
fn mit_fields(pos: u32, vel: u32, kp: u32, kd: u32, torq: u32) -> u64
    ensures { result ≡ Spec.mit_fields pos vel kp kd torq }
{
    let high = u64::from(pos % 0x1_0000) * 0x1000 + u64::from(vel % 0x1000);
    let gains = u64::from(kp % 0x1000) * 0x1000 + u64::from(kd % 0x1000);
    (high * 0x100_0000 + gains) * 0x1000 + u64::from(torq % 0x1000)
}

// Any six limits: a session's and those of `mit_cmd` come from `limits_of`, and the definition holds
// for others too. Inlined, since the limits are the same from call to call.
#[inline(always)]
pub fn encode_mit_cmd(setpoint: MitSetpoint, limits: PvTLimits) -> u64
    ensures { result ≡ Spec.mit_data limits setpoint }
{
    mit_fields(
        float_to_uint(
            setpoint.target_position,
            limits.p_min,
            limits.p_max,
            Width::Sixteen,
        ),
        float_to_uint(
            setpoint.target_velocity,
            limits.v_min,
            limits.v_max,
            Width::Twelve,
        ),
        float_to_uint(setpoint.stiffness, 0.0, KP_MAX, Width::Twelve),
        float_to_uint(setpoint.damping, 0.0, KD_MAX, Width::Twelve),
        float_to_uint(
            setpoint.feedforward_torque,
            limits.t_min,
            limits.t_max,
            Width::Twelve,
        ),
    )
}

#[tactic(auto, unfolding(crate::specs::Setpoint::pos_vel_data))]
pub fn encode_pos_vel_cmd(target_position: F32Bits, velocity_limit: F32Bits) -> u64
    ensures { result ≡ Spec.pos_vel_data target_position.0 velocity_limit.0 }
{
    let high = protocol_frame::reversed(target_position.0);
    let low = protocol_frame::reversed(velocity_limit.0);
    u64::from(high) * 0x1_0000_0000 + u64::from(low)
}

#[tactic(auto, unfolding(crate::specs::Setpoint::vel_data))]
pub fn encode_vel_cmd(target_velocity: F32Bits) -> u64
    ensures { result ≡ Spec.vel_data target_velocity.0 }
{
    let high = protocol_frame::reversed(target_velocity.0);
    u64::from(high) * 0x1_0000_0000
}

// A number's two bytes, lowest first.
fn swapped(n: u16) -> u64
    ensures { result ≡ n % 256 * 256 + n / 256 }
{
    u64::from(n.swap_bytes())
}

pub fn encode_force_pos_cmd(
    target_position: F32Bits,
    velocity_limit: f32,
    torque_limit_ratio: f32,
) -> u64
    ensures { result ≡ Spec.force_pos_data target_position.0 velocity_limit torque_limit_ratio }
{
    let high = protocol_frame::reversed(target_position.0);
    let v_des = float::as_u16(float::clamp(velocity_limit, 0.0, 100.0) * 100.0);
    let i_des = float::as_u16(float::clamp(torque_limit_ratio, 0.0, 1.0) * 10000.0);
    u64::from(high) * 0x1_0000_0000 + swapped(v_des) * 0x1_0000 + swapped(i_des)
}

#[tactic(auto, unfolding(crate::specs::Setpoint::mit_cmd))]
pub fn mit_cmd(motor_id: u16, maxima: Maxima, setpoint: MitSetpoint) -> Result<Command, Refusal>
    ensures { result ≡ Spec.mit_cmd motor_id maxima setpoint }
{
    let limits = limits_of(maxima)?;
    protocol_frame::frame_for(
        motor_id,
        u32::from(motor_id),
        encode_mit_cmd(setpoint, limits),
    )
}

// Where position-velocity, velocity and force-position setpoints go; MIT goes to the motor id itself.
pub fn pos_vel_id(motor_id: u16) -> u32
    ensures { result ≡ Spec.pos_vel_id motor_id }
{
    0x100 + u32::from(motor_id)
}

pub fn vel_id(motor_id: u16) -> u32
    ensures { result ≡ Spec.vel_id motor_id }
{
    0x200 + u32::from(motor_id)
}

pub fn force_pos_id(motor_id: u16) -> u32
    ensures { result ≡ Spec.force_pos_id motor_id }
{
    0x300 + u32::from(motor_id)
}

#[tactic(auto, unfolding(protocol_frame::specs::Command::frame_for))]
pub fn pos_vel_cmd(
    motor_id: u16,
    target_position: F32Bits,
    velocity_limit: F32Bits,
) -> Result<Command, Refusal>
    ensures { result ≡ Spec.pos_vel_cmd motor_id target_position.0 velocity_limit.0 }
{
    let data = encode_pos_vel_cmd(target_position, velocity_limit);
    protocol_frame::frame_for(motor_id, pos_vel_id(motor_id), data)
}

#[tactic(auto, unfolding(protocol_frame::specs::Command::frame_for))]
pub fn vel_cmd(motor_id: u16, target_velocity: F32Bits) -> Result<Command, Refusal>
    ensures { result ≡ Spec.vel_cmd motor_id target_velocity.0 }
{
    let data = encode_vel_cmd(target_velocity);
    protocol_frame::frame_for(motor_id, vel_id(motor_id), data)
}

#[tactic(auto, unfolding(protocol_frame::specs::Command::frame_for))]
pub fn force_pos_cmd(
    motor_id: u16,
    target_position: F32Bits,
    velocity_limit: f32,
    torque_limit_ratio: f32,
) -> Result<Command, Refusal>
    ensures { result ≡ Spec.force_pos_cmd motor_id target_position.0 velocity_limit torque_limit_ratio }
{
    let data = encode_force_pos_cmd(target_position, velocity_limit, torque_limit_ratio);
    protocol_frame::frame_for(motor_id, force_pos_id(motor_id), data)
}
