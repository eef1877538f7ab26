// What a feedback frame says.
#![tactic(auto)]

ghost use Rattle.std.specs.Prelude.{◌≡◌, ◌+◌, ◌*◌, ◌^◌, ◌<◌};
ghost use Rattle.float.specs.Arithmetic.{float};
ghost use Rattle.protocol_codes.specs.Codes.{bits_in, uint_to_float};
ghost use Rattle.protocol_feedback.specs.Feedback as Spec;

use motor_core::error::Refusal;
use motor_core::model::{Maxima, PvTLimits, limits_of};
use protocol_codes::{Width, full_scale};

#[derive(Clone, Copy)]
pub struct SensorFeedback {
    pub can_id: u8,
    pub status_code: u8,
    pub pos: f32,
    pub vel: f32,
    pub torq: f32,
    pub t_mos: f32,
    pub t_rotor: f32,
}

// What a code stands for, from x_min to x_max.
#[tactic(auto, unfolding(protocol_codes::specs::Codes::uint_to_float))]
fn uint_to_float(x: u16, x_min: f32, x_max: f32, width: Width) -> f32
    requires { x < 2 ^ bits_in width }
    ensures { result ≡ uint_to_float (bits_in width) x x_min x_max }
{
    let span = x_max - x_min;
    f32::from(x) * span / full_scale(width) + x_min
}

// Two bytes as one number, the first the higher.
fn joined(high: u8, low: u8) -> u16
    ensures { (result ≡ high * 256 + low) × (low < 256) }
{
    u16::from_be_bytes([high, low])
}

#[tactic(auto, unfolding(protocol_codes::specs::Codes::uint_to_float))]
fn position(data: [u8; 8], limits: PvTLimits) -> f32
    ensures { result ≡ Spec.position limits «data» }
{
    let code = joined(data[1], data[2]);
    uint_to_float(code, limits.p_min, limits.p_max, Width::Sixteen)
}

#[tactic(auto, unfolding(protocol_codes::specs::Codes::uint_to_float))]
fn velocity(data: [u8; 8], limits: PvTLimits) -> f32
    ensures { result ≡ Spec.velocity limits «data» }
{
    let code = joined(data[3], data[4]) / 16;
    uint_to_float(code, limits.v_min, limits.v_max, Width::Twelve)
}

#[tactic(auto, unfolding(protocol_codes::specs::Codes::uint_to_float))]
fn torque(data: [u8; 8], limits: PvTLimits) -> f32
    ensures { result ≡ Spec.torque limits «data» }
{
    let code = joined(data[4] % 16, data[5]);
    uint_to_float(code, limits.t_min, limits.t_max, Width::Twelve)
}

fn temperature(byte: u8) -> f32
    ensures { result ≡ float byte }
{
    f32::from(byte)
}

// Any six limits: a session's come from `limits_of`, and the definition holds for others too.
#[tactic(auto, unfolding(crate::specs::Feedback::feedback_of))]
pub fn decode_sensor_feedback(data: [u8; 8], limits: PvTLimits) -> SensorFeedback
    ensures { result ≡ Spec.feedback_of limits «data» }
{
    SensorFeedback {
        can_id: data[0] % 16,
        status_code: data[0] / 16,
        pos: position(data, limits),
        vel: velocity(data, limits),
        torq: torque(data, limits),
        t_mos: temperature(data[6]),
        t_rotor: temperature(data[7]),
    }
}

#[tactic(auto, unfolding(crate::specs::Feedback::decoded))]
pub fn decode_feedback(maxima: Maxima, data: [u8; 8]) -> Result<SensorFeedback, Refusal>
    ensures { result ≡ Spec.decoded maxima «data» }
{
    let limits = limits_of(maxima)?;
    Ok(decode_sensor_feedback(data, limits))
}
