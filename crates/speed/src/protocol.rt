// Encoding, decoding and sorting, each with the limits of model 4310.
use crate::sums::{float_bits, mixed};
use motor_core::model::{Maxima, PvTLimits, limits_of};
use protocol_feedback::{SensorFeedback, decode_sensor_feedback};
use protocol_received::{FrameClass, frame_class};
use protocol_setpoint::{MitSetpoint, encode_mit_cmd};

pub(crate) const MAXIMA_4310: Maxima = Maxima {
    p_max: 12.5,
    v_max: 30.0,
    t_max: 10.0,
};

fn setpoint(input: [f32; 5]) -> MitSetpoint {
    MitSetpoint {
        target_position: input[0],
        target_velocity: input[1],
        stiffness: input[2],
        damping: input[3],
        feedforward_torque: input[4],
    }
}

fn encode_with(limits: PvTLimits, inputs: &[[f32; 5]]) -> u64 {
    inputs.iter().fold(0, |sum, input| {
        mixed(sum, encode_mit_cmd(setpoint(*input), limits))
    })
}

pub(crate) fn encode(inputs: &[[f32; 5]]) -> u64 {
    limits_of(MAXIMA_4310).map_or(0, |limits| encode_with(limits, inputs))
}

fn reading(f: SensorFeedback) -> f32 {
    f32::from(f.can_id) + f32::from(f.status_code) + f.pos + f.vel + f.torq + f.t_mos + f.t_rotor
}

fn decode_with(limits: PvTLimits, frames: &[[u8; 8]]) -> u64 {
    frames.iter().fold(0, |sum, data| {
        let feedback = decode_sensor_feedback(*data, limits);
        mixed(sum, float_bits(reading(feedback)))
    })
}

pub(crate) fn decode(frames: &[[u8; 8]]) -> u64 {
    limits_of(MAXIMA_4310).map_or(0, |limits| decode_with(limits, frames))
}

fn class_number(class: FrameClass) -> u64 {
    match class {
        FrameClass::Reply => 1,
        FrameClass::Ack => 2,
        FrameClass::Feedback => 3,
    }
}

pub(crate) fn sort(frames: &[[u8; 8]]) -> u64 {
    frames.iter().fold(0, |sum, data| mixed(sum, class_number(frame_class(*data))))
}
