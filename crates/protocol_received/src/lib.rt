// What a received frame says: its class, and the feedback in it or a register and its value.
#![tactic(auto)]

ghost use Rattle.std.specs.Prelude.{◌≡◌, ◌&&◌, ◌||◌, leb, eqb};
ghost use Rattle.protocol_received.specs.Received as Spec;

use motor_core::model::PvTLimits;
use protocol_feedback::{SensorFeedback, decode_sensor_feedback};
use registers::{RegisterDataType, RegisterValue};

// The class alone, without what the frame says.
#[derive(Clone, Copy)]
pub enum FrameClass {
    Reply,
    Ack,
    Feedback,
}

// The class of a frame, with the type of the register that it names. As the register that is looked up, an
// `Option`, sorting takes a nanosecond more, and of feedback with d1 up to 0F misses the Rust's time.
#[derive(Clone, Copy)]
pub enum Sorted {
    Reply(RegisterDataType),
    Ack(RegisterDataType),
    Feedback,
}

// What a frame says: a register's value, replied or acknowledged, or feedback. With one case for both of a
// register, what asks for replies alone would look into two enums.
#[derive(Clone, Copy)]
pub enum Received {
    Reply(u8, RegisterValue),
    Ack(u8, RegisterValue),
    Feedback(SensorFeedback),
}

// The third byte of a register's reply and of an ack.
pub const REPLY: u8 = 0x33;

pub const ACK: u8 = 0x55;

// Whether d1 and d2 are a register frame's. The tests of d2 are joined without a short cut: with one the compiler
// makes them before that of d1, and sorting feedback misses the Rust's time.
fn marks_register(d1: u8, d2: u8) -> bool
    ensures { result ≡ (leb d1 0x0f && (eqb d2 0x33 || eqb d2 0x55)) }
{
    d1 <= 0x0f && ((d2 == REPLY) | (d2 == ACK))
}

// The register is looked up once, for the class and for the type.
pub fn sort_frame(data: [u8; 8]) -> Sorted
    ensures { result ≡ Spec.sorted «data» }
{
    let marker = data[2];
    if !marks_register(data[1], marker) {
        return Sorted::Feedback;
    }
    match registers::register_info(data[3]) {
        None => Sorted::Feedback,
        Some(info) if marker == REPLY => Sorted::Reply(info.data_type),
        Some(info) => Sorted::Ack(info.data_type),
    }
}

pub fn frame_class(data: [u8; 8]) -> FrameClass
    ensures { result ≡ Spec.class_of «data» }
{
    let sorted = sort_frame(data);
    match sorted {
        Sorted::Reply(_) => FrameClass::Reply,
        Sorted::Ack(_) => FrameClass::Ack,
        Sorted::Feedback => FrameClass::Feedback,
    }
}

// The 32 bits in d4 to d7 as a value of a type.
fn typed_value(data: [u8; 8], data_type: RegisterDataType) -> RegisterValue
    ensures { result ≡ Spec.typed_value data_type «data» }
{
    let bits = u32::from_le_bytes([data[4], data[5], data[6], data[7]]);
    registers::value_from_bits(data_type, bits)
}

// What a frame says that is so sorted. Any six limits, as for `decode_sensor_feedback`.
pub fn read_sorted(data: [u8; 8], sorted: Sorted, limits: PvTLimits) -> Received
    ensures { result ≡ Spec.read_as sorted limits «data» }
{
    match sorted {
        Sorted::Reply(data_type) => Received::Reply(data[3], typed_value(data, data_type)),
        Sorted::Ack(data_type) => Received::Ack(data[3], typed_value(data, data_type)),
        Sorted::Feedback => Received::Feedback(decode_sensor_feedback(data, limits)),
    }
}

// Sorts a frame and reads it.
pub fn read_frame(data: [u8; 8], limits: PvTLimits) -> Received
    ensures { result ≡ Spec.received limits «data» }
{
    read_sorted(data, sort_frame(data), limits)
}
