// What a motor sends: feedback, register replies and write acks, each as its data or a refusal. The other
// side of `protocol_feedback` and `protocol_received`, for a bench.
#![tactic(auto)]

ghost use Rattle.std.specs.Prelude.{◌≡◌, true};
ghost use Rattle.protocol_frame.specs.Layout.{all_fit};
ghost use Rattle.protocol_motor.specs.Motor as Spec;

use motor_core::error::Refusal;
use protocol_received::FrameClass;

// A feedback before it is packed. Codes are wider here than on the bus, so that a code that is too long can
// be handed in and refused.
#[derive(Clone, Copy)]
pub struct FeedbackFields {
    pub can_id: u8,
    pub status_code: u8,
    pub pos: u32,
    pub vel: u32,
    pub torq: u32,
    pub t_mos: u8,
    pub t_rotor: u8,
}

// Whether each field's bits have room for it, as they have for a temperature's byte.
#[tactic(auto, unfolding(protocol_frame::specs::Layout::all_fit))]
fn fit(fields: FeedbackFields) -> bool
    ensures { result ≡ all_fit (Spec.feedback_fields fields) }
{
    fields.status_code <= 0xf
        && fields.can_id <= 0xf
        && fields.pos <= 0xffff
        && fields.vel <= 0xfff
        && fields.torq <= 0xfff
}

// The fields, each cut to its bits.
#[tactic(auto, unfolding(crate::specs::Motor::feedback_data))]
fn feedback_data(fields: FeedbackFields) -> u64
    ensures { result ≡ Spec.feedback_data fields }
{
    let nibbles = u64::from(fields.status_code % 16) * 16 + u64::from(fields.can_id % 16);
    let motion = u64::from(fields.pos % 0x1_0000) * 0x1000 + u64::from(fields.vel % 0x1000);
    let codes = motion * 0x1000 + u64::from(fields.torq % 0x1000);
    let temperatures = u64::from(fields.t_mos) * 256 + u64::from(fields.t_rotor);
    (nibbles * 0x100_0000_0000 + codes) * 0x1_0000 + temperatures
}

// A feedback that a reader would sort as a register's frame is refused.
#[tactic(auto, unfolding(crate::specs::Motor::feedback))]
pub fn encode_feedback(fields: FeedbackFields) -> Result<u64, Refusal>
    ensures { result ≡ Spec.feedback fields }
{
    if !fit(fields) {
        return Err(Refusal::FieldWidth);
    }
    let data = feedback_data(fields);
    match protocol_received::frame_class(protocol_frame::data_bytes(data)) {
        FrameClass::Feedback => Ok(data),
        FrameClass::Reply | FrameClass::Ack => Err(Refusal::RegisterFrame),
    }
}

// What a motor says of a register: any bits, and an ack of one that can only be read too.
#[tactic(auto, unfolding(crate::specs::Motor::register_frame))]
fn register_frame(marker: u8, id: u16, rid: u8, bits: u32) -> Result<u64, Refusal>
    ensures { result ≡ Spec.register_frame marker id rid bits }
{
    if !motor_core::bus::accepts_motor_id(id) {
        return Err(Refusal::FieldWidth);
    }
    if !registers::is_known(rid) {
        return Err(Refusal::Register);
    }
    Ok(protocol_frame::addressed(id, marker, rid, bits))
}

pub fn encode_register_reply(id: u16, rid: u8, bits: u32) -> Result<u64, Refusal>
    ensures { result ≡ Spec.register_reply id rid bits }
{
    register_frame(protocol_received::REPLY, id, rid, bits)
}

pub fn encode_write_ack(id: u16, rid: u8, bits: u32) -> Result<u64, Refusal>
    ensures { result ≡ Spec.write_ack id rid bits }
{
    register_frame(protocol_received::ACK, id, rid, bits)
}
