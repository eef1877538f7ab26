// The calls on what a frame says, and on the tables of status names and registers.
use crate::fields::{data_at, maxima_at, number_at};
use crate::page::Page;
use motor_core::error::Refusal;
use protocol_feedback::{SensorFeedback, decode_feedback};
use protocol_received::{FrameClass, frame_class};
use protocol_status::status_name;
use registers::{RegisterAccess, RegisterDataType, RegisterInfo, register_info};
use script::{Call, CallName};

pub(crate) fn answer(page: &mut Page, call: Call) -> Result<(), Refusal> {
    match call.name {
        CallName::Decode => put_feedback(page, decoded(call)?),
        CallName::Sort => page.put(class_text(frame_class(data_at(call, 0)))),
        CallName::StatusName => put_status(page, number_at(call, 0)),
        _ => put_register(page, register_info(number_at(call, 0))),
    }
    Ok(())
}

fn decoded(call: Call) -> Result<SensorFeedback, Refusal> {
    decode_feedback(maxima_at(call, 0), data_at(call, 3))
}

fn put_feedback(page: &mut Page, feedback: SensorFeedback) {
    page.put_numbered(b"feedback ", feedback.can_id);
    page.put_next(feedback.status_code);
    page.put_measured([
        feedback.pos,
        feedback.vel,
        feedback.torq,
        feedback.t_mos,
        feedback.t_rotor,
    ]);
}

fn class_text(class: FrameClass) -> &'static [u8] {
    match class {
        FrameClass::Reply => b"reply",
        FrameClass::Ack => b"ack",
        FrameClass::Feedback => b"feedback",
    }
}

fn put_status(page: &mut Page, status: u8) {
    page.put(b"status");
    page.put_status_name(status_name(status));
}

fn put_register(page: &mut Page, info: Option<RegisterInfo>) {
    page.put(b"register");
    match info {
        Some(info) => {
            page.put(type_text(info.data_type));
            page.put(access_text(info.access));
        }
        None => page.put(b" unknown"),
    }
}

fn type_text(data_type: RegisterDataType) -> &'static [u8] {
    match data_type {
        RegisterDataType::Float => b" f32",
        RegisterDataType::UInt32 => b" u32",
    }
}

fn access_text(access: RegisterAccess) -> &'static [u8] {
    match access {
        RegisterAccess::ReadOnly => b" ro",
        RegisterAccess::ReadWrite => b" rw",
    }
}
