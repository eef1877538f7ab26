// Inputs of eight bytes each, a frame's data, random.
use crate::random::{Inputs, next};
use protocol_frame::data_bytes;
use protocol_received::{FrameClass, frame_class};

// Low feedback has a position so low that d2 decides, and that of unknown registers looks like a
// reply.
#[derive(Clone, Copy)]
pub(crate) enum Frames {
    Replies,
    Acks,
    Feedback,
    LowFeedback,
    UnknownRegisters,
    Mixed,
}

const REPLY: u8 = 0x33;

const ACK: u8 = 0x55;

fn is_marker(byte: u8) -> bool {
    byte == REPLY || byte == ACK
}

// One of the 53 registers.
fn register(random: &mut u64) -> u8 {
    let n = (next(random) % 53) as u8;
    if n < 37 {
        return n;
    }
    if n < 44 {
        return n + 13;
    }
    if n < 51 {
        return n + 15;
    }
    n + 29
}

// One of the 203 numbers that are no register's.
fn unknown_register(random: &mut u64) -> u8 {
    let n = (next(random) % 203) as u8;
    if n < 13 {
        return n + 37;
    }
    if n < 15 {
        return n + 44;
    }
    if n < 29 {
        return n + 51;
    }
    n + 53
}

fn register_frame(marker: u8, rid: u8, random: &mut u64) -> [u8; 8] {
    let mut data = data_bytes(next(random));
    data[1] %= 16;
    data[2] = marker;
    data[3] = rid;
    data
}

fn feedback(random: &mut u64) -> [u8; 8] {
    let mut data = data_bytes(next(random));
    if data[1] < 16 && is_marker(data[2]) {
        data[1] = 16;
    }
    data
}

fn low_feedback(random: &mut u64) -> [u8; 8] {
    let mut data = data_bytes(next(random));
    data[1] %= 16;
    if is_marker(data[2]) {
        data[2] = 0;
    }
    data
}

fn mixed(random: &mut u64) -> [u8; 8] {
    match next(random) % 3 {
        0 => register_frame(REPLY, register(random), random),
        1 => register_frame(ACK, register(random), random),
        _ => feedback(random),
    }
}

fn frame(kind: Frames, random: &mut u64) -> [u8; 8] {
    match kind {
        Frames::Replies => register_frame(REPLY, register(random), random),
        Frames::Acks => register_frame(ACK, register(random), random),
        Frames::Feedback => feedback(random),
        Frames::LowFeedback => low_feedback(random),
        Frames::UnknownRegisters => register_frame(REPLY, unknown_register(random), random),
        Frames::Mixed => mixed(random),
    }
}

pub(crate) fn of_motor_1_in_d0(d0: u8) -> u8 {
    d0 & 0xf0 | 1
}

// A frame as motor 1 sends it: with its id in d0 and d1 if it is a register's, else with the low four bits
// in d0.
fn of_motor_1(mut data: [u8; 8]) -> [u8; 8] {
    match frame_class(data) {
        FrameClass::Reply | FrameClass::Ack => {
            data[0] = 1;
            data[1] = 0;
        }
        FrameClass::Feedback => data[0] = of_motor_1_in_d0(data[0]),
    }
    data
}

impl Inputs for Frames {
    type Input = [u8; 8];

    fn fill(self, inputs: &mut [[u8; 8]], random: &mut u64) {
        for data in inputs {
            *data = frame(self, random);
        }
    }
}

// The same as motor 1 sends them.
#[derive(Clone, Copy)]
pub(crate) struct OfMotor1(pub(crate) Frames);

impl Inputs for OfMotor1 {
    type Input = [u8; 8];

    fn fill(self, inputs: &mut [[u8; 8]], random: &mut u64) {
        for data in inputs {
            *data = of_motor_1(frame(self.0, random));
        }
    }
}
