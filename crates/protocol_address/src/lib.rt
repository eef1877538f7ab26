// Which received frames may be a motor's, and which are.
#![tactic(auto)]

ghost use Rattle.std.specs.Prelude.{◌≡◌};
ghost use Rattle.protocol_address.specs.Address as Spec;
ghost use Rattle.protocol_received.specs.Received.{class_in};

use motor_core::bus::CanFrame;
use protocol_received::{Sorted, sort_frame};

// Whether a frame may be this motor's: on its feedback id, or with the motor's low four bits in d0, which is
// all that the Rust compares of the motor id.
#[tactic(auto, unfolding(crate::specs::Address::frame_accepted))]
pub fn accepts_frame(frame: CanFrame, motor_id: u16, feedback_id: u16) -> bool
    ensures { result ≡ Spec.frame_accepted motor_id feedback_id frame }
{
    if frame.is_extended {
        return false;
    }
    if frame.arbitration_id == u32::from(feedback_id) {
        return true;
    }
    let data = frame.data;
    frame.dlc > 0 && u16::from(data[0] % 16) == motor_id % 16
}

// Whether a frame is not extended, of eight bytes, and on this id.
fn is_plain_on(frame: CanFrame, feedback_id: u16) -> bool
    ensures { result ≡ Spec.is_plain_on feedback_id frame }
{
    !frame.is_extended && (frame.dlc == 8 && frame.arbitration_id == u32::from(feedback_id))
}

// Whether the data of a frame so sorted names the motor.
fn names_motor(data: [u8; 8], sorted: Sorted, motor_id: u16) -> bool
    ensures { result ≡ Spec.names_motor motor_id (class_in sorted) «data» }
{
    match sorted {
        Sorted::Feedback => u16::from(data[0] % 16) == motor_id % 16,
        Sorted::Reply(_) | Sorted::Ack(_) => {
            u16::from(data[0]) == motor_id % 256 && u16::from(data[1]) == motor_id / 256
        }
    }
}

// How this motor's frame is sorted; `None` of any other frame.
pub fn sort_own(frame: CanFrame, motor_id: u16, feedback_id: u16) -> Option<Sorted>
    ensures { result ≡ Spec.sorted_if_own motor_id feedback_id frame }
{
    if !is_plain_on(frame, feedback_id) {
        return None;
    }
    let sorted = sort_frame(frame.data);
    if names_motor(frame.data, sorted, motor_id) {
        Some(sorted)
    } else {
        None
    }
}
