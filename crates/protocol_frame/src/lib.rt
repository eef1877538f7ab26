// How frames are made: numbers in the eight data bytes, and the answer to a command. A frame's data
// is one number of 64 bits, of which d0 is the highest byte.
#![tactic(auto)]

ghost use Rattle.std.specs.Prelude.{◌≡◌, ◌∷◌};
ghost use Rattle.protocol_frame.specs.Layout.{byte, packed, little_endian, addressed, data_bytes};
ghost use Rattle.protocol_frame.specs.Command as Spec;

use motor_core::error::Refusal;

// A frame that is to be sent.
#[derive(Clone, Copy)]
pub struct Command {
    pub arbitration_id: u32,
    pub data: u64,
}

// The four bytes of a number, lowest first.
#[tactic(auto, unfolding(crate::specs::Layout::little_endian, crate::specs::Layout::packed_onto))]
pub fn reversed(n: u32) -> u32
    ensures { result ≡ packed (little_endian 4 n) }
{
    n.swap_bytes()
}

// An id of 16 bits, two bytes, and a word; id and word lowest byte first.
#[tactic(auto, unfolding(crate::specs::Layout::addressed))]
pub fn addressed(id: u16, d2: u8, d3: u8, word: u32) -> u64
    ensures { result ≡ addressed id (byte d2 ∷ byte d3 ∷ little_endian 4 word) }
{
    let head = u64::from(id.swap_bytes());
    ((head * 256 + u64::from(d2)) * 256 + u64::from(d3)) * 0x1_0000_0000 + u64::from(reversed(word))
}

// The eight data bytes, d0 first, for the caller to send.
#[tactic(auto, unfolding(crate::specs::Layout::data_bytes))]
pub fn data_bytes(data: u64) -> [u8; 8]
    ensures { result ≡ data_bytes «data» }
{
    data.to_be_bytes()
}

// The frame, unless the motor id is refused.
#[tactic(auto, unfolding(crate::specs::Command::frame_for))]
pub fn frame_for(motor_id: u16, arbitration_id: u32, data: u64) -> Result<Command, Refusal>
    ensures { result ≡ Spec.frame_for motor_id arbitration_id «data» }
{
    if motor_core::bus::accepts_motor_id(motor_id) {
        Ok(Command {
            arbitration_id,
            data,
        })
    } else {
        Err(Refusal::MotorId)
    }
}
