// Frames on the CAN bus.
ghost use Rattle.std.specs.Prelude.{◌≡◌};
ghost use Rattle.motor_core.specs.Bus.{motor_id_accepted};

#[derive(Clone, Copy)]
pub struct CanFrame {
    pub arbitration_id: u32,
    pub data: [u8; 8],
    pub dlc: u8,
    pub is_extended: bool,
}

// Whether a motor id leaves room for 0x300 above it in the 11 bits of an id on the bus.
pub fn accepts_motor_id(motor_id: u16) -> bool
    ensures { result ≡ motor_id_accepted motor_id }
{
    motor_id <= 0x4ff
}
