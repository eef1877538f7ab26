// The names of a motor's status.
#![tactic(auto)]

ghost use Rattle.std.specs.Prelude.{◌≡◌};
ghost use Rattle.motor_core.specs.Name.{name_of};
ghost use Rattle.protocol_status.specs.Status.{status_name, spelt};

use motor_core::name::Name;

#[derive(Clone, Copy)]
pub enum StatusName {
    Disabled,
    Enabled,
    OverVoltage,
    UnderVoltage,
    OverCurrent,
    MosOverTemp,
    RotorOverTemp,
    LostComm,
    Overload,
    Unknown,
}

#[tactic(auto, unfolding(crate::specs::Status::status_name))]
pub fn status_name(status: u8) -> StatusName
    ensures { result ≡ status_name status }
{
    match status {
        0 => StatusName::Disabled,
        1 => StatusName::Enabled,
        2..=7 => StatusName::Unknown,
        8 => StatusName::OverVoltage,
        9 => StatusName::UnderVoltage,
        10 => StatusName::OverCurrent,
        11 => StatusName::MosOverTemp,
        12 => StatusName::RotorOverTemp,
        13 => StatusName::LostComm,
        14 => StatusName::Overload,
        15..=255 => StatusName::Unknown,
    }
}

pub fn status_text(name: StatusName) -> Name
    ensures { result ≡ name_of (spelt name) }
{
    Name::new(match name {
        StatusName::Disabled => b"DISABLED",
        StatusName::Enabled => b"ENABLED",
        StatusName::OverVoltage => b"OVER_VOLTAGE",
        StatusName::UnderVoltage => b"UNDER_VOLTAGE",
        StatusName::OverCurrent => b"OVER_CURRENT",
        StatusName::MosOverTemp => b"MOS_OVER_TEMP",
        StatusName::RotorOverTemp => b"ROTOR_OVER_TEMP",
        StatusName::LostComm => b"LOST_COMM",
        StatusName::Overload => b"OVERLOAD",
        StatusName::Unknown => b"UNKNOWN",
    })
}
