// Why what is handed in is refused. Callers are told the number, which `u8::from` gives.
ghost use Rattle.std.specs.Prelude.{◌≡◌};
ghost use Rattle.motor_core.specs.Error.{number};

#[derive(Clone, Copy, Debug, PartialEq, Eq)]
pub enum Refusal {
    Limit = 1,
    MotorId = 2,
    Reading = 3,
    Register = 4,
    ReadOnly = 5,
    ValueType = 6,
    Timeout = 7,
    RunOpen = 8,
    NotWanted = 9,
    Mode = 10,
    Query = 11,
    Model = 12,
    RegisterFrame = 13,
    FieldWidth = 14,
    ForeignFrame = 15,
}

impl From<Refusal> for u8 {
    ghost from_gives = { λ refusal n. n ≡ number refusal };

    fn from(refusal: Refusal) -> u8 {
        // its discriminants are the numbers, which a `match` would only repeat
        refusal as u8
    }
}
