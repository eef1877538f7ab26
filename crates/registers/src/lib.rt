// The motor's registers: which are known, their type and access, and the values that they hold. What is
// known comes from one lookup, which agrees with the Rust's REGISTER_TABLE at every number.
#![tactic(auto)]

ghost use Rattle.std.specs.Prelude.{◌≡◌};
ghost use Rattle.registers.specs.Registers.{info_of, known};
ghost use Rattle.registers.specs.Value.{value_of, bits_of, type_of, is_u32, of_type, same_value};

use float::F32Bits;

#[derive(Clone, Copy)]
pub enum RegisterAccess {
    ReadOnly,
    ReadWrite,
}

#[derive(Clone, Copy)]
pub enum RegisterDataType {
    Float,
    UInt32,
}

#[derive(Clone, Copy)]
pub struct RegisterInfo {
    pub access: RegisterAccess,
    pub data_type: RegisterDataType,
}

// The four kinds of registers, and none: `R` can only be read, `W` can be written too, `F` holds a float
// and `U` a whole number.
const NO: Option<RegisterInfo> = None;

const RF: Option<RegisterInfo> = Some(RegisterInfo {
    access: RegisterAccess::ReadOnly,
    data_type: RegisterDataType::Float,
});

const WF: Option<RegisterInfo> = Some(RegisterInfo {
    access: RegisterAccess::ReadWrite,
    data_type: RegisterDataType::Float,
});

const RU: Option<RegisterInfo> = Some(RegisterInfo {
    access: RegisterAccess::ReadOnly,
    data_type: RegisterDataType::UInt32,
});

const WU: Option<RegisterInfo> = Some(RegisterInfo {
    access: RegisterAccess::ReadWrite,
    data_type: RegisterDataType::UInt32,
});

// A place for each register number, in rows of eight with the first one's number beside them.
static REGISTERS: [[Option<RegisterInfo>; 8]; 32] = [
    [WF, WF, WF, WF, WF, WF, WF, WU], // 0
    [WU, WU, WU, RF, RF, RU, RU, RU], // 8
    [RU, RF, RF, RF, RF, WF, WF, WF], // 16
    [WF, WF, WF, WF, WF, WF, WF, WF], // 24
    [WF, WF, WF, WU, RU, NO, NO, NO], // 32
    [NO, NO, NO, NO, NO, NO, NO, NO], // 40
    [NO, NO, RF, RF, RF, RF, RF, RF], // 48
    [RF, NO, NO, RF, RF, RF, RF, RF], // 56
    [RF, RF, NO, NO, NO, NO, NO, NO], // 64
    [NO, NO, NO, NO, NO, NO, NO, NO], // 72
    [RF, RF, NO, NO, NO, NO, NO, NO], // 80
    [NO, NO, NO, NO, NO, NO, NO, NO], // 88
    [NO, NO, NO, NO, NO, NO, NO, NO], // 96
    [NO, NO, NO, NO, NO, NO, NO, NO], // 104
    [NO, NO, NO, NO, NO, NO, NO, NO], // 112
    [NO, NO, NO, NO, NO, NO, NO, NO], // 120
    [NO, NO, NO, NO, NO, NO, NO, NO], // 128
    [NO, NO, NO, NO, NO, NO, NO, NO], // 136
    [NO, NO, NO, NO, NO, NO, NO, NO], // 144
    [NO, NO, NO, NO, NO, NO, NO, NO], // 152
    [NO, NO, NO, NO, NO, NO, NO, NO], // 160
    [NO, NO, NO, NO, NO, NO, NO, NO], // 168
    [NO, NO, NO, NO, NO, NO, NO, NO], // 176
    [NO, NO, NO, NO, NO, NO, NO, NO], // 184
    [NO, NO, NO, NO, NO, NO, NO, NO], // 192
    [NO, NO, NO, NO, NO, NO, NO, NO], // 200
    [NO, NO, NO, NO, NO, NO, NO, NO], // 208
    [NO, NO, NO, NO, NO, NO, NO, NO], // 216
    [NO, NO, NO, NO, NO, NO, NO, NO], // 224
    [NO, NO, NO, NO, NO, NO, NO, NO], // 232
    [NO, NO, NO, NO, NO, NO, NO, NO], // 240
    [NO, NO, NO, NO, NO, NO, NO, NO], // 248
];

pub fn register_info(rid: u8) -> Option<RegisterInfo>
    ensures { result ≡ info_of rid }
{
    // by `as`, which the proof computes: the look is compared with the table whole
    REGISTERS[(rid / 8) as usize][(rid % 8) as usize]
}

#[tactic(auto, unfolding(crate::specs::Registers::info_of))]
pub fn is_known(rid: u8) -> bool
    ensures { result ≡ known rid }
{
    register_info(rid).is_some()
}

// What a register holds. A NaN is kept as its 32 bits, since the language's f32 has one NaN only.
#[derive(Clone, Copy)]
pub enum RegisterValue {
    Float(f32),
    Nan(F32Bits),
    UInt32(u32),
}

// The value of that type which has these 32 bits.
#[tactic(auto, unfolding(crate::specs::Value::value_of))]
pub fn value_from_bits(data_type: RegisterDataType, bits: u32) -> RegisterValue
    ensures { result ≡ value_of data_type bits }
{
    match data_type {
        RegisterDataType::UInt32 => RegisterValue::UInt32(bits),
        RegisterDataType::Float => {
            if float::is_nan_pattern(bits) {
                RegisterValue::Nan(F32Bits(bits))
            } else {
                RegisterValue::Float(f32::from_bits(bits))
            }
        }
    }
}

#[tactic(auto, unfolding(crate::specs::Value::bits_of))]
pub fn value_bits(value: RegisterValue) -> u32
    ensures { result ≡ bits_of value }
{
    match value {
        RegisterValue::Float(x) => float::to_bits(x).0,
        RegisterValue::Nan(b) => b.0,
        RegisterValue::UInt32(n) => n,
    }
}

#[tactic(auto, unfolding(crate::specs::Value::type_of))]
pub fn holds_u32(value: RegisterValue) -> bool
    ensures { result ≡ is_u32 (type_of value) }
{
    matches!(value, RegisterValue::UInt32(_))
}

// Whether a value is of that type.
#[tactic(auto, unfolding(crate::specs::Value::of_type))]
pub fn is_of_type(value: RegisterValue, data_type: RegisterDataType) -> bool
    ensures { result ≡ of_type value data_type }
{
    match data_type {
        RegisterDataType::Float => !holds_u32(value),
        RegisterDataType::UInt32 => holds_u32(value),
    }
}

// Equality by type and bits: -0.0 is not 0.0, and a NaN equals itself.
#[tactic(auto, unfolding(crate::specs::Value::same_value))]
pub fn register_value_matches(actual: RegisterValue, expected: RegisterValue) -> bool
    ensures { result ≡ same_value actual expected }
{
    holds_u32(actual) == holds_u32(expected) && value_bits(actual) == value_bits(expected)
}
