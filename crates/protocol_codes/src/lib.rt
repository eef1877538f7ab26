// The codes that floats are sent as: their widths and largest values.
#![tactic(auto)]

ghost use Rattle.std.specs.Prelude.{◌≡◌};
ghost use Rattle.protocol_codes.specs.Codes.{full, bits_in};

#[derive(Clone, Copy)]
pub enum Width {
    Twelve,
    Sixteen,
}

// The largest code of a width, as a float.
pub fn full_scale(width: Width) -> f32
    ensures { result ≡ full (bits_in width) }
{
    match width {
        Width::Twelve => 4095.0,
        Width::Sixteen => 65535.0,
    }
}
