// A call's arguments, from 0 on, as the types that the library takes. The parser has seen that each
// fits its field.
use float::F32Bits;
use motor_core::bus::CanFrame;
use motor_core::model::Maxima;
use script::Call;

// An argument as a number.
pub(crate) fn number_at<N>(call: Call, place: usize) -> N
where
    N: TryFrom<u64> + Default,
    N::Error: Drop,
{
    let argument = call.args.get(place).copied().unwrap_or_default();
    N::try_from(argument).unwrap_or_default()
}

pub(crate) fn bits_at(call: Call, place: usize) -> F32Bits {
    F32Bits(number_at(call, place))
}

pub(crate) fn real_at(call: Call, place: usize) -> f32 {
    float::of_bits(bits_at(call, place))
}

pub(crate) fn data_at(call: Call, place: usize) -> [u8; 8] {
    protocol_frame::data_bytes(number_at(call, place))
}

// A motor's limits, from this place on.
pub(crate) fn maxima_at(call: Call, place: usize) -> Maxima {
    Maxima {
        p_max: real_at(call, place),
        v_max: real_at(call, place.saturating_add(1)),
        t_max: real_at(call, place.saturating_add(2)),
    }
}

// A frame's four fields, from this place on.
pub(crate) fn frame_at(call: Call, place: usize) -> CanFrame {
    CanFrame {
        arbitration_id: number_at(call, place),
        data: data_at(call, place.saturating_add(1)),
        dlc: number_at(call, place.saturating_add(2)),
        is_extended: number_at::<u64>(call, place.saturating_add(3)) != 0,
    }
}
