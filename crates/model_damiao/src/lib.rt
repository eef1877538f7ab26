// The built-in list of 16 models.
#![tactic(auto)]

ghost use Rattle.std.specs.Prelude.{◌≡◌};
ghost use Rattle.model_damiao.specs.Damiao.{damiao_models, list_of};

use model_list::{MODEL_PLACES, ModelList, MotorModelSpec};
use motor_core::model::Maxima;
use motor_core::name::Name;

// A name, padded to fifteen bytes, its length, and the maxima of position, velocity and torque.
// Padded by hand: a static calls no function.
macro_rules! model {
    ($name:literal, $len:literal, $p_max:literal, $v_max:literal, $t_max:literal) => {
        MotorModelSpec {
            model: Name {
                bytes: *$name,
                len: $len,
            },
            maxima: Maxima {
                p_max: $p_max,
                v_max: $v_max,
                t_max: $t_max,
            },
        }
    };
}

static DAMIAO_MODELS: [MotorModelSpec; MODEL_PLACES] = [
    model!(b"3507           ", 4, 12.566, 50.0, 5.0),
    model!(b"4310           ", 4, 12.5, 30.0, 10.0),
    model!(b"4310P          ", 5, 12.5, 50.0, 10.0),
    model!(b"4340           ", 4, 12.5, 10.0, 28.0),
    model!(b"4340P          ", 5, 12.5, 10.0, 28.0),
    model!(b"4340_v20       ", 8, 12.5, 20.0, 28.0),
    model!(b"6006           ", 4, 12.5, 45.0, 20.0),
    model!(b"8006           ", 4, 12.5, 45.0, 40.0),
    model!(b"8009           ", 4, 12.5, 45.0, 54.0),
    model!(b"10010L         ", 6, 12.5, 25.0, 200.0),
    model!(b"10010          ", 5, 12.5, 20.0, 200.0),
    model!(b"H3510          ", 5, 12.5, 280.0, 1.0),
    model!(b"G6215          ", 5, 12.5, 45.0, 10.0),
    model!(b"H6220          ", 5, 12.5, 45.0, 10.0),
    model!(b"JH11           ", 4, 12.5, 10.0, 12.0),
    model!(b"6248P          ", 5, 12.566, 20.0, 120.0),
];

pub fn damiao_models() -> ModelList
    ensures { result ≡ list_of damiao_models }
{
    ModelList {
        models: DAMIAO_MODELS,
        count: MODEL_PLACES as u8,
    }
}
