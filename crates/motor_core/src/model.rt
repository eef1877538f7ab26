// The limits of position, velocity and torque.
ghost use Rattle.std.specs.Prelude.{◌≡◌};
ghost use Rattle.motor_core.specs.Model.{limit_accepted, limits_of};

use crate::error::Refusal;

// The maxima of position, velocity and torque.
#[derive(Clone, Copy)]
pub struct Maxima {
    pub p_max: f32,
    pub v_max: f32,
    pub t_max: f32,
}

#[derive(Clone, Copy)]
pub struct PvTLimits {
    pub p_min: f32,
    pub p_max: f32,
    pub v_min: f32,
    pub v_max: f32,
    pub t_min: f32,
    pub t_max: f32,
}

// Whether a maximum is finite, from 1/1024 to 65,536.
pub fn accepts_limit(max: f32) -> bool
    ensures { result ≡ limit_accepted max }
{
    max >= 0.0009765625 && max <= 65536.0
}

// The six limits that three maxima stand for.
#[tactic(auto, unfolding(crate::specs::Model::limits_of))]
pub fn limits_of(maxima: Maxima) -> Result<PvTLimits, Refusal>
    ensures { result ≡ limits_of maxima }
{
    let Maxima {
        p_max,
        v_max,
        t_max,
    } = maxima;
    if !accepts_limit(p_max) || !accepts_limit(v_max) || !accepts_limit(t_max) {
        return Err(Refusal::Limit);
    }
    Ok(PvTLimits {
        p_min: -p_max,
        p_max,
        v_min: -v_max,
        v_max,
        t_min: -t_max,
        t_max,
    })
}
