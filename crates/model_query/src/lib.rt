// A query of the model list, and whether it is accepted.
#![tactic(auto)]

ghost use Rattle.std.specs.Prelude.{◌≡◌};
ghost use Rattle.model_query.specs.Query as Spec;

use motor_core::error::Refusal;

// A position, a velocity and a torque, to be compared with the maxima of each model.
#[derive(Clone, Copy)]
pub struct Query {
    pub p: f32,
    pub v: f32,
    pub t: f32,
}

// Whether a float is finite and within ±65,536.
fn queryable(x: f32) -> bool
    ensures { result ≡ Spec.queryable x }
{
    x >= -65536.0 && x <= 65536.0
}

impl Query {
    // Whether all three are.
    #[tactic(auto, unfolding(crate::specs::Query::query_accepted))]
    pub fn is_accepted(&self) -> bool
        ensures { result ≡ Spec.query_accepted self.now }
    {
        queryable(self.p) && queryable(self.v) && queryable(self.t)
    }

    // The query, or the refusal of one that is not accepted.
    #[tactic(auto, unfolding(crate::specs::Query::checked))]
    pub fn checked(self) -> Result<Query, Refusal>
        ensures { result ≡ Spec.checked self }
    {
        if !self.is_accepted() {
            return Err(Refusal::Query);
        }
        Ok(self)
    }
}
