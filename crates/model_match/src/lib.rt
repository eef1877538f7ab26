// The models whose limits match a query: each of the three within the tolerance. The list is handed in.
#![tactic(auto)]

ghost use Rattle.std.specs.Prelude.{◌≡◌, ◌≤◌, length};
ghost use Rattle.model_list.specs.Counted.{model_places};
ghost use Rattle.model_match.specs.Matching as Spec;

use model_list::{ModelList, MotorModelSpec, Names};
use model_query::Query;
use motor_core::error::Refusal;
use motor_core::model::Maxima;

// Whether the two are no further apart than the tolerance.
// By two tests: `abs` makes two of its own beside the one of the tolerance, and a match takes a fifth longer.
#[tactic(auto, using(crate::proofs::Magnitude::magnitude_le), unfolding(crate::specs::Matching::within))]
fn within(tol: f32, x: f32, y: f32) -> bool
    ensures { result ≡ Spec.within tol x y }
{
    let d = x - y;
    (d <= tol) & (-d <= tol)
}

#[tactic(auto, unfolding(crate::specs::Matching::matches))]
fn matches(query: Query, tol: f32, spec: &MotorModelSpec) -> bool
    ensures { result ≡ Spec.matches query tol spec.now }
{
    let Maxima {
        p_max,
        v_max,
        t_max,
    } = spec.maxima;
    within(tol, p_max, query.p) && within(tol, v_max, query.v) && within(tol, t_max, query.t)
}

// The names of the models that match.
#[tactic(auto, unfolding(crate::specs::Matching::matching_names, model_list::specs::Places::put_last))]
fn matching_names(models: &[MotorModelSpec], query: Query, tol: f32) -> Names
    requires { length models.now ≤ model_places }
    ensures { result ≡ Spec.matching_names models.now query tol }
{
    let mut found = Names::new();
    for spec in models {
        if matches(query, tol, spec) {
            found.push(spec.model);
        }
    }
    found
}

// The models, in the list's order, whose three limits each differ from the query's by no more than
// the tolerance.
#[tactic(auto, unfolding(model_query::specs::Query::answer, model_query::specs::Query::checked))]
pub fn match_models_by_limits(list: &ModelList, query: Query, tol: f32) -> Result<Names, Refusal>
    ensures { result ≡ Spec.match_models list.now query tol }
{
    let query = query.checked()?;
    Ok(matching_names(list.models(), query, tol))
}
