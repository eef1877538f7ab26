// Models' names as they are shown to people.
#![tactic(auto)]

ghost use Rattle.std.specs.Prelude.{◌≡◌, ◌≤◌, [], length, take};
ghost use Rattle.model_list.specs.Counted.{model_places};
ghost use Rattle.model_shown.specs.Display as Spec;

use model_list::Names;
use motor_core::name::Name;

#[tactic(auto, unfolding(crate::specs::Display::display_name, motor_core::specs::Name::name_from, motor_core::specs::Name::name_of))]
pub fn display_model_name(model: Name) -> Name
    ensures { result ≡ Spec.display_name model }
{
    if model.spells(b"4340_v20") {
        return Name::new(b"4340X");
    }
    model
}

// Puts a name last, unless it is there or no place is left.
#[tactic(auto, using(crate::proofs::Shown::none_cut, crate::proofs::Shown::put_kept), unfolding(crate::specs::Display::among, crate::specs::Display::with_name))]
fn show(shown: &mut Names, name: Name)
    ensures { shown.new ≡ take model_places (Spec.with_name shown.old name) }
{
    if !shown.as_slice().contains(&name) {
        shown.push(name);
    }
}

// The models' names as they are shown, each once, as many as an answer has places for.
#[tactic(auto, using(crate::proofs::Shown::next_kept, crate::proofs::Shown::all_kept, std::proofs::lemmas::List::take_all), unfolding(crate::specs::Display::display_after))]
pub fn display_models(models: &[Name]) -> Names
    ensures shown { result ≡ take model_places (Spec.display_after [] models.now) }
    ensures all { length models.now ≤ model_places → result ≡ Spec.display_after [] models.now }
{
    let mut shown = Names::new();
    for model in models {
        show(&mut shown, display_model_name(*model));
    }
    shown
}
