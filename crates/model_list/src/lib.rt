// A list of models, and a model's limits by its name.
#![tactic(auto)]

ghost use Rattle.std.specs.Prelude.{◌≡◌, ◌≤◌, min, [], length};
ghost use Rattle.model_list.specs.Counted.{model_places, models_of};
ghost use Rattle.model_list.specs.Models.{limits_by_name};
ghost use Rattle.model_list.specs.Places.{put_last};

use motor_core::error::Refusal;
use motor_core::model::Maxima;
use motor_core::name::Name;
use std::marker::Model;

// How many models a list has room for, and so how many names an answer has.
pub const MODEL_PLACES: usize = 16;

const EMPTY_PLACE: Name = Name {
    bytes: [0; 15],
    len: 0,
};

#[derive(Clone, Copy)]
pub struct MotorModelSpec {
    pub model: Name,
    pub maxima: Maxima,
}

// The first `count` are the list's models. The places are fixed: the core has no heap.
#[derive(Clone, Copy)]
pub struct ModelList {
    pub models: [MotorModelSpec; MODEL_PLACES],
    pub count: u8,
}

// A list of names. The places after the first `count` are empty; they are fixed as a list's are.
#[derive(Clone, Copy)]
pub struct Names {
    names: [Name; MODEL_PLACES],
    count: u8,
}

impl Model for Names {
    ghost use Rattle.std.specs.Prelude.{List, length, take};
    ghost use Rattle.motor_core.specs.declared.name.Name.{Name};
    ghost use Rattle.model_list.specs.Places.{in_places, OnlyFirst};

    ghost Value = { List Name };

    ghost view = { λ n. take n.count n.names };

    ghost invariant = { λ n. OnlyFirst n.count n.names };

    ghost inverse = { λ names. record { names = in_places names; count = length names } };

    ghost use mathlib.Core.Path.{sym};

    ghost inverse_ok = { λ n h i. record {
      names = sym h.empty_after i;
      count = sym h.counted i;
    } };
}

impl ModelList {
    pub fn models(&self) -> &[MotorModelSpec]
        ensures models { result.now ≡ models_of self.now }
        ensures room { length result.now ≤ model_places }
    {
        &self.models[..places(self.count)]
    }
}

impl Names {
    pub fn new() -> Names
        ensures { result ≡ [] }
    {
        Names {
            names: [EMPTY_PLACE; MODEL_PLACES],
            count: 0,
        }
    }

    pub fn as_slice(&self) -> &[Name]
        ensures names { result.now ≡ self.now }
        ensures room { length result.now ≤ model_places }
    {
        &self.names[..usize::from(self.count)]
    }

    // Puts a name last, if there is room.
    #[tactic(auto, unfolding(crate::specs::Places::put_last))]
    pub fn push(&mut self, name: Name)
        ensures { self.new ≡ put_last self.old name }
    {
        let count = usize::from(self.count);
        if count < MODEL_PLACES {
            self.names[count] = name;
            self.count += 1;
        }
    }
}

// The count, or the number of places where it is greater.
fn places(count: u8) -> usize
    ensures { result ≡ min count model_places }
{
    usize::from(count).min(MODEL_PLACES)
}

// The maxima of the first model of that name.
#[tactic(auto, unfolding(crate::specs::Models::limits_by_name))]
pub fn model_limits(list: &ModelList, name: &[u8]) -> Result<Maxima, Refusal>
    ensures { result ≡ limits_by_name (models_of list.now) name.now }
{
    for spec in list.models() {
        if spec.model.spells(name) {
            return Ok(spec.maxima);
        }
    }
    Err(Refusal::Model)
}
