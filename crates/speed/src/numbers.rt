// Inputs of five floats each, random.
use crate::random::{Inputs, between, next};
use model_damiao::damiao_models;
use model_list::MODEL_PLACES;
use motor_core::model::Maxima;

// Setpoints that go beyond the limits of model 4310, and those of kp and kd, by so much of their span
// at either end; or queries near a model's limits, with a tolerance, and a number that is not used.
#[derive(Clone, Copy)]
pub(crate) enum Numbers {
    Setpoints(f32),
    Queries(f32),
}

#[derive(Clone, Copy)]
struct Range {
    low: f32,
    high: f32,
}

// How far a query may be from a model's limits.
const REACH: f32 = 2.0;

fn setpoint_range(column: usize) -> Range {
    match column {
        0 => Range {
            low: -12.5,
            high: 12.5,
        },
        1 => Range {
            low: -30.0,
            high: 30.0,
        },
        2 => Range {
            low: 0.0,
            high: 500.0,
        },
        3 => Range {
            low: 0.0,
            high: 5.0,
        },
        _ => Range {
            low: -10.0,
            high: 10.0,
        },
    }
}

fn widened(range: Range, beyond: f32) -> Range {
    let more = beyond * (range.high - range.low);
    Range {
        low: range.low - more,
        high: range.high + more,
    }
}

fn around(limit: f32) -> Range {
    Range {
        low: limit - REACH,
        high: limit + REACH,
    }
}

fn query_range(column: usize, model: Maxima, tolerance: f32) -> Range {
    match column {
        0 => around(model.p_max),
        1 => around(model.v_max),
        2 => around(model.t_max),
        3 => Range {
            low: tolerance,
            high: tolerance,
        },
        _ => Range {
            low: 0.0,
            high: 0.0,
        },
    }
}

fn range_of(kind: Numbers, column: usize, model: Maxima) -> Range {
    match kind {
        Numbers::Setpoints(beyond) => widened(setpoint_range(column), beyond),
        Numbers::Queries(tolerance) => query_range(column, model, tolerance),
    }
}

fn any_model(random: &mut u64) -> Maxima {
    let place = (next(random) % (MODEL_PLACES as u64)) as usize;
    damiao_models().models[place].maxima
}

// The numbers of an input go by one model.
impl Inputs for Numbers {
    type Input = [f32; 5];

    fn fill(self, inputs: &mut [[f32; 5]], random: &mut u64) {
        for input in inputs {
            let model = any_model(random);
            for (column, number) in input.iter_mut().enumerate() {
                let range = range_of(self, column, model);
                *number = between(range.low, range.high, random);
            }
        }
    }
}
