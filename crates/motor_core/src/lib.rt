// What every motor shares: frames on the bus, limits, names and the numbers of refusals. `bus` and
// `model` have what is used of the Rust's files of these names; `error` has refusal numbers where the
// Rust has MotorError, and `name` stands for its strings.
#![tactic(auto)]

pub mod bus;
pub mod error;
pub mod model;
pub mod name;
