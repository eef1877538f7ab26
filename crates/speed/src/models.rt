// Queries of the model list. The checksum has every name that is listed, in order.
use crate::sums::mixed;
use model_damiao::damiao_models;
use model_list::{ModelList, Names};
use model_match::match_models_by_limits;
use model_query::Query;
use model_suggest::suggest_models_by_limits;
use motor_core::name::Name;

// The length and the first four bytes of a name.
fn code(name: &Name) -> u64 {
    let bytes = name.bytes;
    let first = u32::from_le_bytes([bytes[0], bytes[1], bytes[2], bytes[3]]);
    u64::from(name.len) + u64::from(first) * 0x100
}

fn names_total(names: &Names) -> u64 {
    names
        .as_slice()
        .iter()
        .fold(0, |sum, name| mixed(sum, code(name)))
}

fn query(input: [f32; 5]) -> Query {
    Query {
        p: input[0],
        v: input[1],
        t: input[2],
    }
}

// A query's names are made and read in a function without a loop, so that the compiler need not copy them.
fn matched_total(list: &ModelList, input: [f32; 5]) -> u64 {
    match_models_by_limits(list, query(input), input[3]).map_or(0, |names| names_total(&names))
}

fn suggested_total(list: &ModelList, input: [f32; 5]) -> u64 {
    suggest_models_by_limits(list, query(input), 3).map_or(0, |names| names_total(&names))
}

pub(crate) fn match_all(inputs: &[[f32; 5]]) -> u64 {
    let list = damiao_models();
    inputs
        .iter()
        .fold(0, |sum, input| mixed(sum, matched_total(&list, *input)))
}

pub(crate) fn suggest_all(inputs: &[[f32; 5]]) -> u64 {
    let list = damiao_models();
    inputs
        .iter()
        .fold(0, |sum, input| mixed(sum, suggested_total(&list, *input)))
}
