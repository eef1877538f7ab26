// The calls on the list of models.
use crate::fields::{number_at, real_at};
use crate::page::Page;
use model_damiao::damiao_models;
use model_list::Names;
use model_match::match_models_by_limits;
use model_query::Query;
use model_suggest::suggest_models_by_limits;
use motor_core::error::Refusal;
use script::{Call, CallName};

pub(crate) fn answer(page: &mut Page, call: Call) -> Result<(), Refusal> {
    let names = match call.name {
        CallName::Match => match_models_by_limits(&damiao_models(), query(call), real_at(call, 3)),
        _ => suggest_models_by_limits(&damiao_models(), query(call), number_at(call, 3)),
    };
    put_names(page, &names?);
    Ok(())
}

fn query(call: Call) -> Query {
    Query {
        p: real_at(call, 0),
        v: real_at(call, 1),
        t: real_at(call, 2),
    }
}

fn put_names(page: &mut Page, names: &Names) {
    page.put(b"models");
    for name in names.as_slice() {
        page.put_word(name.as_bytes());
    }
}
