// Storing: `store_parameters`.
ghost use Rattle.std.specs.Prelude.{◌≡◌};
ghost use Rattle.run_fresh.specs.Store as Spec;

use crate::{state_step, state_want};
use run_wait::ask::Ask;
use run_want::message::Message;
use run_want::{Answer, Stepped, Want, send_outcome};
use state_feedback::{FeedbackSnapshot, MotorFeedbackState};
use std::ops::ControlFlow;
use time::Duration;

// 50 ms, 20 ms and 30 ms.
const STORE_PARAMS_STATE_TIMEOUT: Duration = Duration(50_000_000);

const STORE_PARAMS_DISABLE_SETTLE: Duration = Duration(20_000_000);

const STORE_PARAMS_SETTLE: Duration = Duration(30_000_000);

// The request, the disable frame and the sleep after it, the store frame and the sleep after it.
#[derive(Clone, Copy)]
pub enum Store {
    Asking(Ask),
    Disabling,
    Disabled,
    Storing,
    Stored,
}

pub fn store_want(store: Store) -> Want<Message>
    ensures { result ≡ Spec.store_want store }
{
    match store {
        Store::Asking(ask) => state_want(ask),
        Store::Disabling => Want::Send(Message::Disable),
        Store::Disabled => Want::Sleep(STORE_PARAMS_DISABLE_SETTLE),
        Store::Storing => Want::Send(Message::StoreParams),
        Store::Stored => Want::Sleep(STORE_PARAMS_SETTLE),
    }
}

// A motor that says that it is disabled needs no disable.
fn by_status(state: MotorFeedbackState) -> Store
    ensures { result ≡ Spec.by_status state }
{
    if state.status_code == 0 {
        return Store::Storing;
    }
    Store::Disabling
}

// Whatever the request came to, storing goes on.
fn store_asked(next: Stepped<Ask, Option<MotorFeedbackState>>) -> Store
    ensures { result ≡ Spec.store_asked next }
{
    match next {
        Ok(ControlFlow::Continue(ask)) => Store::Asking(ask),
        Ok(ControlFlow::Break(Some(state))) => by_status(state),
        Ok(ControlFlow::Break(None)) => Store::Disabling,
        Err(_) => Store::Disabling,
    }
}

pub fn store_step(
    latest: Option<FeedbackSnapshot>,
    store: Store,
    answer: Answer,
) -> Stepped<Store, ()>
    ensures { result ≡ Spec.store_step latest store answer }
{
    match store {
        Store::Asking(ask) => Ok(ControlFlow::Continue(store_asked(state_step(
            STORE_PARAMS_STATE_TIMEOUT,
            latest,
            ask,
            answer,
        )))),
        Store::Disabling => {
            send_outcome(answer)?;
            Ok(ControlFlow::Continue(Store::Disabled))
        }
        Store::Disabled => Ok(ControlFlow::Continue(Store::Storing)),
        Store::Storing => {
            send_outcome(answer)?;
            Ok(ControlFlow::Continue(Store::Stored))
        }
        Store::Stored => Ok(ControlFlow::Break(())),
    }
}
