// The step of each run's machine by an answer: the machine that goes on, or the run's end. It sees the
// latest record and the one entry that the machine looks at.
#![tactic(auto)]

ghost use Rattle.std.specs.Prelude.{◌≡◌};
ghost use Rattle.run_step.specs.Step as Spec;

use run_fresh::state_step;
use run_fresh::store::store_step;
use run_machine::{Machine, Outcome};
use run_read::get_step;
use run_want::{Answer, Stepped};
use run_write::write_step;
use state_cache::Entry;
use state_feedback::FeedbackSnapshot;
use switch_step::switch_step;

// With the latest record, and the entry at the machine's place.
pub fn machine_step(
    latest: Option<FeedbackSnapshot>,
    entry: Entry,
    machine: Machine,
    answer: Answer,
) -> Stepped<Machine, Outcome>
    ensures { result ≡ Spec.machine_step latest entry machine answer }
{
    match machine {
        Machine::GetRegister(data_type, rid, timeout, ask) => {
            let step = get_step(data_type, timeout, entry, ask, answer)?;
            Ok(
                step.map_continue(|ask| Machine::GetRegister(data_type, rid, timeout, ask))
                    .map_break(Outcome::Value),
            )
        }
        Machine::WriteRegister(rid, value, write) => {
            let step = write_step(value, entry, write, answer)?;
            Ok(
                step.map_continue(|write| Machine::WriteRegister(rid, value, write))
                    .map_break(|()| Outcome::Done),
            )
        }
        Machine::RequestFreshState(timeout, ask) => {
            let step = state_step(timeout, latest, ask, answer)?;
            Ok(
                step.map_continue(|ask| Machine::RequestFreshState(timeout, ask))
                    .map_break(Outcome::State),
            )
        }
        Machine::StoreParameters(store) => {
            let step = store_step(latest, store, answer)?;
            Ok(
                step.map_continue(Machine::StoreParameters)
                    .map_break(|()| Outcome::Done),
            )
        }
        Machine::EnsureControlMode(mode, timeout, switch) => {
            let step = switch_step(mode, timeout, entry, switch, answer)?;
            Ok(
                step.map_continue(|switch| Machine::EnsureControlMode(mode, timeout, switch))
                    .map_break(|()| Outcome::Done),
            )
        }
    }
}
