// A look: what came no earlier than the opening.
ghost use Rattle.std.specs.Prelude.{◌≡◌};
ghost use Rattle.run_wait.specs.Look as Spec;

use state_cache::Entry;
use state_feedback::FeedbackSnapshot;
use time::Instant;

// The entry if it is fresh. An entry is no `Option`, which has a `filter`.
pub fn fresh_entry(opening: Instant, entry: Entry) -> Entry
    ensures { result ≡ Spec.fresh_entry opening entry }
{
    match entry {
        Entry::Held(value, stamp) if opening <= stamp => Entry::Held(value, stamp),
        Entry::Held(_, _) | Entry::Empty => Entry::Empty,
    }
}

// The latest record if it is fresh.
pub fn fresh_record(opening: Instant, latest: Option<FeedbackSnapshot>) -> Option<FeedbackSnapshot>
    ensures { result ≡ Spec.fresh_record opening latest }
{
    latest.filter(|snapshot| opening <= snapshot.received_at)
}
