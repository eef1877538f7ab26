// What the motor last said of a register, in a reply or in an ack: an entry with its stamp, and where
// a run looks for it.
#![tactic(auto)]

ghost use Rattle.std.specs.Prelude.{◌≡◌};
ghost use Rattle.state_cache.specs.Cache as Spec;

use motor_core::error::Refusal;
use registers::RegisterValue;
use time::Instant;

// What the motor last said of a register. Document 01 names the two cases.
#[derive(Clone, Copy)]
pub enum Entry {
    Empty,
    Held(RegisterValue, Instant),
}

// A register's slot among the replies, or among the acks.
#[derive(Clone, Copy)]
pub enum Place {
    Reply(u8),
    Ack(u8),
}

impl Entry {
    // The value that it holds.
    pub fn value(self) -> Option<RegisterValue>
        ensures { result ≡ Spec.value_in self }
    {
        match self {
            Entry::Empty => None,
            Entry::Held(value, _) => Some(value),
        }
    }
}

// Where a register's slot stands; for a number from 82 on, which has none, 0. The test is there for the
// compiler too: knowing the bound, it copies a session whole and not field by field.
#[tactic(auto, unfolding(crate::specs::Cache::slot_index))]
pub fn slot_index(rid: u8) -> usize
    ensures { result ≡ Spec.slot_index rid }
{
    if rid < 82 { usize::from(rid) } else { 0 }
}

// What is in a register's slot; for a number from 82 on nothing.
pub fn slot_of(slots: &[Entry; 82], rid: u8) -> Entry
    ensures { result ≡ Spec.slot_of slots.now rid }
{
    slots.get(usize::from(rid)).copied().unwrap_or(Entry::Empty)
}

// A register's entry among a session's replies, or among its acks.
pub fn cached_entry(slots: [Entry; 82], rid: u8) -> Result<Entry, Refusal>
    ensures { result ≡ Spec.cached_entry slots rid }
{
    if !registers::is_known(rid) {
        return Err(Refusal::Register);
    }
    Ok(slot_of(&slots, rid))
}
