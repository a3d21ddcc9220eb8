// Searches through slots, from the first on.
ghost use Rattle.std.specs.Prelude.{◌≡◌, position};
ghost use Rattle.locking.specs.Slots.{has};
ghost use Rattle.slot_table.specs.Slots.{is_free, slot_named};
ghost use Rattle.slot_table.specs.Lowest.{lowest_in};

use crate::slot::Slot;
use locking::{SlotIndex, SlotSet};
use protocol::TransactionId;

pub fn place_of(slots: &[Slot], transaction: TransactionId) -> Option<usize>
    ensures { result ≡ position (λ s. slot_named s transaction) slots.now }
{
    slots.iter().position(|slot| slot.is_named(transaction))
}

pub fn free_place(slots: &[Slot]) -> Option<usize>
    ensures { result ≡ position is_free slots.now }
{
    slots.iter().position(|slot| slot.is_free())
}

pub fn is_in(set: SlotSet, at: usize) -> bool
    ensures { result ≡ has set.mask at }
{
    match SlotIndex::new(at) {
        Some(slot) => set.contains(slot),
        None => false,
    }
}

// The lowest number of an open slot of the set.
pub fn lowest_of(slots: &[Slot], set: SlotSet) -> Option<TransactionId>
    ensures { result ≡ lowest_in (has set.mask) 0 slots.now }
{
    slots
        .iter()
        .enumerate()
        .filter(|(at, _)| is_in(set, *at))
        .filter_map(|(_, slot)| slot.number_if_open())
        .min()
}
