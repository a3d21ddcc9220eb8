// What is done alike with locks on cells and on policies. Those that many slots may hold are a mask; one that a single slot may hold is that slot's number, or 16 for nobody.
ghost use Rattle.std.specs.Prelude.{◌≡◌, ℕ, ◌≤◌, not, ◌&&◌, Decides};
ghost use Rattle.locking.specs.Slots.{has, with_bit, is_holder};
ghost use Rattle.locking.specs.Locks.{Beside};

use crate::slot::SlotIndex;
use crate::slot_set::SlotSet;

// A number beside the slots' own, so that a holder takes one byte of a row.
pub(crate) const NOBODY: u8 = 16;

pub(crate) fn holder_set(holder: u8) -> SlotSet
    ensures { (k : ℕ) → has result.mask k ≡ is_holder holder k }
{
    SlotIndex::new(holder as usize).map_or(SlotSet::empty(), SlotSet::only)
}

// Whether none but the holder, if there is one, is in the set.
pub(crate) fn beside(holder: u8, others: SlotSet) -> bool
    ensures { Decides result (Beside (is_holder holder) (has others.mask)) }
{
    match SlotIndex::new(holder as usize) {
        Some(slot) => others.without(slot).is_empty(),
        None => true,
    }
}

// The holder, unless it is among those that go.
pub(crate) fn holder_without(holder: u8, gone: SlotSet) -> u8
    ensures same { (k : ℕ) → is_holder result k ≡ (is_holder holder k && not (has gone.mask k)) }
    ensures place { holder ≤ 16 → result ≤ 16 }
{
    match SlotIndex::new(holder as usize) {
        Some(slot) if gone.contains(slot) => NOBODY,
        _ => holder,
    }
}

pub(crate) fn mask_with(mask: u16, slot: SlotIndex) -> u16
    ensures { (k : ℕ) → has result k ≡ with_bit (has mask) slot.at k }
{
    SlotSet::from_mask(mask).with(slot).to_mask()
}

pub(crate) fn mask_without(mask: u16, gone: SlotSet) -> u16
    ensures { (k : ℕ) → has result k ≡ (has mask k && not (has gone.mask k)) }
{
    SlotSet::from_mask(mask).minus(gone).to_mask()
}
