// The calls of the table, promised by who holds which lock.
ghost use Rattle.std.specs.Prelude.{◌≡◌, ℕ, ◌<◌, true, false, cond, not, ◌&&◌, ◌==◌, [], Some, None, OnOk, OnErr, MatchOption, Decides, slice_index_or};
ghost use Rattle.locking.specs.Slots.{has};
ghost use Rattle.serial.specs.Locks.{Lock};
ghost use Rattle.lock_table.specs.Held.{held, Asked, AskedOnRow};
ghost use Rattle.lock_table.specs.Lists.{no_list, Covers, listed_of, one_more};

use super::LockTable;
use crate::every_row::{ask_on_row, release_all, release_by};
use crate::lock_list::{LockList, clear_lists};
use crate::not_granted::NotGranted;
use crate::rows::holds_at;
use locking::{CellLocks, Lock, PolicyLocks, SlotIndex, SlotSet};

impl LockTable {
    pub fn none() -> LockTable
        ensures locks { (k : ℕ) (l : Lock) → held result k l ≡ false }
        ensures lists { (k : ℕ) → listed_of result.lists k ≡ Some [] }
    {
        let cell = CellLocks::none().to_row();
        let policy = PolicyLocks::none().to_row();
        LockTable {
            cells: [cell; 256],
            policies: [policy; 64],
            lists: [LockList::new(); 16],
        }
    }

    pub fn holds(&self, slot: SlotIndex, lock: Lock) -> bool
        ensures { result ≡ held self.now slot.at lock }
    {
        match lock {
            Lock::OnCell(mode, cell) => holds_at(&self.cells, cell, mode, slot),
            Lock::OnPolicy(mode, policy) => holds_at(&self.policies, policy, mode, slot),
        }
    }

    // The locks that the slot was granted since its last release, on whose rows all its locks lie, so that a search need not ask
    // every row. `None` where they are more than 32.
    pub fn listed(&self, slot: SlotIndex) -> Option<&[Lock]>
        ensures covers { MatchOption result (32 < (slice_index_or self.now.lists slot.at no_list).count) (λ locks. Covers locks.now (held self.now slot.at)) }
        ensures locks { MatchOption result
            (listed_of self.now.lists slot.at ≡ None)
            (λ locks. listed_of self.now.lists slot.at ≡ Some locks.now) }
    {
        self.lists[slot.get()].as_slice()
    }

    // The slot loses all its locks, and its list has none.
    fn release_slot(&mut self, slot: SlotIndex)
        ensures locks { (k : ℕ) (l : Lock) → held self.new k l ≡ (held self.old k l && not (k == slot.at)) }
        ensures lists { (k : ℕ) →
            listed_of self.new.lists k ≡ cond (k == slot.at) (Some []) (listed_of self.old.lists k) }
    {
        release_by(
            &mut self.cells,
            &mut self.policies,
            &self.lists[slot.get()],
            slot,
        );
        self.lists[slot.get()].clear();
    }

    // Whether some slot of the set was granted more locks than its list keeps.
    fn exceeds_list(&self, slots: SlotSet) -> bool
        ensures { Decides result ((k : ℕ) × (has slots.mask k ≡ true) × (listed_of self.now.lists k ≡ None)) }
    {
        let mut rest = slots;
        while let Some(slot) = rest.pop_lowest() {
            if self.listed(slot).is_none() {
                return true;
            }
        }
        false
    }

    // The whole set by one pass over every row.
    fn release_at_once(&mut self, gone: SlotSet)
        ensures locks { (k : ℕ) (l : Lock) → held self.new k l ≡ (held self.old k l && not (has gone.mask k)) }
        ensures lists { (k : ℕ) →
            listed_of self.new.lists k ≡ cond (has gone.mask k) (Some []) (listed_of self.old.lists k) }
    {
        release_all(&mut self.cells, &mut self.policies, gone);
        clear_lists(&mut self.lists, gone);
    }

    // A slot whose list is too short for its locks costs a pass over every row. So where several slots go, and one of
    // them is such a slot, a single pass lets them all go; else each goes by its own list.
    fn release_slots(&mut self, gone: SlotSet)
        ensures locks { (k : ℕ) (l : Lock) → held self.new k l ≡ (held self.old k l && not (has gone.mask k)) }
        ensures lists { (k : ℕ) →
            listed_of self.new.lists k ≡ cond (has gone.mask k) (Some []) (listed_of self.old.lists k) }
    {
        if gone.count() > 1 && self.exceeds_list(gone) {
            self.release_at_once(gone);
            return;
        }
        let mut rest = gone;
        while let Some(slot) = rest.pop_lowest() {
            self.release_slot(slot);
        }
    }

    /// The slots of the set lose all their locks, and their lists have none.
    // Inlined for its test, since a lock is mostly granted with nobody struck.
    #[inline(always)]
    pub fn release(&mut self, gone: SlotSet)
        ensures locks { (k : ℕ) (l : Lock) → held self.new k l ≡ (held self.old k l && not (has gone.mask k)) }
        ensures lists { (k : ℕ) →
            listed_of self.new.lists k ≡ cond (has gone.mask k) (Some []) (listed_of self.old.lists k) }
    {
        if !gone.is_empty() {
            self.release_slots(gone);
        }
    }

    // Asks for a lock on its row, and lists it. Those struck for it have lost their locks on that row alone.
    #[inline(always)]
    fn ask_row(&mut self, slot: SlotIndex, lock: Lock) -> Result<SlotSet, NotGranted>
        ensures asked { AskedOnRow self.old.cells self.old.policies lock slot.at result self.new.cells self.new.policies }
        ensures stays { OnErr result (self.new ≡ self.old) }
        ensures lists { OnOk result ((k : ℕ) →
            listed_of self.new.lists k
            ≡ cond (k == slot.at) (one_more lock (listed_of self.old.lists k)) (listed_of self.old.lists k)) }
    {
        let struck = ask_on_row(&mut self.cells, &mut self.policies, slot, lock)?;
        self.lists[slot.get()].push(lock);
        Ok(struck)
    }

    // Inlined down to the row, since a caller knows of which kind the lock is, and of which mode.
    // Asks for a lock, and answers who is struck for it. To wait, or to be refused for want of such a row, is to leave all as it is.
    #[inline(always)]
    pub fn ask(&mut self, slot: SlotIndex, lock: Lock) -> Result<SlotSet, NotGranted>
        ensures { Asked self.old lock slot.at result self.new }
    {
        // Held already, it stands in the list, and nobody counts.
        if self.holds(slot, lock) {
            return Ok(SlotSet::empty());
        }
        let struck = self.ask_row(slot, lock)?;
        self.release(struck);
        Ok(struck)
    }
}
