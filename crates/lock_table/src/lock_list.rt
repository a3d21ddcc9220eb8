// The locks that a slot was granted since its last release, so that the next has to look at their rows alone.
ghost use Rattle.std.specs.Prelude.{◌≡◌, ℕ, ◌<◌, true, false, cond, ◌||◌, [], Some, None, MatchOption, length, slice_index_or};
ghost use Rattle.std.specs.List.{list_any};
ghost use Rattle.serial.specs.Locks.{Lock};
ghost use Rattle.locking.specs.Slots.{has};
ghost use Rattle.lock_table.specs.Lists.{no_list, on_one_row, may_hold, locks_in, listed_of, one_more};

use locking::{CellMode, Lock, SlotSet};

// A transaction mostly holds few locks. Past 32 they are only counted, and the slot's release looks at every row.
#[derive(Clone, Copy)]
pub(crate) struct LockList {
    locks: [Lock; 32],
    count: usize,
}

impl LockList {
    pub(crate) fn new() -> LockList
        ensures rows { (l : Lock) → may_hold result l ≡ false }
        ensures locks { locks_in result ≡ Some [] }
    {
        LockList {
            locks: [Lock::OnCell(CellMode::ReadCell, 0); 32],
            count: 0,
        }
    }

    // The locks, unless they were too many for the list.
    pub(crate) fn as_slice(&self) -> Option<&[Lock]>
        ensures rows { MatchOption result (32 < self.now.count) (λ locks. (l : Lock) → may_hold self.now l ≡ list_any (on_one_row l) locks.now) }
        ensures locks { MatchOption result (locks_in self.now ≡ None) (λ locks. locks_in self.now ≡ Some locks.now) }
    {
        self.locks.get(..self.count)
    }

    pub(crate) fn push(&mut self, lock: Lock)
        ensures rows { (l : Lock) → (may_hold self.old l || on_one_row l lock) ≡ true → may_hold self.new l ≡ true }
        ensures locks { locks_in self.new ≡ one_more lock (locks_in self.old) }
    {
        if self.count < self.locks.len() {
            self.locks[self.count] = lock;
        }
        self.count = self.count.saturating_add(1);
    }

    pub(crate) fn clear(&mut self)
        ensures rows { (l : Lock) → may_hold self.new l ≡ false }
        ensures locks { locks_in self.new ≡ Some [] }
    {
        self.count = 0;
    }
}

// The lists of the slots of the set have no locks; the others stand.
pub(crate) fn clear_lists(lists: &mut [LockList], slots: SlotSet)
    requires { length lists.old ≡ 16 }
    ensures cleared { (k : ℕ) → listed_of lists.new k ≡ cond (has slots.mask k) (Some []) (listed_of lists.old k) }
    ensures others { (k : ℕ) →
        has slots.mask k ≡ false → slice_index_or lists.new k no_list ≡ slice_index_or lists.old k no_list }
{
    let mut rest = slots;
    while let Some(slot) = rest.pop_lowest() {
        lists[slot.get()].clear();
    }
}
