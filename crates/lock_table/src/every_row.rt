// The rows of both kinds, by lock.
ghost use Rattle.std.specs.Prelude.{◌≡◌, ◌&&◌, ◌==◌, length};
ghost use Rattle.std.specs.List.{list_any};
ghost use Rattle.locking.specs.Slots.{has};
ghost use Rattle.lock_table.specs.Rows.{Compatible};
ghost use Rattle.lock_table.specs.Held.{AskedOnRow};
ghost use Rattle.lock_table.specs.Lists.{on_one_row, may_hold};
ghost use Rattle.lock_table.specs.Released.{LetGo};

use crate::lock_list::LockList;
use crate::not_granted::NotGranted;
use crate::rows::{ask_at, release_at, release_rows};
use locking::{CellRow, Lock, PolicyRow, SlotIndex, SlotSet};

// Asks for a lock on its row. Those struck for it lose their locks on that row alone; to wait, or to be refused for want of such a row, is to leave all rows as they are.
#[inline(always)]
pub fn ask_on_row(
    cells: &mut [CellRow],
    policies: &mut [PolicyRow],
    slot: SlotIndex,
    lock: Lock,
) -> Result<SlotSet, NotGranted>
    requires compatible { Compatible cells.old policies.old }
    requires celled { length cells.old ≡ 256 }
    requires policed { length policies.old ≡ 64 }
    ensures asked { AskedOnRow cells.old policies.old lock slot.at result cells.new policies.new }
    ensures fits { Compatible cells.new policies.new }
{
    match lock {
        Lock::OnCell(mode, cell) => ask_at(cells, cell, mode, slot),
        Lock::OnPolicy(mode, policy) => ask_at(policies, policy, mode, slot),
    }
}

// The slots of the set lose their locks on the row of this lock.
fn release_beside(cells: &mut [CellRow], policies: &mut [PolicyRow], lock: Lock, gone: SlotSet)
    ensures { LetGo (λ k l. has gone.mask k && on_one_row l lock) cells.old policies.old cells.new policies.new }
{
    match lock {
        Lock::OnCell(_, cell) => release_at(cells, cell, gone),
        Lock::OnPolicy(_, policy) => release_at(policies, policy, gone),
    }
}

// The slots of the set lose their locks on the rows of these locks.
fn release_listed(cells: &mut [CellRow], policies: &mut [PolicyRow], locks: &[Lock], gone: SlotSet)
    ensures { LetGo (λ k l. has gone.mask k && list_any (on_one_row l) locks.now) cells.old policies.old cells.new policies.new }
{
    for lock in locks {
        release_beside(cells, policies, *lock, gone);
    }
}

// The slots of the set lose all their locks.
pub fn release_all(cells: &mut [CellRow], policies: &mut [PolicyRow], gone: SlotSet)
    ensures { LetGo (λ k l. has gone.mask k) cells.old policies.old cells.new policies.new }
{
    release_rows(cells, gone);
    release_rows(policies, gone);
}

// The slot loses its locks on every row on which it may hold some by its list.
pub fn release_by(
    cells: &mut [CellRow],
    policies: &mut [PolicyRow],
    list: &LockList,
    slot: SlotIndex,
)
    ensures { LetGo (λ k l. k == slot.at && may_hold list.now l) cells.old policies.old cells.new policies.new }
{
    let gone = SlotSet::only(slot);
    match list.as_slice() {
        Some(locks) => release_listed(cells, policies, locks, gone),
        None => release_all(cells, policies, gone),
    }
}
