// The slots of the transactions, and the locks that they hold.
ghost use Rattle.lock_table.specs.Rows.{held_by};
ghost use Rattle.slot_table.specs.Slots.{Idle};
ghost use Rattle.slot_table.specs.Tables.{used};

use lock_table::LockTable;
use slot_table::SlotTable;

mod calls;

#[derive(Drop)]
pub struct Tables {
    slots: SlotTable,
    locks: LockTable,
    // No lock is held in a slot that is not open.
    ghost idle: { Idle (used slots) (held_by locks.cells locks.policies) },
}
