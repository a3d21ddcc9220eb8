// Plain rows, of each cell and each policy. A lock record is made from a row after a check, and goes back as a whole row. Beside them a list for each slot of the locks that it was granted.
ghost use Rattle.std.specs.Prelude.{◌≡◌, length};
ghost use Rattle.lock_table.specs.Rows.{Compatible, Compatible-prop};
ghost use Rattle.lock_table.specs.Lists.{Listed, Listed-prop};

use crate::lock_list::LockList;
use locking::{CellRow, PolicyRow};

mod calls;

#[derive(Drop)]
pub struct LockTable {
    cells: [CellRow; 256],
    policies: [PolicyRow; 64],
    lists: [LockList; 16],
    ghost celled: { length cells ≡ 256 },
    ghost policed: { length policies ≡ 64 },
    ghost slotted: { length lists ≡ 16 },
    // So that the check of a row never fails.
    ghost compatible: { Compatible cells policies } by { Compatible-prop cells policies },
    // So that a slot's locks are gone once they are gone from the rows of its list.
    ghost listed: { Listed cells policies lists } by { Listed-prop cells policies lists },
}
