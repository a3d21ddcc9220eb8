// The table of slots.
ghost use Rattle.std.specs.Prelude.{◌≡◌, ◌+◌, ◌≤◌, length, take, count_by};
ghost use Rattle.slot_table.specs.Slots.{is_open, Numbered, Apart};

use crate::counts::Counts;
use crate::slot::Slot;

mod edits;
mod reads;

#[derive(Drop)]
pub struct SlotTable {
    slots: [Slot; 16],
    // How many of the slots are in use: 16, or 0 in a table that is closed. The memory is fixed, so that a table keeps its 16 slots either way.
    limit: usize,
    counts: Counts,
    ghost sized: { length slots ≡ 16 },
    ghost within: { limit ≤ 16 },
    ghost numbered: { counts.opened ≤ 50000 },
    // Each open transaction can still commit.
    ghost counted: { counts.commits + count_by is_open (take limit slots) ≤ counts.opened },
    ghost known: { Numbered counts.opened (take limit slots) },
    ghost apart: { Apart (take limit slots) },
}
