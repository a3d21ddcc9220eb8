// Rows of one kind, for the cells or for the policies: asked, read and released one by one.
ghost use Rattle.std.specs.Prelude.{◌≡◌, ℕ, ◌<◌, false, ◌&&◌, ◌==◌, MatchOption, length, slice_index_or};
ghost use Rattle.locking.specs.Slots.{has};
ghost use Rattle.lock_table.specs.Asked.{RowAsked};
ghost use Rattle.lock_table.specs.Released.{Released};

use crate::not_granted::NotGranted;
use locking::{Granted, LockRow, Locks, SlotIndex, SlotSet};

// The locks of the row, if there is such a row.
fn locks_at<R: LockRow>(rows: &[R], at: u16) -> Option<Locks<R>>
    ensures { MatchOption result
        (at < length rows.now → R.compatible (slice_index_or rows.now at R.none) → ⊥)
        (λ locks. (at < length rows.now) × (locks.row ≡ slice_index_or rows.now at R.none)) }
{
    let row = rows.get(at as usize)?;
    Locks::from_row(*row)
}

// Where there is no such row, nobody holds a lock. No lock record is made: who holds what is plain in any row.
pub fn holds_at<R: LockRow>(rows: &[R], at: u16, mode: R::Mode, slot: SlotIndex) -> bool
    ensures { result ≡ R.holds (slice_index_or rows.now at R.none) mode slot.at }
{
    match rows.get(at as usize) {
        Some(row) => row.holders(mode).contains(slot),
        None => false,
    }
}

// To wait, or to be refused for want of such a row, is to leave all rows as they are.
#[inline(always)]
pub fn ask_at<R: LockRow>(
    rows: &mut [R],
    at: u16,
    mode: R::Mode,
    slot: SlotIndex,
) -> Result<SlotSet, NotGranted>
    ensures { RowAsked R.LockRow R.Mode.eq rows.old at mode slot.at result rows.new }
{
    let Some(locks) = locks_at(rows, at) else {
        return Err(NotGranted::Absent);
    };
    let Granted { locks, struck } = locks.ask(mode, slot)?;
    rows[at as usize] = locks.to_row();
    Ok(struck)
}

// The slots of the set lose their locks on that row, if there is one.
pub fn release_at<R: LockRow>(rows: &mut [R], at: u16, gone: SlotSet)
    ensures { (i : ℕ) → Released R.LockRow (λ k. has gone.mask k && i == at) (slice_index_or rows.old i R.none) (slice_index_or rows.new i R.none) }
{
    let at = at as usize;
    if at < rows.len() {
        rows[at] = rows[at].without(gone);
    }
}

// The slots of the set lose their locks on every row.
pub fn release_rows<R: LockRow>(rows: &mut [R], gone: SlotSet)
    ensures { (i : ℕ) → Released R.LockRow (has gone.mask) (slice_index_or rows.old i R.none) (slice_index_or rows.new i R.none) }
{
    for row in rows.iter_mut() {
        *row = row.without(gone);
    }
}
