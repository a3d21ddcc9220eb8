// New tables, and what a table answers without a change.
ghost use Rattle.std.specs.Prelude.{◌≡◌, ℕ, ◌≤◌, Bool, false, [], replicate, MatchOption};
ghost use Rattle.workspace.specs.Workspaces.{changes_of};
ghost use Rattle.serial.specs.Changes.{latest, room};
ghost use Rattle.locking.specs.Slots.{has};
ghost use Rattle.serial.specs.Locks.{Lock};
ghost use Rattle.serial.specs.Model.{free};
ghost use Rattle.slot_table.specs.Slots.{is_open};
ghost use Rattle.slot_table.specs.Tables.{used, slot_at, slots_of, changes_at};
ghost use Rattle.slot_table.specs.Counts.{no_counts};
ghost use Rattle.slot_table.specs.Finds.{Finds};
ghost use Rattle.slot_table.specs.Lowest.{lowest_in};
ghost use Rattle.slot_table.specs.declared.slot.Slot.TheVariants.{Free, Open};

use super::SlotTable;
use crate::counts::Counts;
use crate::found::Found;
use crate::scan::{lowest_of, place_of};
use crate::slot::{OpenSlot, Slot, Transaction};
use locking::{SlotIndex, SlotSet};
use protocol::{Object, TransactionId};
use workspace::Workspace;

impl SlotTable {
    // The slots in use are free, and nothing was opened yet.
    fn with_limit(limit: usize) -> SlotTable
        requires { limit ≤ 16 }
        ensures slots { used result ≡ replicate limit Free }
        ensures counts { result.counts ≡ no_counts }
    {
        SlotTable {
            slots: [Slot::Free; 16],
            limit,
            counts: Counts::default(),
        }
    }

    #[tactic(auto, unfolding(crate::specs::Slots::slots_from))]
    pub fn new() -> SlotTable
        ensures slots { (h : ℕ → Lock → Bool) → slots_of h result ≡ replicate 16 free }
        ensures counts { result.counts ≡ no_counts }
    {
        SlotTable::with_limit(16)
    }

    // No slot is in use, so that nothing can be opened.
    pub fn closed() -> SlotTable
        ensures slots { used result ≡ [] }
        ensures counts { result.counts ≡ no_counts }
    {
        SlotTable::with_limit(0)
    }

    pub(super) fn as_slice(&self) -> &[Slot]
        ensures { result.now ≡ used self.now }
    {
        &self.slots[0..self.limit]
    }

    // The open transaction in the slot. It is lent, since a copy would be one of 16 changes.
    pub(super) fn transaction(&self, slot: SlotIndex) -> Option<&Transaction>
        ensures { MatchOption result (is_open (slot_at self.now slot.at) ≡ false) (λ x. slot_at self.now slot.at ≡ Open x.now) }
    {
        self.as_slice().get(slot.get())?.transaction()
    }

    pub fn find(&self, transaction: TransactionId) -> Found
        ensures { (h : ℕ → Lock → Bool) → Finds h (used self.now) transaction result }
    {
        let Some(place) = place_of(self.as_slice(), transaction) else {
            return Found::Nobody;
        };
        let Some(slot) = SlotIndex::new(place) else {
            return Found::Nobody;
        };
        match &self.slots[place] {
            Slot::Free => Found::Nobody,
            Slot::Open(open) => Found::Open(OpenSlot {
                slot,
                id: open.id,
                subject: open.subject,
            }),
            Slot::Aborted { by, policy, .. } => Found::Aborted {
                slot,
                by: *by,
                policy: *policy,
            },
        }
    }

    // A copy of the workspace of the open transaction in the slot; an empty one where there is no such transaction.
    pub fn workspace(&self, slot: SlotIndex) -> Workspace
        ensures { changes_of result ≡ changes_at self.now slot.at }
    {
        match self.transaction(slot) {
            Some(open) => open.workspace,
            None => Workspace::new(),
        }
    }

    pub fn value_of(&self, slot: SlotIndex, object: Object) -> Option<u32>
        ensures { result ≡ latest (changes_at self.now slot.at) object }
    {
        match self.transaction(slot) {
            Some(open) => open.workspace.value_of(object),
            None => None,
        }
    }

    // Where there are no changes, there is room.
    pub fn has_room(&self, slot: SlotIndex, object: Object) -> bool
        ensures { result ≡ room (changes_at self.now slot.at) object }
    {
        match self.transaction(slot) {
            Some(open) => open.workspace.has_room(object),
            None => true,
        }
    }

    pub fn lowest(&self, set: SlotSet) -> Option<TransactionId>
        ensures { result ≡ lowest_in (has set.mask) 0 (used self.now) }
    {
        lowest_of(self.as_slice(), set)
    }
}
