// What changes the table. For a slot that is not in use nothing changes.
ghost use Rattle.std.specs.Prelude.{◌≡◌, ℕ, ◌+◌, Bool, true, length, Some, None, if◌then◌else◌, nat_lt, slice_index_or, slice_set};
ghost use Rattle.locking.specs.Slots.{has};
ghost use Rattle.serial.specs.Words.{Store};
ghost use Rattle.serial.specs.Locks.{Lock};
ghost use Rattle.serial.specs.Model.{open_in, any_free};
ghost use Rattle.slot_table.specs.Slots.{is_open, Idle, abort_if};
ghost use Rattle.slot_table.specs.Tables.{used, slot_at, slots_of, state_of};
ghost use Rattle.slot_table.specs.Counts.{one_commit_more};
ghost use Rattle.slot_table.specs.Edits.{Ends, Puts, put_in};
ghost use Rattle.slot_table.specs.declared.slot.Slot.TheVariants.{Free};

use super::SlotTable;
use crate::scan::{free_place, is_in};
use crate::slot::{Slot, Transaction};
use locking::{SlotIndex, SlotSet};
use protocol::{Answer, Object, Refusal, TransactionId};
use workspace::Workspace;

// Of the array alone: where a slot is lent out of a field of the table, a proof cannot give the table back.
fn put_at(slots: &mut [Slot], at: usize, object: Object, value: u32)
    ensures here { Puts object value (slice_index_or slots.old at Free) (slice_index_or slots.new at Free) }
    ensures others { slots.new ≡ slice_set slots.old at (slice_index_or slots.new at Free) }
{
    if at < slots.len() {
        slots[at].put(object, value);
    }
}

impl SlotTable {
    pub fn open(&mut self, subject: u16) -> Answer
        ensures model { (s : Store) (h : ℕ → Lock → Bool) → Idle (used self.old) h → (result, state_of s h self.new) ≡ open_in (state_of s h self.old) subject (nat_lt self.old.counts.opened 50000) (any_free (slots_of h self.old)) }
        ensures idle { (h : ℕ → Lock → Bool) → Idle (used self.old) h → Idle (used self.new) h }
    {
        if self.counts.opened >= 50000 {
            return Answer::Refused(Refusal::TooManyOpened);
        }
        let Some(place) = free_place(self.as_slice()) else {
            return Answer::Refused(Refusal::NoFreeSlot);
        };
        let id = self.counts.opened + 1;
        self.counts.opened = id;
        self.slots[place] = Slot::Open(Transaction {
            id,
            subject,
            workspace: Workspace::new(),
        });
        Answer::Granted(u32::from(id))
    }

    // Frees the slot, whether its transaction is open or aborted.
    pub fn end(&mut self, slot: SlotIndex)
        ensures slots { used self.new ≡ slice_set (used self.old) slot.at Free }
        ensures counts { self.new.counts ≡ self.old.counts }
        ensures model { Ends (used self.old) slot.at (used self.new) }
    {
        let at = slot.get();
        if at < self.limit {
            self.slots[at] = Slot::Free;
        }
    }

    // Ends an open transaction, and answers how many have committed with it. A slot that is not open stays.
    pub fn commit(&mut self, slot: SlotIndex) -> Option<u32>
        ensures answer { result ≡ (if is_open (slot_at self.old slot.at) then Some (self.old.counts.commits + 1) else None) }
        ensures slots { used self.new ≡ (if is_open (slot_at self.old slot.at) then slice_set (used self.old) slot.at Free else used self.old) }
        ensures counts { self.new.counts ≡ (if is_open (slot_at self.old slot.at) then one_commit_more self.old.counts else self.old.counts) }
        ensures model { is_open (slot_at self.old slot.at) ≡ true → Ends (used self.old) slot.at (used self.new) }
    {
        let Some(_) = self.transaction(slot) else {
            return None;
        };
        self.end(slot);
        self.counts.commits += 1;
        Some(u32::from(self.counts.commits))
    }

    // The open transactions of the set are aborted; their locks are the caller's to take.
    pub fn abort(&mut self, struck: SlotSet, by: TransactionId, policy: u16)
        ensures slots { (k : ℕ) → slot_at self.new k ≡ abort_if (has struck.mask k) by policy (slot_at self.old k) }
        ensures size { length (used self.new) ≡ length (used self.old) }
        ensures counts { self.new.counts ≡ self.old.counts }
    {
        // Mostly nobody is struck.
        if struck.is_empty() {
            return;
        }
        for (at, slot) in self.slots.iter_mut().enumerate() {
            if is_in(struck, at) {
                slot.abort(by, policy);
            }
        }
    }

    // A change of an open transaction. Where its workspace has no room, that stays as it is.
    pub fn put(&mut self, slot: SlotIndex, object: Object, value: u32)
        ensures model { (h : ℕ → Lock → Bool) → slots_of h self.new ≡ put_in (h slot.at) object value (slot_at self.old slot.at) (slots_of h self.old) }
        ensures kinds { (k : ℕ) → is_open (slot_at self.new k) ≡ is_open (slot_at self.old k) }
        ensures counts { self.new.counts ≡ self.old.counts }
    {
        let at = slot.get();
        if at < self.limit {
            put_at(&mut self.slots, at, object, value);
        }
    }
}
