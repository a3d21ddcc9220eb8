// The calls of the tables, promised in the words of the machine. They check nothing that the engine has checked.
ghost use Rattle.std.specs.Prelude.{◌≡◌, ℕ, suc, true, nat_lt, slice_set, IfSome};
ghost use Rattle.locking.specs.declared.mode.PolicyMode.TheVariants.{Deploy};
ghost use Rattle.workspace.specs.Workspaces.{changes_of};
ghost use Rattle.serial.specs.Words.{Store};
ghost use Rattle.serial.specs.Locks.{OnPolicy};
ghost use Rattle.serial.specs.Changes.{latest, room};
ghost use Rattle.serial.specs.Model.{open_in, any_free, end};
ghost use Rattle.serial.specs.OneDay.{morning};
ghost use Rattle.lock_table.specs.Held.{held};
ghost use Rattle.lock_table.specs.Lists.{Covers};
ghost use Rattle.slot_table.specs.declared.slot.Slot.TheVariants.{Free};
ghost use Rattle.slot_table.specs.Tables.{used, changes_at};
ghost use Rattle.slot_table.specs.Finds.{Finds};
ghost use Rattle.engine.specs.Tables.{closed_state, slots_in, table_state, Commits, OpenIn, NamedAt, asker_in, Acquires, Noted, NotedCall};

use super::Tables;
use crate::denial::Denial;
use lock_table::{LockTable, NotGranted};
use locking::{Lock, PolicyMode, SlotIndex, SlotSet};
use protocol::{Answer, Call, Object, Refusal, TransactionId};
use slot_table::{Found, OpenSlot, SlotTable};
use workspace::Workspace;

impl Tables {
    pub(crate) fn new() -> Tables
        ensures { (s : Store) → table_state s result ≡ morning s }
    {
        Tables {
            slots: SlotTable::new(),
            locks: LockTable::none(),
        }
    }

    // Tables with no slot, so that nothing can be opened.
    #[tactic(auto, unfolding(slot_table::specs::Slots::slots_from))]
    pub(crate) fn closed() -> Tables
        ensures { (s : Store) → table_state s result ≡ closed_state s }
    {
        Tables {
            slots: SlotTable::closed(),
            locks: LockTable::none(),
        }
    }

    #[inline(always)]
    pub(crate) fn find(&self, transaction: TransactionId) -> Found
        ensures { Finds (held self.now.locks) (used self.now.slots) transaction result }
    {
        self.slots.find(transaction)
    }

    pub(crate) fn open(&mut self, subject: u16) -> Answer
        ensures { (s : Store) → (result, table_state s self.new) ≡ open_in (table_state s self.old) subject (nat_lt self.old.slots.counts.opened 50000) (any_free (slots_in self.old)) }
    {
        self.slots.open(subject)
    }

    // The slot is free, and its locks are gone.
    pub(crate) fn end(&mut self, slot: SlotIndex)
        ensures ends { (t : ℕ) → NamedAt self.old slot.at t → slots_in self.new ≡ end t (slots_in self.old) }
        ensures slots { used self.new.slots ≡ slice_set (used self.old.slots) slot.at Free }
        ensures counts { self.new.slots.counts ≡ self.old.slots.counts }
    {
        self.locks.release(SlotSet::only(slot));
        self.slots.end(slot);
    }

    // The same of a transaction that commits; its place in the order of commits.
    pub(crate) fn commit(&mut self, asker: OpenSlot) -> Option<u32>
        ensures { OpenIn self.old asker → Commits self.old asker.id result self.new }
    {
        self.locks.release(SlotSet::only(asker.slot));
        self.slots.commit(asker.slot)
    }

    pub(crate) fn deploys(&self, slot: SlotIndex, policy: u16) -> bool
        ensures { result ≡ held self.now.locks slot.at (OnPolicy Deploy policy) }
    {
        self.locks
            .holds(slot, Lock::OnPolicy(PolicyMode::Deploy, policy))
    }

    // Locks on whose rows all locks of the slot lie, unless they are too many for a list.
    pub(crate) fn listed(&self, slot: SlotIndex) -> Option<&[Lock]>
        ensures { IfSome result (λ locks. Covers locks.now (held self.now.locks slot.at)) }
    {
        self.locks.listed(slot)
    }

    // What is in the workspace of a slot

    pub(crate) fn workspace(&self, slot: SlotIndex) -> Workspace
        ensures { changes_of result ≡ changes_at self.now.slots slot.at }
    {
        self.slots.workspace(slot)
    }

    pub(crate) fn value_of(&self, slot: SlotIndex, object: Object) -> Option<u32>
        ensures { result ≡ latest (changes_at self.now.slots slot.at) object }
    {
        self.slots.value_of(slot, object)
    }

    pub(crate) fn has_room(&self, slot: SlotIndex, object: Object) -> bool
        ensures { result ≡ room (changes_at self.now.slots slot.at) object }
    {
        self.slots.has_room(slot, object)
    }

    // Asks for a lock, for an open transaction: how many others were struck. That it is open in its slot is asked for here, since
    // it is a fact about the tables too, which no type of the asker could keep.
    #[inline(always)]
    pub(crate) fn acquire(&mut self, asker: OpenSlot, lock: Lock) -> Result<u32, Denial>
        requires { OpenIn self.old asker }
        ensures { Acquires self.old asker lock result self.new }
    {
        match self.locks.ask(asker.slot, lock) {
            Ok(struck) => {
                self.slots.abort(struck, asker.id, lock.number());
                Ok(struck.count())
            }
            // A match in a match: of a pattern in a pattern a proof does not learn the inner value.
            Err(not_granted) => match not_granted {
                NotGranted::Absent => Err(Denial::Refused(Refusal::Absent)),
                NotGranted::Blocked(blocked) => match self.slots.lowest(blocked.by) {
                    Some(on) => Err(Denial::Waits(on)),
                    None => unreachable(),
                },
            },
        }
    }

    pub(crate) fn put(&mut self, asker: OpenSlot, object: Object, value: u32)
        ensures { OpenIn self.old asker → room (asker_in self.old asker).changes object ≡ true → Noted self.old asker object value self.new }
    {
        self.slots.put(asker.slot, object, value);
    }

    // The call's change, if it has one, goes into the transaction's workspace.
    #[inline(always)]
    pub(crate) fn note(&mut self, asker: OpenSlot, call: Call)
        ensures { OpenIn self.old asker → NotedCall self.old asker call self.new }
    {
        match call {
            Call::Writes { cell, value } => self.put(asker, Object::OfCell(cell), value),
            Call::Sets { policy, right } => self.put(asker, Object::OfPolicy(policy), right),
            Call::Deploys { .. } | Call::Reads { .. } | Call::Shows { .. } => {}
        }
    }
}
