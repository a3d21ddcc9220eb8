// What the engine sees: what is stored, what a transaction sees of it, and what its policies permit.
ghost use Rattle.std.specs.Prelude.{◌≡◌, ℕ, ◌<◌, ◌&&◌, length, slice_index, slice_index_or};
ghost use Rattle.protocol.specs.declared.policy.Policy.{Policy};
ghost use Rattle.serial.specs.Words.{same_object, change_kind};
ghost use Rattle.serial.specs.Changes.{stored, seen};
ghost use Rattle.serial.specs.Model.{permitted};
ghost use Rattle.lock_table.specs.Held.{held};
ghost use Rattle.slot_table.specs.Tables.{changes_at};
ghost use Rattle.engine.specs.Tables.{asker_in};
ghost use Rattle.engine.specs.Engines.{store_of, setup_of, is_there};
ghost use Rattle.engine.specs.Permits.{permits_at, permits_by};

use super::Engine;
use locking::{Lock, SlotIndex};
use protocol::{Object, Policy};
use rights::{ChangeKind, Operation, RightsOrder, change_of};
use slot_table::OpenSlot;
use stores::Store;

// The number at a position; 0 where there is none, as in the lists of the machine.
fn number_at<S: Store>(store: &S, at: usize) -> u32
    ensures { result ≡ slice_index (S.Store.list store.now) at }
{
    store.read(at).unwrap_or(0)
}

impl<C: Store, R: Store, O: RightsOrder> Engine<'_, '_, '_, C, R, O> {
    pub(super) fn has(&self, object: Object) -> bool
        ensures { result ≡ is_there (setup_of O.RightsOrder self.now) (store_of C.Store R.Store self.now) object }
    {
        match object {
            Object::OfCell(cell) => (cell as usize) < self.size.min(self.cells.size()),
            Object::OfPolicy(policy) => (policy as usize) < self.policies.len(),
        }
    }

    pub(super) fn stored(&self, object: Object) -> u32
        ensures { result ≡ stored (store_of C.Store R.Store self.now) object }
    {
        match object {
            Object::OfCell(cell) => {
                if (cell as usize) < self.size {
                    number_at(self.cells, cell as usize)
                } else {
                    0
                }
            }
            Object::OfPolicy(policy) => number_at(self.rights, policy as usize),
        }
    }

    // The transaction's own change, or else what is stored.
    #[tactic(auto, unfolding(serial::specs::Changes::seen))]
    pub(super) fn seen(&self, slot: SlotIndex, object: Object) -> u32
        ensures { result ≡ seen (store_of C.Store R.Store self.now) (changes_at self.now.tables.slots slot.at) object }
    {
        match self.tables.value_of(slot, object) {
            Some(value) => value,
            None => self.stored(object),
        }
    }

    #[tactic(auto, unfolding(serial::specs::Words::change_kind))]
    pub(super) fn kind_of(&self, policy: u16, right: u32) -> ChangeKind
        ensures { result ≡ change_kind (setup_of O.RightsOrder self.now) (slice_index (store_of C.Store R.Store self.now).rights policy) right }
    {
        change_of(self.order, self.stored(Object::OfPolicy(policy)), right)
    }

    // Whether the policy, which is number `at`, is deployed, has the object, and permits the operation by its right in force. The object is
    // compared first, since few policies have it, and to ask for a lock costs more.
    fn policy_permits(
        &self,
        slot: SlotIndex,
        object: Object,
        operation: Operation,
        at: u16,
        policy: &Policy,
    ) -> bool
        ensures { result ≡ permits_at (setup_of O.RightsOrder self.now) (store_of C.Store R.Store self.now) (held self.now.tables.locks slot.at) object operation at policy.now }
    {
        policy.object == object
            && self.tables.deploys(slot, at)
            && self
                .order
                .permits(number_at(self.rights, at as usize), operation)
    }

    // The same of the policy that the lock is on. A lock on a cell permits nothing.
    fn lock_permits(
        &self,
        slot: SlotIndex,
        object: Object,
        operation: Operation,
        lock: Lock,
    ) -> bool
        ensures { result ≡ permits_by (setup_of O.RightsOrder self.now) (store_of C.Store R.Store self.now) (held self.now.tables.locks slot.at) object operation lock }
    {
        match lock {
            Lock::OnCell(..) => false,
            Lock::OnPolicy(_, at) => match self.policies.get(at as usize) {
                Some(policy) => self.policy_permits(slot, object, operation, at, policy),
                None => false,
            },
        }
    }

    // A policy that is deployed has a lock on it: so the policies of the slot's listed locks suffice, where it has a list.
    pub(super) fn permitted(&self, asker: OpenSlot, object: Object, operation: Operation) -> bool
        ensures { result ≡ permitted (setup_of O.RightsOrder self.now) (store_of C.Store R.Store self.now) (asker_in self.now.tables asker) object operation }
    {
        match self.tables.listed(asker.slot) {
            Some(locks) => locks.iter().any(|lock| self.lock_permits(
                asker.slot, object, operation, *lock,
            )),
            None => self.policies.iter().enumerate().any(|(at, policy)| self.policy_permits(
                asker.slot, object, operation, at as u16, policy,
            )),
        }
    }
}
