// A slot for a transaction.
ghost use Rattle.std.specs.Prelude.{◌≡◌, true, false, MatchOption};
ghost use Rattle.slot_table.specs.Slots.{is_free, is_open, slot_named, abort_if};
ghost use Rattle.slot_table.specs.declared.slot.Slot.TheVariants.{Open};
ghost use Rattle.slot_table.specs.Edits.{Puts};
ghost use Rattle.slot_table.specs.Lowest.{number_if_open};

use locking::SlotIndex;
use protocol::{Object, TransactionId};
use workspace::Workspace;

#[derive(Clone, Copy)]
pub struct Transaction {
    pub id: TransactionId,
    pub subject: u16,
    pub workspace: Workspace,
}

// An open transaction: the slot that it stands in, its number and its subject. Its workspace stays in the table.
#[derive(Clone, Copy)]
pub struct OpenSlot {
    pub slot: SlotIndex,
    pub id: TransactionId,
    pub subject: u16,
}

#[derive(Clone, Copy)]
pub enum Slot {
    Free,
    Open(Transaction),
    // The transaction was struck: by that transaction, which restricts that policy. Two numbers side by side, as in the answer that
    // names them.
    Aborted {
        id: TransactionId,
        by: TransactionId,
        policy: u16,
    },
}

impl Slot {
    pub(crate) fn is_free(&self) -> bool
        ensures { result ≡ is_free self.now }
    {
        matches!(*self, Slot::Free)
    }

    pub(crate) fn is_named(&self, transaction: TransactionId) -> bool
        ensures { result ≡ slot_named self.now transaction }
    {
        match *self {
            Slot::Free => false,
            Slot::Open(open) => open.id == transaction,
            Slot::Aborted { id, .. } => id == transaction,
        }
    }

    // An open transaction that is struck loses its workspace, and its slot keeps who struck it.
    pub(crate) fn abort(&mut self, by: TransactionId, policy: u16)
        ensures { self.new ≡ abort_if true by policy self.old }
    {
        if let Slot::Open(transaction) = *self {
            let id = transaction.id;
            *self = Slot::Aborted { id, by, policy };
        }
    }

    // A change of an open transaction. Where its workspace has no room, that stays as it is.
    pub(crate) fn put(&mut self, object: Object, value: u32)
        ensures { Puts object value self.old self.new }
    {
        if let Slot::Open(open) = self {
            let _ = open.workspace.put(object, value);
        }
    }

    pub(crate) fn transaction(&self) -> Option<&Transaction>
        ensures { MatchOption result (is_open self.now ≡ false) (λ x. self.now ≡ Open x.now) }
    {
        match self {
            Slot::Open(open) => Some(open),
            Slot::Free | Slot::Aborted { .. } => None,
        }
    }

    pub(crate) fn number_if_open(&self) -> Option<TransactionId>
        ensures { result ≡ number_if_open self.now }
    {
        match *self {
            Slot::Open(transaction) => Some(transaction.id),
            Slot::Free | Slot::Aborted { .. } => None,
        }
    }
}
