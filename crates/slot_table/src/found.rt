// What a transaction's number leads to.
use crate::slot::OpenSlot;
use locking::SlotIndex;
use protocol::TransactionId;

// Three cases, and no Option of two: they are matched in one place, together with what is asked.
#[derive(Clone, Copy)]
pub enum Found {
    Nobody,
    Open(OpenSlot),
    Aborted {
        slot: SlotIndex,
        by: TransactionId,
        policy: u16,
    },
}
