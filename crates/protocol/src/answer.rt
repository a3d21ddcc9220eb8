// What a request is answered.
use crate::refusal::Refusal;
use crate::request::TransactionId;

#[derive(Clone, Copy, PartialEq, Eq, Debug)]
pub enum Answer {
    Granted(u32),
    Refused(Refusal),
    // Another transaction's lock says no: the lowest-numbered such transaction.
    Wait(TransactionId),
    // The transaction was struck: by that transaction, which restricts that policy.
    Aborted { by: TransactionId, policy: u16 },
}
