// What a program asks of the engine.

// Transactions are numbered 1, 2, 3 and on, as they are opened.
pub type TransactionId = u16;

#[derive(Clone, Copy, PartialEq, Eq, Debug)]
pub enum Request {
    Open {
        subject: u16,
    },
    Deploy {
        transaction: TransactionId,
        policy: u16,
    },
    Read {
        transaction: TransactionId,
        cell: u16,
    },
    Write {
        transaction: TransactionId,
        cell: u16,
        value: u32,
    },
    Show {
        transaction: TransactionId,
        policy: u16,
    },
    Set {
        transaction: TransactionId,
        policy: u16,
        right: u32,
    },
    Commit {
        transaction: TransactionId,
    },
    GiveUp {
        transaction: TransactionId,
    },
}
