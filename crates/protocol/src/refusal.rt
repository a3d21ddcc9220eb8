// Why a call is refused. A refused call has changed nothing.
ghost use Rattle.std.specs.Prelude.{◌≡◌};
ghost use Rattle.protocol.specs.Refusals.{refusal_number};

#[derive(Clone, Copy, PartialEq, Eq, Debug)]
pub enum Refusal {
    // As many transactions as a day has numbers for have been opened.
    TooManyOpened = 1,
    // Every slot for a transaction is taken.
    NoFreeSlot = 2,
    // No open or aborted transaction has this number.
    NoSuchTransaction = 3,
    // There is no such position, cell or policy.
    Absent = 4,
    // The policy is another subject's.
    OtherSubject = 5,
    // No deployed policy permits it.
    NotPermitted = 6,
    // One change more than a workspace holds.
    TooManyChanges = 7,
    // The code is no right.
    NotARight = 8,
    // What is to be written exceeds the buffer.
    ExceedsBuffer = 12,
    // More numbers, cells or policies than there is room for.
    TooMany = 14,
    // A policy list that does not fit the rights store, the cells or itself.
    BadPolicies = 15,
    // A stored code that is no right.
    BadRights = 16,
    // A threshold outside 1 to 100.
    BadThreshold = 17,
    // Bytes that hold no log.
    BadLog = 18,
}

impl Refusal {
    // By name, since a `u8` does not say that it is a refusal.
    pub fn number(self) -> u8
        ensures { result ≡ refusal_number self }
    {
        self as u8
    }
}
