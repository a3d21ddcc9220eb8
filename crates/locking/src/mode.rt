// Lock modes, and what a lock may answer to another.
ghost use Rattle.std.specs.Prelude.{◌≡◌};
ghost use Rattle.locking.specs.Modes.{lock_number};

#[derive(Clone, Copy, PartialEq, Eq, Debug)]
pub enum CellMode {
    ReadCell,
    WriteCell,
}

#[derive(Clone, Copy, PartialEq, Eq, Debug)]
pub enum PolicyMode {
    ReadPolicy,
    Relax,
    Restrict,
    Deploy,
}

// A lock, by its mode and the number of the cell or the policy.
#[derive(Clone, Copy, PartialEq, Eq, Debug)]
pub enum Lock {
    OnCell(CellMode, u16),
    OnPolicy(PolicyMode, u16),
}

impl Lock {
    // The number of the cell or the policy.
    pub fn number(self) -> u16
        ensures { result ≡ lock_number self }
    {
        match self {
            Lock::OnCell(_, number) | Lock::OnPolicy(_, number) => number,
        }
    }
}

// What a lock that another transaction holds says to a lock that is asked for.
#[derive(Clone, Copy, PartialEq, Eq, Debug)]
pub enum LockAnswer {
    // Yes: both may be held.
    Compatible,
    // No: the asker waits.
    Conflict,
    // The holder is struck.
    Signal,
}
