// Why a call of an open transaction is not granted.
ghost use Rattle.std.specs.Prelude.{◌≡◌};
ghost use Rattle.engine.specs.declared.denial.Denial.TheVariants.{Refused};

use protocol::{Refusal, TransactionId};

#[derive(Clone, Copy, PartialEq, Eq, Debug)]
pub enum Denial {
    Refused(Refusal),
    // It waits for the lowest-numbered transaction whose lock says no.
    Waits(TransactionId),
}

impl From<Refusal> for Denial {
    ghost from_gives = { λ f r. r ≡ Refused f };

    fn from(refusal: Refusal) -> Denial {
        Denial::Refused(refusal)
    }
}
