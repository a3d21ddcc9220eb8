// Why a lock is not granted.
use locking::Blocked;

#[derive(Clone, Copy, PartialEq, Eq, Debug)]
pub enum NotGranted {
    // There is no such cell or policy.
    Absent,
    Blocked(Blocked),
}

impl From<Blocked> for NotGranted {
    ghost use Rattle.lock_table.specs.declared.not_granted.NotGranted.TheVariants.{Blocked};
    ghost use Rattle.std.specs.Prelude.{◌≡◌};

    ghost from_gives = { λ blocked e. e ≡ Blocked blocked };

    fn from(blocked: Blocked) -> NotGranted {
        NotGranted::Blocked(blocked)
    }
}
