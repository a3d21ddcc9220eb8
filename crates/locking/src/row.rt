// What a row of the table of locks is, on a cell or on a policy.
ghost use Rattle.std.specs.Prelude.{◌≡◌, ℕ, Bool, true, false, not, ◌&&◌, List, Decides};
ghost use Rattle.std.specs.List.{list_any};
ghost use Rattle.locking.specs.Slots.{has};
ghost use Rattle.locking.specs.Locks.{Beside, put, shared, IsFree};
ghost use Rattle.locking.specs.declared.mode.LockAnswer.{LockAnswer};

use crate::mode::LockAnswer;
use crate::slot::SlotIndex;
use crate::slot_set::SlotSet;

// A row says by plain numbers who holds which lock on one cell or policy. Any numbers make a row; `Locks` keeps those that are compatible.
pub trait LockRow: Copy {
    type Mode: Copy + PartialEq + 'static;

    // Every mode there is.
    ghost modes: { List Self.Mode };

    // What a lock that another holds (first) says to a lock that is asked for (second).
    ghost says: { Self.Mode → Self.Mode → LockAnswer };

    // Whether slot k holds the lock.
    ghost holds: { Self → Self.Mode → ℕ → Bool };

    ghost compatible: { Self → Type 0 };

    // So that two records of one row are the same.
    ghost one_proof: { (row : Self) → IsProp (compatible row) };

    // The row of no locks.
    ghost none: { Self };

    fn none() -> Self
        ensures { result ≡ none };

    fn modes() -> &'static [Self::Mode]
        ensures { result.now ≡ modes };

    fn answer(held: Self::Mode, asked: Self::Mode) -> LockAnswer
        ensures { result ≡ says held asked };

    fn is_compatible(self) -> bool
        ensures { Decides result (compatible self) };

    fn holders(self, mode: Self::Mode) -> SlotSet
        ensures { (k : ℕ) → has result.mask k ≡ holds self mode k };

    // The locks of the slots that stay.
    fn without(self, gone: SlotSet) -> Self
        ensures same { (m : Self.Mode) (k : ℕ) → holds result m k ≡ (holds self m k && not (has gone.mask k)) }
        ensures fits { compatible self → compatible result };

    // The lock is the slot's, beside others or, where it is not shared, instead of another.
    fn with(self, mode: Self::Mode, slot: SlotIndex) -> Self
        ensures same { (m : Self.Mode) (k : ℕ) → holds result m k ≡ put (Self.Mode.eq m mode) (shared says m) (holds self m) slot.at k }
        ensures fits { compatible self → IsFree says (holds self) mode slot.at → compatible result };

    ghost each_mode: { (p : Self.Mode → Bool) (m : Self.Mode) → p m ≡ true → list_any p modes ≡ true };

    // Modes that `==` takes for equal are one.
    ghost one_mode: { (m n : Self.Mode) → Self.Mode.eq m n ≡ true → m ≡ n };

    // No row has two holders of a lock that is not shared.
    ghost one_holder: { (row : Self) (m : Self.Mode) → shared says m ≡ false → Beside (holds row m) (holds row m) };

    ghost none_held: { (m : Self.Mode) (k : ℕ) → holds none m k ≡ false };

    ghost none_fits: { compatible none };
}
