// Who holds which lock on one cell or policy, where the locks are compatible, and what asking for one more comes to.
ghost use Rattle.std.specs.Prelude.{◌≡◌, ℕ, ⊤, false, not, ◌&&◌, MatchOption, MatchResult};
ghost use Rattle.locking.specs.Slots.{has, without_bit};
ghost use Rattle.locking.specs.Locks.{hears, Waits, LockGranted};
ghost use Rattle.locking.specs.declared.mode.LockAnswer.TheVariants.{Conflict, Signal};

use crate::mode::LockAnswer;
use crate::row::LockRow;
use crate::slot::SlotIndex;
use crate::slot_set::SlotSet;
use std::alloc::AllocError;

// The locks of a row, compatible by their type.
pub struct Locks<R: LockRow> {
    row: R,
    ghost compatible: { R.compatible row } by { R.one_proof row },
}

// Both by hand: a derive is refused on a generic struct with a ghost field.
impl<R: LockRow> Copy for Locks<R> {}

impl<R: LockRow> Clone for Locks<R> {
    ghost is_clone = { λ s r. r ≡ s };

    ghost is_infallible = { λ _. ⊤ };

    fn clone(&self) -> Result<Locks<R>, AllocError> {
        Ok(*self)
    }
}

// The locks as they are once the lock is the asker's, and the slots that lost theirs for it.
#[derive(Clone, Copy)]
pub struct Granted<R: LockRow> {
    pub locks: Locks<R>,
    pub struck: SlotSet,
}

// The asker waits for these slots.
#[derive(Clone, Copy, PartialEq, Eq, Debug)]
pub struct Blocked {
    pub by: SlotSet,
}

// The slots whose locks say no to a lock that is asked for, and those whose locks say signal.
struct Heard {
    conflicts: SlotSet,
    signals: SlotSet,
}

impl<R: LockRow> Locks<R> {
    pub fn none() -> Locks<R>
        ensures { (m : R.Mode) (k : ℕ) → R.holds result.row m k ≡ false }
    {
        Locks { row: R::none() }
    }

    // The locks of the row, unless they are not compatible. By name, as `TryFrom` of every kind of row would meet the one of std.
    pub fn from_row(row: R) -> Option<Locks<R>>
        ensures { MatchOption result (R.compatible row → ⊥) (λ locks. locks.row ≡ row) }
    {
        if row.is_compatible() {
            Some(Locks { row })
        } else {
            None
        }
    }

    pub fn to_row(self) -> R
        ensures { result ≡ self.row }
    {
        let Locks { row } = self;
        row
    }

    /// Whether the slot holds the lock of that mode.
    pub fn holds(self, mode: R::Mode, slot: SlotIndex) -> bool
        ensures { result ≡ R.holds self.row mode slot.at }
    {
        self.row.holders(mode).contains(slot)
    }

    /// The slot loses its locks.
    pub fn release(self, slot: SlotIndex) -> Locks<R>
        ensures { (m : R.Mode) (k : ℕ) → R.holds result.row m k ≡ without_bit (R.holds self.row m) slot.at k }
    {
        self.release_all(SlotSet::only(slot))
    }

    /// The slots of the set lose their locks.
    pub fn release_all(self, gone: SlotSet) -> Locks<R>
        ensures { (m : R.Mode) (k : ℕ) → R.holds result.row m k ≡ (R.holds self.row m k && not (has gone.mask k)) }
    {
        Locks {
            row: self.row.without(gone),
        }
    }

    // What the locks of the others say to a lock that the slot does not hold yet.
    #[inline(always)]
    fn heard(self, asked: R::Mode, slot: SlotIndex) -> Heard
        requires { R.holds self.row asked slot.at ≡ false }
        ensures conflicts { (k : ℕ) → has result.conflicts.mask k ≡ hears R.says R.modes (R.holds self.row) Conflict asked slot.at k }
        ensures signals { (k : ℕ) → has result.signals.mask k ≡ hears R.says R.modes (R.holds self.row) Signal asked slot.at k }
    {
        let mut conflicts = SlotSet::empty();
        let mut signals = SlotSet::empty();
        let modes = R::modes();
        for held in modes {
            match R::answer(*held, asked) {
                LockAnswer::Compatible => {}
                LockAnswer::Conflict => conflicts = conflicts.union(self.row.holders(*held)),
                LockAnswer::Signal => signals = signals.union(self.row.holders(*held)),
            }
        }
        Heard {
            conflicts: conflicts.without(slot),
            signals: signals.without(slot),
        }
    }

    // Asks for a lock: to wait is to leave all as it is.
    #[inline(always)]
    pub fn ask(self, mode: R::Mode, slot: SlotIndex) -> Result<Granted<R>, Blocked>
        ensures { MatchResult result
            (λ granted. LockGranted R.Mode.eq R.says R.modes (R.holds self.row) mode slot.at (R.holds granted.locks.row) (has granted.struck.mask))
            (λ blocked. Waits (hears R.says R.modes (R.holds self.row) Conflict mode slot.at) (has blocked.by.mask)) }
    {
        if self.holds(mode, slot) {
            return Ok(Granted {
                locks: self,
                struck: SlotSet::empty(),
            });
        }
        let Heard { conflicts, signals } = self.heard(mode, slot);
        if !conflicts.is_empty() {
            return Err(Blocked { by: conflicts });
        }
        let row = self.row.without(signals).with(mode, slot);
        Ok(Granted {
            locks: Locks { row },
            struck: signals,
        })
    }
}
