// Sets of slots, each a mask with a bit for every slot.
ghost use Rattle.std.specs.Prelude.{◌≡◌, ℕ, false, not, ◌&&◌, ◌||◌, ◌==◌, Decides, MatchOption};
ghost use Rattle.locking.specs.Slots.{has, with_bit, without_bit, count_below, IsLowest};

use crate::slot::SlotIndex;

#[derive(Clone, Copy, PartialEq, Eq, Debug)]
pub struct SlotSet {
    mask: u16,
}

impl SlotSet {
    #[tactic(auto, using(crate::specs::NoLocks::has_zero))]
    pub fn empty() -> SlotSet
        ensures { (k : ℕ) → has result.mask k ≡ false }
    {
        SlotSet { mask: 0 }
    }

    pub fn only(slot: SlotIndex) -> SlotSet
        ensures { (k : ℕ) → has result.mask k ≡ (k == slot.at) }
    {
        SlotSet {
            mask: 1 << slot.get(),
        }
    }

    // By name and no From, here and back, as the number alone does not say that it is a mask.
    pub(crate) fn from_mask(mask: u16) -> SlotSet
        ensures { result.mask ≡ mask }
    {
        SlotSet { mask }
    }

    pub fn to_mask(self) -> u16
        ensures { result ≡ self.mask }
    {
        let SlotSet { mask } = self;
        mask
    }

    pub fn contains(self, slot: SlotIndex) -> bool
        ensures { result ≡ has self.mask slot.at }
    {
        self.mask >> slot.get() & 1 == 1
    }

    pub(crate) fn with(self, slot: SlotIndex) -> SlotSet
        ensures { (k : ℕ) → has result.mask k ≡ with_bit (has self.mask) slot.at k }
    {
        self.union(SlotSet::only(slot))
    }

    pub(crate) fn without(self, slot: SlotIndex) -> SlotSet
        ensures { (k : ℕ) → has result.mask k ≡ without_bit (has self.mask) slot.at k }
    {
        self.minus(SlotSet::only(slot))
    }

    #[tactic(auto, using(crate::proofs::BitLaws::has_or))]
    pub(crate) fn union(self, other: SlotSet) -> SlotSet
        ensures { (k : ℕ) → has result.mask k ≡ (has self.mask k || has other.mask k) }
    {
        SlotSet {
            mask: self.mask | other.mask,
        }
    }

    // Those of this set that are not in the other.
    pub(crate) fn minus(self, other: SlotSet) -> SlotSet
        ensures { (k : ℕ) → has result.mask k ≡ (has self.mask k && not (has other.mask k)) }
    {
        SlotSet {
            mask: self.mask & !other.mask,
        }
    }

    pub fn is_empty(self) -> bool
        ensures { Decides result ((k : ℕ) → has self.mask k ≡ false) }
    {
        self.mask == 0
    }

    // The lowest slot leaves the set, if there is one.
    pub fn pop_lowest(&mut self) -> Option<SlotIndex>
        ensures { MatchOption result
            (((k : ℕ) → has self.old.mask k ≡ false) × (self.new ≡ self.old))
            (λ slot. IsLowest (has self.old.mask) slot.at × ((k : ℕ) → has self.new.mask k ≡ without_bit (has self.old.mask) slot.at k)) }
    {
        let slot = SlotIndex::new(self.mask.trailing_zeros() as usize)?;
        *self = self.without(slot);
        Some(slot)
    }

    pub fn count(self) -> u32
        ensures { result ≡ count_below (has self.mask) 16 }
    {
        self.mask.count_ones()
    }
}
