// The outline of a set-up file, in memory of a fixed size: a list that is too long for any store or set-up is not kept.
ghost use Rattle.std.specs.Prelude.{◌≡◌, ◌≤◌, List, ℕ, [], ◌∷◌, ◌++◌, length, Some, MatchOption};
ghost use Rattle.setup_file.specs.Items.{numbers_of};
ghost use Rattle.setup_file.specs.Outlines.{IsFew, few_policies, OutlinesMade};
ghost use Rattle.protocol.specs.declared.policy.Policy.{Policy as Item};
ghost use Rattle.setup_file.specs.WordsLeft.{words_left};

use crate::item::are_numbers;
use crate::number::long;
use crate::setup::{Make, OrderLine};
use crate::words::Words;
use arrayvec::ArrayVec;
use protocol::{Object, Policy};

/// How many numbers of a store an outline keeps.
pub const NUMBERS_MAX: usize = 256;

/// How many policies an outline keeps.
pub const POLICIES_MAX: usize = 64;

#[derive(Drop)]
pub struct StoreOutline {
    pub make: Make,
    /// None where they are more than `NUMBERS_MAX`.
    pub numbers: Option<ArrayVec<u32, NUMBERS_MAX>>,
}

#[derive(Drop)]
pub struct Outline {
    pub order: OrderLine,
    pub cells: StoreOutline,
    pub rights: StoreOutline,
    /// None where they are more than `POLICIES_MAX`.
    pub policies: Option<FewPolicies>,
}

/// At most `POLICIES_MAX` policies.
#[derive(Clone, Copy)]
pub struct FewPolicies {
    places: [Policy; POLICIES_MAX],
    count: usize,
}

impl FewPolicies {
    pub(crate) fn new() -> Self
        ensures { few_policies result ≡ [] }
    {
        let unused = Policy {
            subject: 0,
            object: Object::OfCell(0),
        };
        FewPolicies {
            places: [unused; POLICIES_MAX],
            count: 0,
        }
    }

    // With one more, where there is a place for it.
    pub(crate) fn with(self, policy: Policy) -> Option<Self>
        ensures { MatchOption result (POLICIES_MAX ≤ length (few_policies self))
            (λ few. few_policies few ≡ few_policies self ++ policy ∷ []) }
    {
        let FewPolicies { mut places, count } = self;
        if count >= POLICIES_MAX {
            return None;
        }
        places[count] = policy;
        Some(FewPolicies {
            places,
            count: count + 1,
        })
    }

    /// The policies, in the order of their lines.
    pub fn as_slice(&self) -> &[Policy]
        ensures { result.now ≡ few_policies self.now }
    {
        &self.places[..self.count.min(POLICIES_MAX)]
    }
}

pub(crate) fn one_more(few: Option<FewPolicies>, policy: Policy) -> Option<FewPolicies>
    ensures { (policies : List Item) → IsFew few_policies POLICIES_MAX few policies
        → IsFew few_policies POLICIES_MAX result (policies ++ policy ∷ []) }
{
    few?.with(policy)
}

// The numbers of a store, if they are few.
fn few_numbers(words: Words) -> Option<ArrayVec<u32, NUMBERS_MAX>>
    ensures { (numbers : List ℕ) → numbers_of (words_left words.entry) ≡ Some numbers
        → IsFew (λ few. few.items) NUMBERS_MAX result numbers }
{
    let mut few = ArrayVec::new();
    for word in words {
        few.try_push(long(word)?).ok()?;
    }
    Some(few)
}

// No memory is taken.
pub(crate) fn store_outline(make: Make, words: Words) -> Option<StoreOutline>
    ensures { OutlinesMade make (words_left words.entry) result }
{
    if !are_numbers(words) {
        return None;
    }
    Some(StoreOutline {
        make,
        numbers: few_numbers(words),
    })
}
