// Who holds which lock on a policy.
ghost use Rattle.std.specs.Prelude.{[], ◌∷◌};
ghost use Rattle.locking.specs.Modes.{policy_says};
ghost use Rattle.locking.specs.PolicyLocks.{policy_holds, PolicyCompatible, no_policy};
ghost use Rattle.locking.specs.PolicyLaws.{policy_one_proof, each_policy_mode, policy_one_mode, policy_one_holder, no_policy_held, no_policy_fits};
ghost use Rattle.locking.specs.declared.mode.PolicyMode.TheVariants.{ReadPolicy, Relax, Restrict, Deploy};

use crate::holder::{NOBODY, beside, holder_set, holder_without, mask_with, mask_without};
use crate::locks::Locks;
use crate::mode::{LockAnswer, PolicyMode};
use crate::row::LockRow;
use crate::slot::SlotIndex;
use crate::slot_set::SlotSet;
use LockAnswer::{Compatible, Conflict, Signal};

// A row of the table of locks: plain numbers, in six bytes. 16 for the relaxer or the restricter is nobody.
#[derive(Clone, Copy, PartialEq, Eq, Debug)]
pub struct PolicyRow {
    pub readers: u16,
    pub deployers: u16,
    pub relaxer: u8,
    pub restricter: u8,
}

pub type PolicyLocks = Locks<PolicyRow>;

const MODES: [PolicyMode; 4] = [
    PolicyMode::ReadPolicy,
    PolicyMode::Relax,
    PolicyMode::Restrict,
    PolicyMode::Deploy,
];

// By the held mode, then the asked one.
const ANSWERS: [[LockAnswer; 4]; 4] = [
    [Compatible, Conflict, Conflict, Compatible], // read
    [Conflict, Conflict, Conflict, Conflict], // relax
    [Conflict, Conflict, Conflict, Conflict], // restrict
    [Compatible, Compatible, Signal, Compatible], // deploy
];

impl LockRow for PolicyRow {
    type Mode = PolicyMode;

    ghost modes = { ReadPolicy ∷ Relax ∷ Restrict ∷ Deploy ∷ [] };

    ghost says = { policy_says };

    ghost holds = { policy_holds };

    ghost compatible = { PolicyCompatible };

    ghost one_proof = { policy_one_proof };

    ghost none = { no_policy };

    ghost each_mode = { each_policy_mode };

    ghost one_mode = { policy_one_mode };

    ghost one_holder = { policy_one_holder };

    ghost none_held = { no_policy_held };

    ghost none_fits = { no_policy_fits };

    fn none() -> PolicyRow {
        PolicyRow {
            readers: 0,
            deployers: 0,
            relaxer: NOBODY,
            restricter: NOBODY,
        }
    }

    fn modes() -> &'static [PolicyMode] {
        &MODES
    }

    fn answer(held: PolicyMode, asked: PolicyMode) -> LockAnswer {
        ANSWERS[held as usize][asked as usize]
    }

    fn is_compatible(self) -> bool {
        if self.relaxer > NOBODY || self.restricter > NOBODY {
            return false;
        }
        let readers = SlotSet::from_mask(self.readers);
        beside(self.relaxer, holder_set(self.restricter))
            && beside(self.relaxer, readers)
            && beside(self.restricter, readers)
            && beside(self.restricter, SlotSet::from_mask(self.deployers))
    }

    fn holders(self, mode: PolicyMode) -> SlotSet {
        match mode {
            PolicyMode::ReadPolicy => SlotSet::from_mask(self.readers),
            PolicyMode::Relax => holder_set(self.relaxer),
            PolicyMode::Restrict => holder_set(self.restricter),
            PolicyMode::Deploy => SlotSet::from_mask(self.deployers),
        }
    }

    fn without(self, gone: SlotSet) -> PolicyRow {
        PolicyRow {
            readers: mask_without(self.readers, gone),
            deployers: mask_without(self.deployers, gone),
            relaxer: holder_without(self.relaxer, gone),
            restricter: holder_without(self.restricter, gone),
        }
    }

    fn with(self, mode: PolicyMode, slot: SlotIndex) -> PolicyRow {
        let mut row = self;
        match mode {
            PolicyMode::ReadPolicy => row.readers = mask_with(row.readers, slot),
            PolicyMode::Relax => row.relaxer = slot.get() as u8,
            PolicyMode::Restrict => row.restricter = slot.get() as u8,
            PolicyMode::Deploy => row.deployers = mask_with(row.deployers, slot),
        }
        row
    }
}
