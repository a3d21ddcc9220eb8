// What a call of an open transaction is refused for, which lock it asks for, and what it is answered.
ghost use Rattle.std.specs.Prelude.{◌≡◌, ℕ, None};
ghost use Rattle.serial.specs.Words.{Deploys, Sets};
ghost use Rattle.serial.specs.Model.{unless, judge, lock_for, call_answer};
ghost use Rattle.engine.specs.Tables.{asker_in};
ghost use Rattle.engine.specs.Engines.{store_of, setup_of};
ghost use Rattle.engine.specs.Judging.{refusal_in, judge_view, judge_change, judge_write};

use super::Engine;
use locking::{CellMode, Lock, PolicyMode};
use protocol::{Call, Object, Refusal};
use rights::{ChangeKind, Operation, RightsOrder};
use slot_table::OpenSlot;
use stores::Store;

fn require(fact: bool, refusal: Refusal) -> Result<(), Refusal>
    ensures { refusal_in result ≡ unless fact refusal None }
{
    if fact { Ok(()) } else { Err(refusal) }
}

impl<C: Store, R: Store, O: RightsOrder> Engine<'_, '_, '_, C, R, O> {
    #[tactic(auto, unfolding(serial::specs::Model::judge))]
    fn judge_deploy(&self, asker: OpenSlot, policy: u16) -> Result<(), Refusal>
        ensures { refusal_in result ≡ judge (setup_of O.RightsOrder self.now) (store_of C.Store R.Store self.now) (asker_in self.now.tables asker) (Deploys policy) }
    {
        let at = policy as usize;
        if at >= self.policies.len() {
            return Err(Refusal::Absent);
        }
        require(
            self.policies[at].subject == asker.subject,
            Refusal::OtherSubject,
        )
    }

    // A read or a show
    #[inline(always)]
    fn judge_view(&self, asker: OpenSlot, object: Object) -> Result<(), Refusal>
        ensures { refusal_in result ≡ judge_view (setup_of O.RightsOrder self.now) (store_of C.Store R.Store self.now) (asker_in self.now.tables asker) object }
    {
        require(self.has(object), Refusal::Absent)?;
        require(
            self.permitted(asker, object, Operation::Read),
            Refusal::NotPermitted,
        )
    }

    // Whether the operation on the object is permitted, and there is room for one change more
    #[inline(always)]
    fn judge_change(
        &self,
        asker: OpenSlot,
        object: Object,
        operation: Operation,
    ) -> Result<(), Refusal>
        ensures { refusal_in result ≡ judge_change (setup_of O.RightsOrder self.now) (store_of C.Store R.Store self.now) (asker_in self.now.tables asker) object operation }
    {
        require(
            self.permitted(asker, object, operation),
            Refusal::NotPermitted,
        )?;
        require(
            self.tables.has_room(asker.slot, object),
            Refusal::TooManyChanges,
        )
    }

    #[inline(always)]
    fn judge_write(&self, asker: OpenSlot, object: Object) -> Result<(), Refusal>
        ensures { refusal_in result ≡ judge_write (setup_of O.RightsOrder self.now) (store_of C.Store R.Store self.now) (asker_in self.now.tables asker) object }
    {
        require(self.has(object), Refusal::Absent)?;
        self.judge_change(asker, object, Operation::Write)
    }

    // By the right in force, whatever the transaction has set before
    #[inline(always)]
    #[tactic(auto, unfolding(serial::specs::Model::judge))]
    fn judge_set(&self, asker: OpenSlot, policy: u16, right: u32) -> Result<(), Refusal>
        ensures { refusal_in result ≡ judge (setup_of O.RightsOrder self.now) (store_of C.Store R.Store self.now) (asker_in self.now.tables asker) (Sets policy right) }
    {
        let object = Object::OfPolicy(policy);
        require(self.has(object), Refusal::Absent)?;
        require(self.order.is_right(right), Refusal::NotARight)?;
        let operation = match self.kind_of(policy, right) {
            ChangeKind::Relaxation => Operation::Write,
            ChangeKind::Restriction => Operation::Restrict,
        };
        self.judge_change(asker, object, operation)
    }

    #[inline(always)]
    #[tactic(auto, unfolding(serial::specs::Model::judge))]
    pub(super) fn judge(&self, asker: OpenSlot, call: Call) -> Result<(), Refusal>
        ensures { refusal_in result ≡ judge (setup_of O.RightsOrder self.now) (store_of C.Store R.Store self.now) (asker_in self.now.tables asker) call }
    {
        match call {
            Call::Deploys { policy } => self.judge_deploy(asker, policy),
            Call::Reads { cell } => self.judge_view(asker, Object::OfCell(cell)),
            Call::Writes { cell, .. } => self.judge_write(asker, Object::OfCell(cell)),
            Call::Shows { policy } => self.judge_view(asker, Object::OfPolicy(policy)),
            Call::Sets { policy, right } => self.judge_set(asker, policy, right),
        }
    }

    #[inline(always)]
    #[tactic(auto, unfolding(serial::specs::Model::lock_for))]
    pub(super) fn lock_for(&self, call: Call) -> Lock
        ensures { result ≡ lock_for (setup_of O.RightsOrder self.now) (store_of C.Store R.Store self.now) call }
    {
        match call {
            Call::Deploys { policy } => Lock::OnPolicy(PolicyMode::Deploy, policy),
            Call::Reads { cell } => Lock::OnCell(CellMode::ReadCell, cell),
            Call::Writes { cell, .. } => Lock::OnCell(CellMode::WriteCell, cell),
            Call::Shows { policy } => Lock::OnPolicy(PolicyMode::ReadPolicy, policy),
            Call::Sets { policy, right } => match self.kind_of(policy, right) {
                ChangeKind::Relaxation => Lock::OnPolicy(PolicyMode::Relax, policy),
                ChangeKind::Restriction => Lock::OnPolicy(PolicyMode::Restrict, policy),
            },
        }
    }

    // A read or a show with what the transaction sees, a set with how many it struck.
    #[inline(always)]
    #[tactic(auto, unfolding(serial::specs::Model::call_answer))]
    pub(super) fn answer_to(&self, asker: OpenSlot, call: Call, struck: u32) -> u32
        ensures { result ≡ call_answer (store_of C.Store R.Store self.now) (asker_in self.now.tables asker) call struck }
    {
        match call {
            Call::Reads { cell } => self.seen(asker.slot, Object::OfCell(cell)),
            Call::Shows { policy } => self.seen(asker.slot, Object::OfPolicy(policy)),
            Call::Sets { .. } => struck,
            Call::Deploys { .. } | Call::Writes { .. } => 0,
        }
    }
}
