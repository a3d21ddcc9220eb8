// The calls of the engine. Each is one step of the machine.
ghost use Rattle.std.specs.Prelude.{◌≡◌, ℕ, []};
ghost use Rattle.protocol.specs.declared.request.Request.TheVariants.{Open, Deploy, Read, Write, Show, Set, Commit, GiveUp};
ghost use Rattle.serial.specs.Model.{open_slot, with_slots, end, call_in, commit_in};
ghost use Rattle.engine.specs.Tables.{OpenIn, NamedAt, asker_in, slots_in};
ghost use Rattle.engine.specs.Actions.{asks};
ghost use Rattle.engine.specs.Denials.{answer_of};
ghost use Rattle.engine.specs.Engines.{state_of, setup_of, Goes, Performs, Steps};

use super::Engine;
use crate::action::Action;
use crate::apply::store_all;
use crate::denial::Denial;
use locking::SlotIndex;
use protocol::{Answer, Call, Refusal, TransactionId};
use rights::RightsOrder;
use slot_table::{Found, OpenSlot};
use stores::Store;

// A function, and no `From`: neither `Result` nor `Answer` is of this crate.
fn answered(called: Result<u32, Denial>) -> Answer
    ensures { result ≡ answer_of called }
{
    match called {
        Ok(number) => Answer::Granted(number),
        Err(Denial::Refused(refusal)) => Answer::Refused(refusal),
        Err(Denial::Waits(on)) => Answer::Wait(on),
    }
}

impl<C: Store, R: Store, O: RightsOrder> Engine<'_, '_, '_, C, R, O> {
    // A call of an open transaction: what it is granted, or why it is not.
    #[inline(always)]
    fn call_in(&mut self, asker: OpenSlot, call: Call) -> Result<u32, Denial>
        requires { OpenIn self.old.tables asker }
        ensures { Goes C.Store R.Store O.RightsOrder self.old (answer_of result, self.new) (call_in (setup_of O.RightsOrder self.old) (state_of C.Store R.Store self.old) call (open_slot (asker_in self.old.tables asker))) [] }
    {
        self.judge(asker, call)?;
        let lock = self.lock_for(call);
        let struck = self.tables.acquire(asker, lock)?;
        let number = self.answer_to(asker, call, struck);
        self.tables.note(asker, call);
        Ok(number)
    }

    // All its changes go into the stores, and its locks are gone.
    fn commit_in(&mut self, asker: OpenSlot) -> Answer
        requires { OpenIn self.old.tables asker }
        ensures { Goes C.Store R.Store O.RightsOrder self.old (result, self.new) (commit_in (state_of C.Store R.Store self.old) asker.id (open_slot (asker_in self.old.tables asker))) (asker_in self.old.tables asker).changes }
    {
        // The one copy of a workspace: the stores are written while nothing of the tables is lent.
        let work = self.tables.workspace(asker.slot);
        store_all(self.cells, self.rights, &work);
        match self.tables.commit(asker) {
            Some(place) => Answer::Granted(place),
            None => unreachable(),
        }
    }

    // The transaction in the slot ends without a commit.
    fn end(&mut self, slot: SlotIndex, answer: Answer) -> Answer
        ensures { (t : ℕ) → NamedAt self.old.tables slot.at t → Goes C.Store R.Store O.RightsOrder self.old (result, self.new) (answer, with_slots (state_of C.Store R.Store self.old) (end t (slots_in self.old.tables))) [] }
    {
        self.tables.end(slot);
        answer
    }

    // What a transaction is asked for goes by how it stands: it is nobody, goes on, ends, or stays aborted.
    // Inlined into each of the calls with all that it does on the way to a lock, since there the action is known: half of what a call costs.
    #[inline(always)]
    fn act(&mut self, transaction: TransactionId, action: Action) -> Answer
        ensures { Performs C.Store R.Store O.RightsOrder self.old (asks transaction action) result self.new }
    {
        match (self.tables.find(transaction), action) {
            (Found::Nobody, _) => Answer::Refused(Refusal::NoSuchTransaction),
            (Found::Open(asker), Action::Calls(call)) => answered(self.call_in(asker, call)),
            (Found::Open(asker), Action::Commits) => self.commit_in(asker),
            (Found::Open(asker), Action::GivesUp) => self.end(asker.slot, Answer::Granted(0)),
            (Found::Aborted { by, policy, .. }, Action::Calls(_)) => Answer::Aborted { by, policy },
            // Two arms with one body: of an arm with both patterns a proof learns neither.
            (Found::Aborted { slot, by, policy }, Action::Commits) => {
                self.end(slot, Answer::Aborted { by, policy })
            }
            (Found::Aborted { slot, by, policy }, Action::GivesUp) => {
                self.end(slot, Answer::Aborted { by, policy })
            }
        }
    }

    pub fn open(&mut self, subject: u16) -> Answer
        ensures { Steps C.Store R.Store O.RightsOrder self.old (Open subject) result self.new }
    {
        self.tables.open(subject)
    }

    pub fn deploy(&mut self, transaction: TransactionId, policy: u16) -> Answer
        ensures { Steps C.Store R.Store O.RightsOrder self.old (Deploy transaction policy) result self.new }
    {
        self.act(transaction, Action::Calls(Call::Deploys { policy }))
    }

    pub fn read(&mut self, transaction: TransactionId, cell: u16) -> Answer
        ensures { Steps C.Store R.Store O.RightsOrder self.old (Read transaction cell) result self.new }
    {
        self.act(transaction, Action::Calls(Call::Reads { cell }))
    }

    pub fn write(&mut self, transaction: TransactionId, cell: u16, value: u32) -> Answer
        ensures { Steps C.Store R.Store O.RightsOrder self.old (Write transaction cell value) result self.new }
    {
        self.act(transaction, Action::Calls(Call::Writes { cell, value }))
    }

    pub fn show(&mut self, transaction: TransactionId, policy: u16) -> Answer
        ensures { Steps C.Store R.Store O.RightsOrder self.old (Show transaction policy) result self.new }
    {
        self.act(transaction, Action::Calls(Call::Shows { policy }))
    }

    pub fn set(&mut self, transaction: TransactionId, policy: u16, right: u32) -> Answer
        ensures { Steps C.Store R.Store O.RightsOrder self.old (Set transaction policy right) result self.new }
    {
        self.act(transaction, Action::Calls(Call::Sets { policy, right }))
    }

    pub fn commit(&mut self, transaction: TransactionId) -> Answer
        ensures { Steps C.Store R.Store O.RightsOrder self.old (Commit transaction) result self.new }
    {
        self.act(transaction, Action::Commits)
    }

    pub fn give_up(&mut self, transaction: TransactionId) -> Answer
        ensures { Steps C.Store R.Store O.RightsOrder self.old (GiveUp transaction) result self.new }
    {
        self.act(transaction, Action::GivesUp)
    }
}
