// An engine is made, and works whole lists of requests.
ghost use Rattle.std.specs.Prelude.{◌≡◌, min, length, take, drop};
ghost use Rattle.serial.specs.Writes.{NoneCommitted};
ghost use Rattle.setup.specs.Admission.{setup_check};
ghost use Rattle.engine.specs.Stores.{lists_of};
ghost use Rattle.engine.specs.Engines.{state_of, setup_of, Works, Steps};
ghost use Rattle.engine.specs.Beginning.{setup_with, begin_state, begin_policies};

use super::Engine;
use crate::tables::Tables;
use protocol::{Answer, Policy, Request};
use rights::RightsOrder;
use setup::check_setup;
use stores::Store;

impl<'a, 'o, 'p, C: Store, R: Store, O: RightsOrder> Engine<'a, 'o, 'p, C, R, O> {
    // Where set-up refuses, an engine is made all the same: it has no cell, no policy and no free slot.
    // The four go one by one, and in no struct, so that the promise names each store itself.
    pub fn new(
        cells: &'a mut C,
        rights: &'a mut R,
        order: &'o O,
        policies: &'p [Policy],
    ) -> Engine<'a, 'o, 'p, C, R, O>
        ensures cells { result.cells.now ≡ cells.old }
        ensures cells_lent { result.cells.ghost_name ≡ cells.entry.ghost_name }
        ensures rights { result.rights.now ≡ rights.old }
        ensures rights_lent { result.rights.ghost_name ≡ rights.entry.ghost_name }
        ensures state { state_of C.Store R.Store result ≡ begin_state (setup_check (O.RightsOrder.right order.now) (C.Store.list cells.old) (R.Store.list rights.old) policies.now) (lists_of C.Store R.Store cells.old rights.old) }
        ensures setup { setup_of O.RightsOrder result ≡ setup_with O.RightsOrder order.now (begin_policies (setup_check (O.RightsOrder.right order.now) (C.Store.list cells.old) (R.Store.list rights.old) policies.now) policies.now) }
    {
        let Ok(()) = check_setup(cells, rights, order, policies) else {
            return Engine {
                cells,
                rights,
                order,
                policies: &policies[0..0],
                size: 0,
                tables: Tables::closed(),
            };
        };
        let size = cells.size();
        Engine {
            cells,
            rights,
            order,
            policies,
            size,
            tables: Tables::new(),
        }
    }

    pub fn call(&mut self, request: Request) -> Answer
        ensures { Steps C.Store R.Store O.RightsOrder self.old request result self.new }
    {
        match request {
            Request::Open { subject } => self.open(subject),
            Request::Deploy {
                transaction,
                policy,
            } => self.deploy(transaction, policy),
            Request::Read { transaction, cell } => self.read(transaction, cell),
            Request::Write {
                transaction,
                cell,
                value,
            } => self.write(transaction, cell, value),
            Request::Show {
                transaction,
                policy,
            } => self.show(transaction, policy),
            Request::Set {
                transaction,
                policy,
                right,
            } => self.set(transaction, policy, right),
            Request::Commit { transaction } => self.commit(transaction),
            Request::GiveUp { transaction } => self.give_up(transaction),
        }
    }

    // Makes the requests in turn, as many as there are places for answers, and says how many that was. Any run that led to the
    // engine as it was goes on to the engine as it is then. Places for answers are lent, since the engine has no heap to put them in.
    pub fn work(&mut self, requests: &[Request], answers: &mut [Answer]) -> usize
        ensures count { result ≡ min (length requests.now) (length answers.old) }
        ensures works { Works C.Store R.Store O.RightsOrder self.old (take result requests.now) (take result answers.new) self.new }
        ensures stores_stay { NoneCommitted (take result requests.now) (take result answers.new) → (self.new.cells.now ≡ self.old.cells.now) × (self.new.rights.now ≡ self.old.rights.now) }
        ensures other_answers { drop result answers.new ≡ drop result answers.old }
    {
        let count = requests.len().min(answers.len());
        // By place: of answers written through `iter_mut` and `zip` a proof knows nothing in the end.
        for (at, request) in requests[..count].iter().enumerate() {
            answers[at] = self.call(*request);
        }
        count
    }
}
