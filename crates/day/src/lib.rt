// A whole day of an engine, with what holds of every day.
#![tactic(auto)]

ghost use Rattle.std.specs.Prelude.{◌≡◌, OnErr};
ghost use Rattle.engine.specs.Stores.{lists_of, Lent, Wrote};
ghost use Rattle.engine.specs.Beginning.{setup_with};
ghost use Rattle.day.specs.Days.{RunsDay};

use engine::Engine;
use protocol::{Answer, Policy, Refusal, Request};
use rights::RightsOrder;
use setup::check_setup;
use stores::Store;

// Makes an engine on the two stores, and makes the requests in turn, as many as there are places for answers. What set-up refuses is
// answered, and changes nothing.
pub fn run_day<C: Store, R: Store, O: RightsOrder>(
    cells: &mut C,
    rights: &mut R,
    order: &O,
    policies: &[Policy],
    requests: &[Request],
    answers: &mut [Answer],
) -> Result<usize, Refusal>
    ensures day { RunsDay (setup_with O.RightsOrder order.now policies.now) (lists_of C.Store R.Store cells.old rights.old) (lists_of C.Store R.Store cells.new rights.new) (Wrote C.Store R.Store cells.old rights.old cells.new rights.new) requests.now answers.old answers.new result }
    ensures lent { Lent C.Store R.Store cells.old rights.old cells.new rights.new }
    ensures untouched { OnErr result ((cells.new ≡ cells.old) × (rights.new ≡ rights.old)) }
{
    check_setup(cells, rights, order, policies)?;
    let mut engine = Engine::new(cells, rights, order, policies);
    Ok(engine.work(requests, answers))
}
