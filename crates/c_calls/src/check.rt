// What set-up refuses.
ghost use Rattle.std.specs.Prelude.{◌≡◌, List};
ghost use Rattle.protocol.specs.Refusals.{outcome};
ghost use Rattle.protocol.specs.declared.policy.Policy.{Policy};
ghost use Rattle.rights.specs.Orders.{verdict};
ghost use Rattle.setup.specs.Admission.{setup_check};
ghost use Rattle.c_calls.specs.Policies.{policies_of};
ghost use Rattle.c_calls.specs.Setups.{setup_by, setup_on_logs, check_by};

use crate::policy::{PolicyEntry, PolicyList};
use log_store::LogStore;
use protocol::Refusal;
use rights::{LadderOrder, RightsOrder, VectorOrder};
use setup::check_setup;
use stores::Store;

// By an order of one's own.
fn check_entries<C: Store, R: Store, O: RightsOrder>(
    order: &O,
    cells: &C,
    rights: &R,
    entries: &[PolicyEntry],
) -> Result<(), Refusal>
    ensures { outcome result ≡ setup_check (O.RightsOrder.right order.now) (C.Store.list cells.now) (R.Store.list rights.now) (policies_of entries.now) }
{
    let policies = PolicyList::new(entries)?;
    check_setup(cells, rights, order, policies.as_slice())
}

// By the order of the thresholds. Two arms, since each order is a type of its own.
pub(crate) fn check_by<C: Store, R: Store>(
    thresholds: &[u32],
    cells: &C,
    rights: &R,
    entries: &[PolicyEntry],
) -> Result<(), Refusal>
    ensures { outcome result ≡ check_by (setup_by thresholds.now (policies_of entries.now)) (C.Store.list cells.now) (R.Store.list rights.now) }
{
    match thresholds {
        [] => check_entries(&VectorOrder, cells, rights, entries),
        [read, write, restrict] => {
            let order = LadderOrder::new(*read, *write, *restrict)?;
            check_entries(&order, cells, rights, entries)
        }
        _ => Err(Refusal::BadThreshold),
    }
}

// Refuses thresholds of no order.
fn check_thresholds(thresholds: &[u32]) -> Result<(), Refusal>
    ensures { (policies : List Policy) → outcome result ≡ verdict (setup_by thresholds.now policies) }
{
    match thresholds {
        [] => Ok(()),
        [read, write, restrict] => LadderOrder::check(*read, *write, *restrict),
        _ => Err(Refusal::BadThreshold),
    }
}

// What is refused of a run on two logs before set-up asks: the thresholds first, then the cells' log, then the rights'.
pub(crate) fn check_logs(
    thresholds: &[u32],
    cells: &[u8],
    cell_count: usize,
    rights: &[u8],
    right_count: usize,
) -> Result<(), Refusal>
    ensures { (policies : List Policy) → outcome result ≡ verdict (setup_on_logs thresholds.now policies cell_count cells.now right_count rights.now) }
{
    check_thresholds(thresholds)?;
    LogStore::check(cells, cell_count)?;
    LogStore::check(rights, right_count)
}
