// What set-up refuses, in a call before an engine is made.
#![tactic(auto)]

ghost use Rattle.std.specs.Prelude.{◌≡◌, ◌<◌, length, OnOk, slice_index};
ghost use Rattle.protocol.specs.Refusals.{outcome};
ghost use Rattle.serial.specs.Words.{setup_of};
ghost use Rattle.serial.specs.History.{Admitted};
ghost use Rattle.std.specs.List.{list_all};
ghost use Rattle.setup.specs.Admission.{small, present, paired, stored, setup_check, first_state};

use protocol::{Object, Policy, Refusal};
use rights::RightsOrder;
use stores::Store;

fn is_small(cells: usize, policies: usize) -> bool
    ensures { result ≡ small cells policies }
{
    cells <= 256 && policies <= 64
}

fn is_present(object: Object, cells: usize, policies: usize) -> bool
    ensures { result ≡ present cells policies object }
{
    match object {
        Object::OfCell(cell) => (cell as usize) < cells,
        Object::OfPolicy(policy) => (policy as usize) < policies,
    }
}

fn all_present(policies: &[Policy], cells: usize) -> bool
    ensures { result ≡ list_all (λ p. present cells (length policies.now) p.object) policies.now }
{
    policies
        .iter()
        .all(|policy| is_present(policy.object, cells, policies.len()))
}

fn is_paired(policies: &[Policy], cells: usize, rights: usize) -> bool
    ensures { result ≡ paired cells rights policies.now }
{
    policies.len() == rights && all_present(policies, cells)
}

fn right_at<R: Store, O: RightsOrder>(rights: &R, order: &O, at: usize) -> bool
    ensures { result ≡ stored (O.RightsOrder.right order.now) (R.Store.list rights.now) at }
{
    rights.read(at).is_ok_and(|code| order.is_right(code))
}

fn all_rights<R: Store, O: RightsOrder>(rights: &R, order: &O) -> bool
    ensures { result ≡ list_all (O.RightsOrder.right order.now) (R.Store.list rights.now) }
{
    (0..rights.size()).all(|at| right_at(rights, order, at))
}

// Refuses, in this order: too many cells or policies; a policy list that is not as long as the rights store, or names an absent
// object; a stored code that is no right.
pub fn check_setup<C: Store, R: Store, O: RightsOrder>(
    cells: &C,
    rights: &R,
    order: &O,
    policies: &[Policy],
) -> Result<(), Refusal>
    ensures answer { outcome result ≡ setup_check (O.RightsOrder.right order.now) (C.Store.list cells.now) (R.Store.list rights.now) policies.now }
    ensures admits { OnOk result (Admitted (setup_of (O.RightsOrder.right order.now) (O.RightsOrder.joined order.now) (O.RightsOrder.allows order.now) policies.now) (first_state (C.Store.list cells.now) (R.Store.list rights.now))) }
{
    let size = cells.size();
    if !is_small(size, policies.len()) {
        return Err(Refusal::TooMany);
    }
    if !is_paired(policies, size, rights.size()) {
        return Err(Refusal::BadPolicies);
    }
    if !all_rights(rights, order) {
        return Err(Refusal::BadRights);
    }
    Ok(())
}
