// What set-up refuses, at its limits and in its order.
use crate::check::check_eq;
use protocol::Object::{OfCell, OfPolicy};
use protocol::Refusal::{BadPolicies, BadRights, TooMany};
use protocol::{Object, Policy, Refusal};
use rights::VectorOrder;
use setup::check_setup;
use stores::SliceStore;

fn on(object: Object) -> Policy {
    Policy { subject: 1, object }
}

// On these cells, rights and policies.
fn set_up(cells: &mut [u32], rights: &mut [u32], policies: &[Policy]) -> Result<(), Refusal> {
    let cells = SliceStore::new(cells);
    let rights = SliceStore::new(rights);
    check_setup(&cells, &rights, &VectorOrder, policies)
}

#[test]
fn at_most_256_cells(rt: HostRuntime) {
    let policies = [on(OfCell(255))];
    check_eq(&rt, set_up(&mut [0; 256], &mut [7], &policies), Ok(()));
    check_eq(
        &rt,
        set_up(&mut [0; 257], &mut [7], &policies),
        Err(TooMany),
    );
}

#[test]
fn at_most_64_policies(rt: HostRuntime) {
    check_eq(
        &rt,
        set_up(&mut [0], &mut [7; 64], &[on(OfPolicy(63)); 64]),
        Ok(()),
    );
    check_eq(
        &rt,
        set_up(&mut [0], &mut [7; 65], &[on(OfPolicy(63)); 65]),
        Err(TooMany),
    );
}

#[test]
fn as_many_policies_as_rights(rt: HostRuntime) {
    let policies = [on(OfCell(0)), on(OfPolicy(0))];
    check_eq(&rt, set_up(&mut [0], &mut [6, 7], &policies), Ok(()));
    check_eq(&rt, set_up(&mut [0], &mut [6], &policies), Err(BadPolicies));
}

#[test]
fn every_object_is_there(rt: HostRuntime) {
    check_eq(&rt, set_up(&mut [0; 4], &mut [6], &[on(OfCell(3))]), Ok(()));
    check_eq(
        &rt,
        set_up(&mut [0; 4], &mut [6], &[on(OfCell(4))]),
        Err(BadPolicies),
    );
    check_eq(
        &rt,
        set_up(&mut [0; 4], &mut [6], &[on(OfPolicy(1))]),
        Err(BadPolicies),
    );
}

#[test]
fn every_stored_code_is_a_right(rt: HostRuntime) {
    check_eq(&rt, set_up(&mut [0], &mut [7], &[on(OfCell(0))]), Ok(()));
    check_eq(
        &rt,
        set_up(&mut [0], &mut [8], &[on(OfCell(0))]),
        Err(BadRights),
    );
    // The absent object comes first.
    check_eq(
        &rt,
        set_up(&mut [0], &mut [8], &[on(OfCell(1))]),
        Err(BadPolicies),
    );
}
