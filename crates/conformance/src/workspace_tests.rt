// A workspace at its limit.
use crate::check::check_eq;
use protocol::Change;
use protocol::Object::{OfCell, OfPolicy};
use protocol::Refusal::TooManyChanges;
use std::process::Abort;
use workspace::Workspace;

// A workspace with a change of each of the cells 0 to 15, to 5.
fn full(rt: &impl Abort) -> Workspace {
    let mut workspace = Workspace::new();
    for cell in 0..16 {
        assert!(rt; workspace.has_room(OfCell(cell)));
        check_eq(rt, workspace.put(OfCell(cell), 5), Ok(()));
    }
    workspace
}

#[test]
fn a_workspace_holds_16_changes(rt: HostRuntime) {
    let mut workspace = full(&rt);
    check_eq(&rt, workspace.len(), 16);
    assert!(rt; !workspace.has_room(OfPolicy(0)));
    check_eq(&rt, workspace.put(OfPolicy(0), 9), Err(TooManyChanges));
    check_eq(&rt, workspace.value_of(OfPolicy(0)), None);
    check_eq(&rt, workspace.len(), 16);
}

#[test]
fn a_replaced_change_takes_no_room(rt: HostRuntime) {
    let mut workspace = full(&rt);
    assert!(rt; workspace.has_room(OfCell(15)));
    check_eq(&rt, workspace.put(OfCell(15), 4294967295), Ok(()));
    check_eq(&rt, workspace.value_of(OfCell(15)), Some(4294967295));
    check_eq(&rt, workspace.value_of(OfCell(14)), Some(5));
    check_eq(&rt, workspace.len(), 16);
}

#[test]
fn changes_keep_their_order(rt: HostRuntime) {
    let mut workspace = Workspace::new();
    check_eq(&rt, workspace.put(OfCell(3), 10), Ok(()));
    check_eq(&rt, workspace.put(OfPolicy(3), 20), Ok(()));
    check_eq(&rt, workspace.put(OfCell(3), 11), Ok(()));
    let change = |object, value| Some(Change { object, value });
    check_eq(&rt, workspace.get(0), change(OfCell(3), 11));
    check_eq(&rt, workspace.get(1), change(OfPolicy(3), 20));
    check_eq(&rt, workspace.get(2), None);
}
