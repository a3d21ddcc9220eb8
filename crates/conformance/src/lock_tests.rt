// Locks asked for, held and released, with masks and rows worked out by hand.
use crate::check::check_eq;
use locking::CellMode::{ReadCell, WriteCell};
use locking::LockAnswer::{Compatible, Conflict, Signal};
use locking::PolicyMode::{Deploy, ReadPolicy, Relax, Restrict};
use locking::{
    CellRow, LockAnswer, LockRow, Locks, PolicyLocks, PolicyMode, PolicyRow, SlotIndex, SlotSet,
};
use std::process::Abort;

// 16 for the relaxer or the restricter is nobody.
fn policy(readers: u16, deployers: u16, relaxer: u8, restricter: u8) -> PolicyRow {
    PolicyRow {
        readers,
        deployers,
        relaxer,
        restricter,
    }
}

// 16 for the writer is nobody.
fn cell(readers: u16, writer: u8) -> CellRow {
    CellRow { readers, writer }
}

fn slot(rt: &impl Abort, at: usize) -> SlotIndex {
    SlotIndex::new(at).expect(rt, "a slot")
}

fn locks<R: LockRow>(rt: &impl Abort, row: R) -> Locks<R> {
    Locks::from_row(row).expect(rt, "a compatible row")
}

// The row after and the mask of who is struck, or the mask of whom to wait for. A match and no `map`, in whose closure it is not proved that the locks are compatible.
fn asked<R: LockRow>(rt: &impl Abort, row: R, mode: R::Mode, at: usize) -> Result<(R, u16), u16> {
    match locks(rt, row).ask(mode, slot(rt, at)) {
        Ok(granted) => Ok((granted.locks.to_row(), granted.struck.to_mask())),
        Err(blocked) => Err(blocked.by.to_mask()),
    }
}

// What the locks of slot 3 say to slot 5.
fn said(rt: &impl Abort, row: PolicyRow, mode: PolicyMode) -> LockAnswer {
    match asked(rt, row, mode, 5) {
        Ok((_, 0)) => Compatible,
        Ok((_, 8)) => Signal,
        Err(8) => Conflict,
        others => panic!(rt; "{others:?}"),
    }
}

// What it says to each mode in turn: to read, to relax, to restrict and to deploy.
fn said_to_each(rt: &impl Abort, row: PolicyRow) -> [LockAnswer; 4] {
    [
        said(rt, row, ReadPolicy),
        said(rt, row, Relax),
        said(rt, row, Restrict),
        said(rt, row, Deploy),
    ]
}

#[test]
fn every_held_lock_to_every_asked_one(rt: HostRuntime) {
    check_eq(
        &rt,
        said_to_each(&rt, policy(8, 0, 16, 16)),
        [Compatible, Conflict, Conflict, Compatible],
    );
    check_eq(&rt, said_to_each(&rt, policy(0, 0, 3, 16)), [Conflict; 4]);
    check_eq(&rt, said_to_each(&rt, policy(0, 0, 16, 3)), [Conflict; 4]);
    check_eq(
        &rt,
        said_to_each(&rt, policy(0, 8, 16, 16)),
        [Compatible, Compatible, Signal, Compatible],
    );
}

#[test]
fn own_locks_never_count(rt: HostRuntime) {
    let row = policy(32, 32, 5, 16);
    check_eq(
        &rt,
        asked(&rt, row, Restrict, 5),
        Ok((policy(32, 32, 5, 5), 0)),
    );
    check_eq(&rt, asked(&rt, row, Restrict, 6), Err(32));
}

// Slot 5 deployed before slot 3 came to relax.
#[test]
fn a_lock_that_is_held_is_granted(rt: HostRuntime) {
    let row = policy(0, 32, 3, 16);
    check_eq(&rt, asked(&rt, row, Deploy, 5), Ok((row, 0)));
    check_eq(&rt, asked(&rt, row, Deploy, 6), Err(8));
}

#[test]
fn nobody_is_struck_while_somebody_says_no(rt: HostRuntime) {
    let row = policy(64, 40, 16, 16);
    check_eq(&rt, asked(&rt, row, Restrict, 7), Err(64));
    check_eq(
        &rt,
        asked(&rt, row, Restrict, 6),
        Ok((policy(64, 0, 16, 6), 40)),
    );
}

#[test]
fn the_asker_is_not_struck(rt: HostRuntime) {
    let row = policy(0, 40, 16, 16);
    check_eq(
        &rt,
        asked(&rt, row, Restrict, 5),
        Ok((policy(0, 32, 16, 5), 8)),
    );
}

fn released<R: LockRow>(rt: &impl Abort, row: R, at: usize) -> R {
    locks(rt, row).to_row().without(SlotSet::only(slot(rt, at)))
}

#[test]
fn a_slot_releases_its_own_locks(rt: HostRuntime) {
    let row = policy(8, 40, 3, 16);
    check_eq(&rt, released(&rt, row, 3), policy(0, 32, 16, 16));
    check_eq(&rt, released(&rt, row, 5), policy(8, 8, 3, 16));
    check_eq(&rt, released(&rt, row, 0), row);
}

#[test]
fn rows_that_are_compatible(rt: HostRuntime) {
    check_eq(&rt, PolicyLocks::none().to_row(), policy(0, 0, 16, 16));
    let rows = [
        policy(65535, 65535, 16, 16),
        policy(8, 65535, 3, 16),
        policy(8, 8, 3, 3),
    ];
    for row in rows {
        check_eq(&rt, (row, Locks::from_row(row).is_some()), (row, true));
    }
}

#[test]
fn rows_that_are_not(rt: HostRuntime) {
    let rows = [
        policy(0, 0, 17, 16),
        policy(0, 0, 16, 17),
        policy(0, 0, 3, 4),
        policy(16, 0, 3, 16),
        policy(16, 0, 16, 3),
        policy(0, 16, 16, 3),
    ];
    for row in rows {
        check_eq(&rt, (row, Locks::from_row(row).is_none()), (row, true));
    }
}

#[test]
fn locks_on_a_cell(rt: HostRuntime) {
    check_eq(
        &rt,
        asked(&rt, cell(8, 16), ReadCell, 5),
        Ok((cell(40, 16), 0)),
    );
    check_eq(&rt, asked(&rt, cell(8, 16), WriteCell, 5), Err(8));
    check_eq(
        &rt,
        asked(&rt, cell(8, 16), WriteCell, 3),
        Ok((cell(8, 3), 0)),
    );
    check_eq(&rt, asked(&rt, cell(40, 16), WriteCell, 3), Err(32));
    check_eq(&rt, asked(&rt, cell(0, 3), ReadCell, 5), Err(8));
    check_eq(
        &rt,
        asked(&rt, cell(0, 3), ReadCell, 3),
        Ok((cell(8, 3), 0)),
    );
    assert!(rt; Locks::from_row(cell(16, 3)).is_none());
    assert!(rt; Locks::from_row(cell(0, 17)).is_none());
}

#[test]
fn slots_end_at_15(rt: HostRuntime) {
    check_eq(&rt, SlotIndex::new(16), None);
    check_eq(&rt, slot(&rt, 15).get(), 15);
}
