// What a struck transaction is answered, and what it has lost.
use crate::check::check_eq;
use crate::steps::Call::{Commit, Deploy, GiveUp, Open, Read, Set, Show, Write};
use crate::steps::{Step, follow, on_cell, on_policy, work};
use engine::Engine;
use protocol::Answer::{Aborted, Granted, Refused, Wait};
use protocol::Policy;
use protocol::Refusal::{NoFreeSlot, NoSuchTransaction};
use rights::{RightsOrder, VectorOrder};
use std::process::Abort;
use stores::{SliceStore, Store};

// Subjects 1 and 2 have a policy on cell 0, and subject 9 one on subject 1's policy, which is policy 1.
fn policies() -> [Policy; 3] {
    [on_cell(2, 0), on_cell(1, 0), on_policy(9, 1)]
}

// Transaction 1 writes cell 0, and transaction 2 restricts its policy from 6 to 4.
fn strike<C: Store, R: Store, O: RightsOrder>(
    rt: &impl Abort,
    engine: &mut Engine<'_, '_, '_, C, R, O>,
) {
    static STEPS: &[Step] = &[
        (Open(1), Granted(1)),
        (Open(9), Granted(2)),
        (Deploy(1, 1), Granted(0)),
        (Write(1, 0, 50), Granted(0)),
        (Deploy(2, 2), Granted(0)),
        (Set(2, 1, 4), Granted(1)),
    ];
    follow(rt, engine, STEPS);
}

// Those steps and the given ones, on cells 5 and 8 and rights 6, 6 and 7; what is stored then.
fn after_strike(rt: &impl Abort, steps: &[Step]) -> ([u32; 2], [u32; 3]) {
    let mut cells = [5, 8];
    let mut rights = [6, 6, 7];
    let mut cell_store = SliceStore::new(&mut cells);
    let mut right_store = SliceStore::new(&mut rights);
    let policies = policies();
    let mut engine = Engine::new(&mut cell_store, &mut right_store, &VectorOrder, &policies);
    strike(rt, &mut engine);
    follow(rt, &mut engine, steps);
    (cells, rights)
}

// Aborted comes before every refusal but that there is no such transaction: cell 2 and policy 3 are absent, policy 0 is subject 2's, and 8 is no right.
#[test]
fn every_call_is_answered_aborted(rt: HostRuntime) {
    static STEPS: &[Step] = &[
        (Deploy(1, 1), Aborted { by: 2, policy: 1 }),
        (Read(1, 0), Aborted { by: 2, policy: 1 }),
        (Write(1, 0, 51), Aborted { by: 2, policy: 1 }),
        (Show(1, 1), Aborted { by: 2, policy: 1 }),
        (Set(1, 1, 7), Aborted { by: 2, policy: 1 }),
        (Read(1, 2), Aborted { by: 2, policy: 1 }),
        (Deploy(1, 3), Aborted { by: 2, policy: 1 }),
        (Deploy(1, 0), Aborted { by: 2, policy: 1 }),
        (Set(1, 1, 8), Aborted { by: 2, policy: 1 }),
        (Deploy(1, 1), Aborted { by: 2, policy: 1 }),
        (Commit(2), Granted(1)),
        (Read(1, 0), Aborted { by: 2, policy: 1 }),
    ];
    check_eq(&rt, after_strike(&rt, STEPS), ([5, 8], [6, 4, 7]));
}

#[test]
fn a_commit_ends_it(rt: HostRuntime) {
    static STEPS: &[Step] = &[
        (Commit(1), Aborted { by: 2, policy: 1 }),
        (Commit(1), Refused(NoSuchTransaction)),
        (GiveUp(1), Refused(NoSuchTransaction)),
        (Deploy(1, 1), Refused(NoSuchTransaction)),
        (Read(1, 0), Refused(NoSuchTransaction)),
        (Write(1, 0, 51), Refused(NoSuchTransaction)),
        (Show(1, 1), Refused(NoSuchTransaction)),
        (Set(1, 1, 7), Refused(NoSuchTransaction)),
        (Commit(2), Granted(1)),
    ];
    check_eq(&rt, after_strike(&rt, STEPS), ([5, 8], [6, 4, 7]));
}

#[test]
fn giving_up_ends_it(rt: HostRuntime) {
    static STEPS: &[Step] = &[
        (GiveUp(1), Aborted { by: 2, policy: 1 }),
        (GiveUp(1), Refused(NoSuchTransaction)),
        (Commit(1), Refused(NoSuchTransaction)),
        (Read(1, 0), Refused(NoSuchTransaction)),
        (Commit(2), Granted(1)),
    ];
    check_eq(&rt, after_strike(&rt, STEPS), ([5, 8], [6, 4, 7]));
}

// It has a slot until it ends: of 16, it and transaction 2 have two, and 3 to 16 the others.
#[test]
fn it_keeps_its_slot(rt: HostRuntime) {
    static STEPS: &[Step] = &[
        (Open(1), Granted(3)),
        (Open(1), Granted(4)),
        (Open(1), Granted(5)),
        (Open(1), Granted(6)),
        (Open(1), Granted(7)),
        (Open(1), Granted(8)),
        (Open(1), Granted(9)),
        (Open(1), Granted(10)),
        (Open(1), Granted(11)),
        (Open(1), Granted(12)),
        (Open(1), Granted(13)),
        (Open(1), Granted(14)),
        (Open(1), Granted(15)),
        (Open(1), Granted(16)),
        (Open(1), Refused(NoFreeSlot)),
        (Read(1, 0), Aborted { by: 2, policy: 1 }),
        (Open(1), Refused(NoFreeSlot)),
        (Commit(1), Aborted { by: 2, policy: 1 }),
        (Open(1), Granted(17)),
    ];
    check_eq(&rt, after_strike(&rt, STEPS), ([5, 8], [6, 6, 7]));
}

// Transaction 3 waits for the write lock of transaction 1, and has it once 1 is struck. What 1 asks then changes nothing.
#[test]
fn its_write_lock_is_gone(rt: HostRuntime) {
    static STEPS: &[Step] = &[
        (Open(1), Granted(1)),
        (Open(9), Granted(2)),
        (Open(2), Granted(3)),
        (Deploy(1, 1), Granted(0)),
        (Deploy(2, 2), Granted(0)),
        (Deploy(3, 0), Granted(0)),
        (Write(1, 0, 50), Granted(0)),
        (Write(3, 0, 60), Wait(1)),
        (Set(2, 1, 4), Granted(1)),
        (Write(3, 0, 60), Granted(0)),
        (Write(1, 0, 51), Aborted { by: 2, policy: 1 }),
        (Read(3, 0), Granted(60)),
        (Commit(1), Aborted { by: 2, policy: 1 }),
        (Commit(3), Granted(1)),
        (Commit(2), Granted(2)),
    ];
    let mut cells = [5, 8];
    let mut rights = [6, 6, 7];
    work(&rt, &mut cells, &mut rights, &policies(), STEPS);
    check_eq(&rt, cells, [60, 8]);
    check_eq(&rt, rights, [6, 4, 7]);
}

#[test]
fn its_read_lock_is_gone(rt: HostRuntime) {
    static STEPS: &[Step] = &[
        (Open(1), Granted(1)),
        (Open(9), Granted(2)),
        (Open(2), Granted(3)),
        (Deploy(1, 1), Granted(0)),
        (Deploy(2, 2), Granted(0)),
        (Deploy(3, 0), Granted(0)),
        (Read(1, 0), Granted(5)),
        (Write(3, 0, 60), Wait(1)),
        (Set(2, 1, 4), Granted(1)),
        (Read(1, 0), Aborted { by: 2, policy: 1 }),
        (Write(3, 0, 60), Granted(0)),
    ];
    work(&rt, &mut [5, 8], &mut [6, 6, 7], &policies(), STEPS);
}

// Once transaction 2 has ended, nobody locks policy 1. The struck one asks for the deploy lock and does not get it, so that there is nobody to strike.
#[test]
fn its_deploy_lock_is_gone(rt: HostRuntime) {
    static STEPS: &[Step] = &[
        (Commit(2), Granted(1)),
        (Deploy(1, 1), Aborted { by: 2, policy: 1 }),
        (Open(9), Granted(3)),
        (Deploy(3, 2), Granted(0)),
        (Set(3, 1, 0), Granted(0)),
        (Commit(3), Granted(2)),
        (Commit(1), Aborted { by: 2, policy: 1 }),
    ];
    check_eq(&rt, after_strike(&rt, STEPS), ([5, 8], [6, 0, 7]));
}

// It wrote 50 before it was struck.
#[test]
fn its_changes_are_gone(rt: HostRuntime) {
    static STEPS: &[Step] = &[
        (Open(2), Granted(3)),
        (Deploy(3, 0), Granted(0)),
        (Read(3, 0), Granted(5)),
        (Commit(1), Aborted { by: 2, policy: 1 }),
        (Read(3, 0), Granted(5)),
        (Commit(3), Granted(1)),
    ];
    check_eq(&rt, after_strike(&rt, STEPS), ([5, 8], [6, 6, 7]));
}

// Transaction 1 relaxes policy 0, under policy 1, which transaction 2 restricts. With the relax lock gone, transaction 3 deploys policy 0.
#[test]
fn its_relaxation_is_gone(rt: HostRuntime) {
    static STEPS: &[Step] = &[
        (Open(9), Granted(1)),
        (Open(10), Granted(2)),
        (Open(1), Granted(3)),
        (Deploy(1, 1), Granted(0)),
        (Deploy(2, 2), Granted(0)),
        (Set(1, 0, 7), Granted(0)),
        (Deploy(3, 0), Wait(1)),
        (Set(2, 1, 4), Granted(1)),
        (Deploy(3, 0), Granted(0)),
        (Commit(1), Aborted { by: 2, policy: 1 }),
        (Commit(2), Granted(1)),
    ];
    let mut rights = [6, 7, 7];
    let policies = [on_cell(1, 0), on_policy(9, 0), on_policy(10, 1)];
    work(&rt, &mut [5], &mut rights, &policies, STEPS);
    check_eq(&rt, rights, [6, 4, 7]);
}

#[test]
fn each_keeps_who_struck_it(rt: HostRuntime) {
    static STEPS: &[Step] = &[
        (Open(1), Granted(1)),
        (Open(2), Granted(2)),
        (Open(9), Granted(3)),
        (Open(9), Granted(4)),
        (Deploy(1, 0), Granted(0)),
        (Deploy(2, 1), Granted(0)),
        (Deploy(3, 2), Granted(0)),
        (Deploy(4, 3), Granted(0)),
        (Set(3, 0, 4), Granted(1)),
        (Set(4, 1, 4), Granted(1)),
        (Read(1, 0), Aborted { by: 3, policy: 0 }),
        (Read(2, 0), Aborted { by: 4, policy: 1 }),
        (GiveUp(4), Granted(0)),
        (Commit(2), Aborted { by: 4, policy: 1 }),
        (Commit(1), Aborted { by: 3, policy: 0 }),
    ];
    let policies = [
        on_cell(1, 0),
        on_cell(2, 0),
        on_policy(9, 0),
        on_policy(9, 1),
    ];
    work(&rt, &mut [5], &mut [6, 6, 7, 7], &policies, STEPS);
}
