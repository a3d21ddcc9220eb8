// Locks as the engine's answers show them.
use crate::check::check_eq;
use crate::steps::Call::{Commit, Deploy, GiveUp, Open, Read, Set, Show, Write};
use crate::steps::{Call, Step, follow, on_cell, on_policy, work};
use engine::Engine;
use protocol::Answer;
use protocol::Answer::{Aborted, Granted, Refused, Wait};
use protocol::Refusal::NotPermitted;
use rights::VectorOrder;
use std::process::Abort;
use stores::TableStore;

// The writer that waits has written nothing, and keeps no reader out. It names the lowest-numbered of the readers that are left.
#[test]
fn a_writer_waits_for_the_readers(rt: HostRuntime) {
    static STEPS: &[Step] = &[
        (Open(1), Granted(1)),
        (Open(1), Granted(2)),
        (Open(1), Granted(3)),
        (Deploy(1, 0), Granted(0)),
        (Deploy(2, 0), Granted(0)),
        (Deploy(3, 0), Granted(0)),
        (Read(3, 0), Granted(5)),
        (Read(2, 0), Granted(5)),
        (Write(1, 0, 9), Wait(2)),
        (Write(1, 0, 9), Wait(2)),
        (Read(1, 0), Granted(5)),
        (Write(3, 0, 9), Wait(1)),
        (GiveUp(2), Granted(0)),
        (Write(1, 0, 9), Wait(3)),
        (Commit(3), Granted(1)),
        (Write(1, 0, 9), Granted(0)),
        (Read(1, 0), Granted(9)),
        (Commit(1), Granted(2)),
    ];
    let mut cells = [5];
    work(&rt, &mut cells, &mut [6], &[on_cell(1, 0)], STEPS);
    check_eq(&rt, cells, [9]);
}

// Transaction 4 has the slot that transaction 1 had, in front of that of transaction 3. The number counts, not the slot.
#[test]
fn the_lowest_number_is_named(rt: HostRuntime) {
    static STEPS: &[Step] = &[
        (Open(1), Granted(1)),
        (Open(1), Granted(2)),
        (Open(1), Granted(3)),
        (GiveUp(1), Granted(0)),
        (Open(1), Granted(4)),
        (Deploy(2, 0), Granted(0)),
        (Deploy(3, 0), Granted(0)),
        (Deploy(4, 0), Granted(0)),
        (Read(4, 0), Granted(5)),
        (Read(3, 0), Granted(5)),
        (Write(2, 0, 9), Wait(3)),
        (GiveUp(3), Granted(0)),
        (Write(2, 0, 9), Wait(4)),
    ];
    work(&rt, &mut [5], &mut [6], &[on_cell(1, 0)], STEPS);
}

// Transaction 2 waits, and has then no lock that would keep transactions 1 and 3 out.
#[test]
fn a_reader_waits_for_a_writer(rt: HostRuntime) {
    static STEPS: &[Step] = &[
        (Open(1), Granted(1)),
        (Open(1), Granted(2)),
        (Open(1), Granted(3)),
        (Deploy(1, 0), Granted(0)),
        (Deploy(2, 0), Granted(0)),
        (Deploy(3, 0), Granted(0)),
        (Write(1, 0, 9), Granted(0)),
        (Read(2, 0), Wait(1)),
        (Write(2, 0, 8), Wait(1)),
        (Read(2, 0), Wait(1)),
        (Write(1, 0, 10), Granted(0)),
        (Commit(1), Granted(1)),
        (Write(3, 0, 11), Granted(0)),
        (Read(2, 0), Wait(3)),
        (GiveUp(3), Granted(0)),
        (Read(2, 0), Granted(10)),
        (Commit(2), Granted(2)),
    ];
    let mut cells = [5];
    work(&rt, &mut cells, &mut [6], &[on_cell(1, 0)], STEPS);
    check_eq(&rt, cells, [10]);
}

// A transaction that reads writes too, if it is the only reader, and reads what it wrote.
#[test]
fn own_locks_on_a_cell_never_count(rt: HostRuntime) {
    static STEPS: &[Step] = &[
        (Open(1), Granted(1)),
        (Open(1), Granted(2)),
        (Deploy(1, 0), Granted(0)),
        (Deploy(2, 0), Granted(0)),
        (Read(1, 0), Granted(5)),
        (Write(1, 0, 9), Granted(0)),
        (Read(1, 0), Granted(9)),
        (Write(1, 0, 10), Granted(0)),
        (Read(2, 0), Wait(1)),
    ];
    work(&rt, &mut [5], &mut [6], &[on_cell(1, 0)], STEPS);
}

// It deploys policy 0, shows it, relaxes it from 6 to 7 and restricts it from 6 to 4: nobody is struck. Then it has every lock of policy 0, and still shows, deploys
// and relaxes. Its own right on the cell is still 6.
#[test]
fn own_locks_on_a_policy_never_count(rt: HostRuntime) {
    static STEPS: &[Step] = &[
        (Open(9), Granted(1)),
        (Open(9), Granted(2)),
        (Deploy(1, 0), Granted(0)),
        (Deploy(1, 1), Granted(0)),
        (Show(1, 0), Granted(6)),
        (Set(1, 0, 7), Granted(0)),
        (Set(1, 0, 4), Granted(0)),
        (Show(1, 0), Granted(4)),
        (Deploy(1, 0), Granted(0)),
        (Set(1, 0, 7), Granted(0)),
        (Set(1, 0, 4), Granted(0)),
        (Write(1, 0, 9), Granted(0)),
        (Deploy(2, 0), Wait(1)),
        (Commit(1), Granted(1)),
    ];
    let mut rights = [6, 7];
    let policies = [on_cell(9, 0), on_policy(9, 0)];
    work(&rt, &mut [5], &mut rights, &policies, STEPS);
    check_eq(&rt, rights, [4, 7]);
}

// What transaction 2 is answered, after transaction 1 was granted what it holds. Policy 0 has right 4, and both may do all with it.
fn asked_beside(rt: &impl Abort, held: Call, asked: Call) -> Answer {
    static STEPS: &[Step] = &[
        (Open(9), Granted(1)),
        (Open(9), Granted(2)),
        (Deploy(1, 1), Granted(0)),
        (Deploy(2, 1), Granted(0)),
    ];
    let mut cells = TableStore::new(&[5]);
    let mut rights = TableStore::new(&[4, 7]);
    let policies = [on_cell(9, 0), on_policy(9, 0)];
    let mut engine = Engine::new(&mut cells, &mut rights, &VectorOrder, &policies);
    follow(rt, &mut engine, STEPS);
    assert!(rt; matches!(engine.call(held.request()), Granted(_)));
    engine.call(asked.request())
}

// The same for read, relax, restrict and deploy in turn: from 4, a set to 6 relaxes and a set to 0 restricts.
fn each_beside(rt: &impl Abort, held: Call) -> [Answer; 4] {
    [
        asked_beside(rt, held, Show(2, 0)),
        asked_beside(rt, held, Set(2, 0, 6)),
        asked_beside(rt, held, Set(2, 0, 0)),
        asked_beside(rt, held, Deploy(2, 0)),
    ]
}

// A show tells the right 4, and a restrict beside a deploy lock strikes one.
#[test]
fn every_lock_beside_every_lock(rt: HostRuntime) {
    check_eq(
        &rt,
        each_beside(&rt, Show(1, 0)),
        [Granted(4), Wait(1), Wait(1), Granted(0)],
    );
    check_eq(&rt, each_beside(&rt, Set(1, 0, 6)), [Wait(1); 4]);
    check_eq(&rt, each_beside(&rt, Set(1, 0, 0)), [Wait(1); 4]);
    check_eq(
        &rt,
        each_beside(&rt, Deploy(1, 0)),
        [Granted(4), Granted(0), Granted(1), Granted(0)],
    );
}

// Transaction 3 has deployed policy 0 before it is relaxed, and goes on. Transaction 2 comes later: it waits, and the deploy that waits has deployed nothing.
#[test]
fn a_relaxer_keeps_deployers_out(rt: HostRuntime) {
    static STEPS: &[Step] = &[
        (Open(9), Granted(1)),
        (Open(1), Granted(2)),
        (Open(1), Granted(3)),
        (Deploy(1, 1), Granted(0)),
        (Deploy(3, 0), Granted(0)),
        (Set(1, 0, 6), Granted(0)),
        (Deploy(2, 0), Wait(1)),
        (Deploy(2, 0), Wait(1)),
        (Read(2, 0), Refused(NotPermitted)),
        (Deploy(3, 0), Granted(0)),
        (Read(3, 0), Granted(5)),
        (Commit(1), Granted(1)),
        (Read(2, 0), Refused(NotPermitted)),
        (Deploy(2, 0), Granted(0)),
        (Read(2, 0), Granted(5)),
    ];
    let policies = [on_cell(1, 0), on_policy(9, 0)];
    work(&rt, &mut [5], &mut [4, 2], &policies, STEPS);
}

// Transactions 1, 2 and 3 deploy policy 0. Transaction 3 restricts it from 6 to 4: the two others are struck, and it reads and even writes on by its own deploy lock,
// with the right 6 in force until its commit.
#[test]
fn the_restricter_is_not_struck(rt: HostRuntime) {
    static STEPS: &[Step] = &[
        (Open(9), Granted(1)),
        (Open(9), Granted(2)),
        (Open(9), Granted(3)),
        (Deploy(1, 0), Granted(0)),
        (Deploy(2, 0), Granted(0)),
        (Deploy(3, 0), Granted(0)),
        (Deploy(3, 1), Granted(0)),
        (Set(3, 0, 4), Granted(2)),
        (Read(1, 0), Aborted { by: 3, policy: 0 }),
        (Read(2, 0), Aborted { by: 3, policy: 0 }),
        (Read(3, 0), Granted(5)),
        (Write(3, 0, 9), Granted(0)),
        (Commit(3), Granted(1)),
        (Commit(2), Aborted { by: 3, policy: 0 }),
        (Commit(1), Aborted { by: 3, policy: 0 }),
    ];
    let mut rights = [6, 7];
    let policies = [on_cell(9, 0), on_policy(9, 0)];
    work(&rt, &mut [5], &mut rights, &policies, STEPS);
    check_eq(&rt, rights, [4, 7]);
}

// Transaction 2 has shown policy 0, and its read lock says no. So transaction 3 waits, and transaction 1, which has deployed the policy, is not struck yet.
#[test]
fn nobody_is_struck_by_one_that_waits(rt: HostRuntime) {
    static STEPS: &[Step] = &[
        (Open(1), Granted(1)),
        (Open(9), Granted(2)),
        (Open(9), Granted(3)),
        (Deploy(1, 0), Granted(0)),
        (Deploy(2, 1), Granted(0)),
        (Deploy(3, 1), Granted(0)),
        (Show(2, 0), Granted(6)),
        (Set(3, 0, 4), Wait(2)),
        (Read(1, 0), Granted(5)),
        (Show(3, 0), Granted(6)),
        (Commit(2), Granted(1)),
        (Set(3, 0, 4), Granted(1)),
        (Read(1, 0), Aborted { by: 3, policy: 0 }),
    ];
    let policies = [on_cell(1, 0), on_policy(9, 0)];
    work(&rt, &mut [5], &mut [6, 7], &policies, STEPS);
}

// Transaction 3 waits while policy 0 is locked to be restricted, so that later sets find nobody to strike.
#[test]
fn a_restricter_strikes_once(rt: HostRuntime) {
    static STEPS: &[Step] = &[
        (Open(1), Granted(1)),
        (Open(9), Granted(2)),
        (Open(1), Granted(3)),
        (Deploy(1, 0), Granted(0)),
        (Deploy(2, 1), Granted(0)),
        (Set(2, 0, 4), Granted(1)),
        (Deploy(3, 0), Wait(2)),
        (Set(2, 0, 0), Granted(0)),
        (Set(2, 0, 2), Granted(0)),
        (Commit(2), Granted(1)),
        (Deploy(3, 0), Granted(0)),
        (Read(3, 0), Refused(NotPermitted)),
        (Write(3, 0, 9), Granted(0)),
    ];
    let mut rights = [6, 7];
    let policies = [on_cell(1, 0), on_policy(9, 0)];
    work(&rt, &mut [5], &mut rights, &policies, STEPS);
    check_eq(&rt, rights, [2, 7]);
}
