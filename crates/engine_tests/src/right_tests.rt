// Which right counts: the one in force, that is the stored one.
use crate::check::check_eq;
use crate::steps::Call::{Commit, Deploy, GiveUp, Open, Read, Set, Show, Write};
use crate::steps::{Step, on_cell, on_policy, work};
use protocol::Answer::{Aborted, Granted, Refused};
use protocol::Refusal::{Absent, NotARight, NotPermitted};

// Right 2 lets subject 9 relax policy 0 and not show it. From 0 to 4 relaxes.
#[test]
fn a_relaxed_right_holds_from_its_commit(rt: HostRuntime) {
    static STEPS: &[Step] = &[
        (Open(1), Granted(1)),
        (Open(9), Granted(2)),
        (Deploy(1, 0), Granted(0)),
        (Deploy(2, 1), Granted(0)),
        (Read(1, 0), Refused(NotPermitted)),
        (Show(2, 0), Refused(NotPermitted)),
        (Set(2, 0, 4), Granted(0)),
        (Read(1, 0), Refused(NotPermitted)),
        (Commit(2), Granted(1)),
        (Read(1, 0), Granted(5)),
        (Write(1, 0, 9), Refused(NotPermitted)),
    ];
    let mut rights = [0, 2];
    let policies = [on_cell(1, 0), on_policy(9, 0)];
    work(&rt, &mut [5], &mut rights, &policies, STEPS);
    check_eq(&rt, rights, [4, 2]);
}

// The transaction that relaxes a policy has deployed it too, and may not use the new right either.
#[test]
fn an_own_relaxation_holds_from_its_commit(rt: HostRuntime) {
    static STEPS: &[Step] = &[
        (Open(9), Granted(1)),
        (Deploy(1, 0), Granted(0)),
        (Deploy(1, 1), Granted(0)),
        (Set(1, 0, 4), Granted(0)),
        (Show(1, 0), Granted(4)),
        (Read(1, 0), Refused(NotPermitted)),
        (Commit(1), Granted(1)),
        (Open(9), Granted(2)),
        (Deploy(2, 0), Granted(0)),
        (Read(2, 0), Granted(5)),
    ];
    let policies = [on_cell(9, 0), on_policy(9, 0)];
    work(&rt, &mut [5], &mut [0, 6], &policies, STEPS);
}

// From 6 to 4: who deploys the policy after the commit may still read, and no longer write.
#[test]
fn a_restricted_right_holds_from_its_commit(rt: HostRuntime) {
    static STEPS: &[Step] = &[
        (Open(9), Granted(1)),
        (Open(1), Granted(2)),
        (Deploy(1, 1), Granted(0)),
        (Set(1, 0, 4), Granted(0)),
        (Commit(1), Granted(1)),
        (Deploy(2, 0), Granted(0)),
        (Read(2, 0), Granted(5)),
        (Write(2, 0, 9), Refused(NotPermitted)),
    ];
    let policies = [on_cell(1, 0), on_policy(9, 0)];
    work(&rt, &mut [5], &mut [6, 7], &policies, STEPS);
}

// Right 2 permits operation 1 alone. From 4, both 7 and 5 relax, though from 7 to 5 would restrict. From 4 to 3 joins to 7 and restricts.
#[test]
fn a_set_is_judged_by_the_right_in_force(rt: HostRuntime) {
    static STEPS: &[Step] = &[
        (Open(9), Granted(1)),
        (Deploy(1, 1), Granted(0)),
        (Set(1, 0, 7), Granted(0)),
        (Set(1, 0, 5), Granted(0)),
        (Set(1, 0, 3), Refused(NotPermitted)),
        (Commit(1), Granted(1)),
    ];
    let mut rights = [4, 2];
    let policies = [on_cell(1, 0), on_policy(9, 0)];
    work(&rt, &mut [5], &mut rights, &policies, STEPS);
    check_eq(&rt, rights, [5, 2]);
}

// Right 1 permits operation 2 alone. From 6, both 4 and 2 restrict, and so does 5. From 6 to 7 relaxes, and from 6 to 6 too.
#[test]
fn a_restricter_may_not_relax(rt: HostRuntime) {
    static STEPS: &[Step] = &[
        (Open(9), Granted(1)),
        (Deploy(1, 1), Granted(0)),
        (Set(1, 0, 7), Refused(NotPermitted)),
        (Set(1, 0, 6), Refused(NotPermitted)),
        (Set(1, 0, 4), Granted(0)),
        (Set(1, 0, 5), Granted(0)),
        (Set(1, 0, 6), Refused(NotPermitted)),
        (Set(1, 0, 2), Granted(0)),
        (Commit(1), Granted(1)),
    ];
    let mut rights = [6, 1];
    let policies = [on_cell(1, 0), on_policy(9, 0)];
    work(&rt, &mut [5], &mut rights, &policies, STEPS);
    check_eq(&rt, rights, [2, 1]);
}

// A code that is no right is refused before the permission, and an absent policy before the code.
#[test]
fn no_right_before_no_permission(rt: HostRuntime) {
    static STEPS: &[Step] = &[
        (Open(9), Granted(1)),
        (Set(1, 0, 8), Refused(NotARight)),
        (Set(1, 0, 7), Refused(NotPermitted)),
        (Set(1, 2, 8), Refused(Absent)),
        (Set(1, 1, 4294967295), Refused(NotARight)),
    ];
    let policies = [on_cell(1, 0), on_policy(9, 0)];
    work(&rt, &mut [5], &mut [6, 7], &policies, STEPS);
}

// What is given up is not stored.
#[test]
fn a_read_sees_the_own_write(rt: HostRuntime) {
    static STEPS: &[Step] = &[
        (Open(1), Granted(1)),
        (Deploy(1, 0), Granted(0)),
        (Deploy(1, 1), Granted(0)),
        (Write(1, 0, 50), Granted(0)),
        (Read(1, 0), Granted(50)),
        (Read(1, 1), Granted(6)),
        (Write(1, 0, 4294967295), Granted(0)),
        (Read(1, 0), Granted(4294967295)),
        (GiveUp(1), Granted(0)),
        (Open(1), Granted(2)),
        (Deploy(2, 0), Granted(0)),
        (Read(2, 0), Granted(5)),
    ];
    let mut cells = [5, 6];
    let policies = [on_cell(1, 0), on_cell(1, 1)];
    work(&rt, &mut cells, &mut [6, 6], &policies, STEPS);
    check_eq(&rt, cells, [5, 6]);
}

#[test]
fn a_show_sees_the_own_set(rt: HostRuntime) {
    static STEPS: &[Step] = &[
        (Open(9), Granted(1)),
        (Deploy(1, 1), Granted(0)),
        (Show(1, 0), Granted(4)),
        (Set(1, 0, 7), Granted(0)),
        (Show(1, 0), Granted(7)),
        (GiveUp(1), Granted(0)),
        (Open(9), Granted(2)),
        (Deploy(2, 1), Granted(0)),
        (Show(2, 0), Granted(4)),
    ];
    let mut rights = [4, 6];
    let policies = [on_cell(1, 0), on_policy(9, 0)];
    work(&rt, &mut [5], &mut rights, &policies, STEPS);
    check_eq(&rt, rights, [4, 6]);
}

// Transaction 2 strikes and gives up. Transaction 1 stays struck, and transaction 3 of the same subject has the right as it was.
#[test]
fn a_restriction_given_up(rt: HostRuntime) {
    static STEPS: &[Step] = &[
        (Open(1), Granted(1)),
        (Open(9), Granted(2)),
        (Deploy(1, 0), Granted(0)),
        (Write(1, 0, 50), Granted(0)),
        (Deploy(2, 1), Granted(0)),
        (Set(2, 0, 4), Granted(1)),
        (GiveUp(2), Granted(0)),
        (Read(1, 0), Aborted { by: 2, policy: 0 }),
        (Open(1), Granted(3)),
        (Deploy(3, 0), Granted(0)),
        (Write(3, 0, 60), Granted(0)),
        (Commit(1), Aborted { by: 2, policy: 0 }),
        (Commit(3), Granted(1)),
    ];
    let mut cells = [5];
    let mut rights = [6, 7];
    let policies = [on_cell(1, 0), on_policy(9, 0)];
    work(&rt, &mut cells, &mut rights, &policies, STEPS);
    check_eq(&rt, cells, [60]);
    check_eq(&rt, rights, [6, 7]);
}
