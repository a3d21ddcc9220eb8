// The orders of rights at their limits, and the whole table of the vector order.
use crate::check::check_eq;
use locking::examples_stand;
use protocol::Refusal;
use protocol::Refusal::BadThreshold;
use rights::ChangeKind::{Relaxation, Restriction};
use rights::Operation::{Read, Restrict, Write};
use rights::{LadderOrder, RightsOrder, VectorOrder, change_of};
use std::process::Abort;

#[test]
fn worked_examples(rt: HostRuntime) {
    assert!(rt; examples_stand());
}

#[test]
fn vector_rights_end_at_7(rt: HostRuntime) {
    assert!(rt; VectorOrder.is_right(7));
    assert!(rt; !VectorOrder.is_right(8));
    check_eq(&rt, VectorOrder.join(7, 7), 7);
    check_eq(&rt, VectorOrder.join(7, 8), 0);
    check_eq(&rt, VectorOrder.join(8, 7), 0);
}

// Holds an order to whether each code permits to read, to write and to restrict.
fn check_permissions<O: RightsOrder>(rt: &impl Abort, order: &O, table: &[(u32, [bool; 3])]) {
    for (code, expected) in table {
        let permitted = [
            order.permits(*code, Read),
            order.permits(*code, Write),
            order.permits(*code, Restrict),
        ];
        check_eq(rt, (*code, permitted), (*code, *expected));
    }
}

#[test]
fn vector_permissions(rt: HostRuntime) {
    static TABLE: [(u32, [bool; 3]); 10] = [
        (0, [false, false, false]),
        (1, [false, false, true]),
        (2, [false, true, false]),
        (3, [false, true, true]),
        (4, [true, false, false]),
        (5, [true, false, true]),
        (6, [true, true, false]),
        (7, [true, true, true]),
        // No rights, though their low bits have weights.
        (8, [false, false, false]),
        (15, [false, false, false]),
    ];
    check_permissions(&rt, &VectorOrder, &TABLE);
}

// With thresholds 10, 20 and 30.
fn ladder(rt: &impl Abort) -> LadderOrder {
    LadderOrder::new(10, 20, 30).expect(rt, "three thresholds")
}

#[test]
fn ladder_rights_end_at_100(rt: HostRuntime) {
    let order = ladder(&rt);
    assert!(rt; order.is_right(100));
    assert!(rt; !order.is_right(101));
    check_eq(&rt, order.join(100, 7), 100);
    check_eq(&rt, order.join(7, 100), 100);
    check_eq(&rt, order.join(101, 7), 0);
    check_eq(&rt, order.join(7, 101), 0);
}

#[test]
fn ladder_permissions(rt: HostRuntime) {
    static TABLE: [(u32, [bool; 3]); 8] = [
        (9, [false, false, false]),
        (10, [true, false, false]),
        (19, [true, false, false]),
        (20, [true, true, false]),
        (29, [true, true, false]),
        (30, [true, true, true]),
        (100, [true, true, true]),
        (101, [false, false, false]),
    ];
    check_permissions(&rt, &ladder(&rt), &TABLE);
}

// Why the thresholds are refused when they are checked, and when an order is made of them.
fn refusals(read: u32, write: u32, restrict: u32) -> [Option<Refusal>; 2] {
    let checked = LadderOrder::check(read, write, restrict);
    let made = LadderOrder::new(read, write, restrict);
    [checked.err(), made.err()]
}

// The threshold in each of the three places, beside 50 in the others.
fn refusals_in_each_place(threshold: u32) -> [[Option<Refusal>; 2]; 3] {
    [
        refusals(threshold, 50, 50),
        refusals(50, threshold, 50),
        refusals(50, 50, threshold),
    ]
}

#[test]
fn thresholds_from_1_to_100(rt: HostRuntime) {
    check_eq(&rt, refusals_in_each_place(1), [[None; 2]; 3]);
    check_eq(&rt, refusals_in_each_place(100), [[None; 2]; 3]);
    check_eq(&rt, refusals_in_each_place(0), [[Some(BadThreshold); 2]; 3]);
    check_eq(
        &rt,
        refusals_in_each_place(101),
        [[Some(BadThreshold); 2]; 3],
    );
}

#[test]
fn vector_changes(rt: HostRuntime) {
    check_eq(&rt, change_of(&VectorOrder, 2, 3), Relaxation);
    check_eq(&rt, change_of(&VectorOrder, 3, 2), Restriction);
    check_eq(&rt, change_of(&VectorOrder, 3, 4), Restriction);
}

#[test]
fn ladder_changes(rt: HostRuntime) {
    let order = ladder(&rt);
    check_eq(&rt, change_of(&order, 20, 30), Relaxation);
    check_eq(&rt, change_of(&order, 30, 30), Relaxation);
    check_eq(&rt, change_of(&order, 30, 20), Restriction);
}
