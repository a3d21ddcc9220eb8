// Whether a day can begin.
use crate::check::check_eq;
use crate::setxulda_check_setup;
use crate::short_day::{GUARD, POLICIES};
use c_calls::PolicyEntry;
use std::process::Abort;

// Four cells, and these rights. They stay, whatever is answered.
fn check_answer(
    rt: &impl Abort,
    thresholds: &[u32],
    second_right: u32,
    policies: &[PolicyEntry],
    expected: u32,
) {
    let mut cells: [u32; 6] = [GUARD, 1, 2, 3, 4, GUARD];
    let mut rights: [u32; 4] = [GUARD, 6, second_right, GUARD];
    let number: u32 = setxulda_check_setup(
        thresholds,
        &mut cells[1..5],
        &mut rights[1..3],
        policies,
    );
    check_eq(rt, number, expected);
    check_eq(rt, cells, [GUARD, 1, 2, 3, 4, GUARD]);
    check_eq(rt, rights, [GUARD, 6, second_right, GUARD]);
}

#[test]
fn a_day_can_begin(rt: HostRuntime) {
    check_answer(&rt, &[], 7, &POLICIES, 0);
}

// 8 is a right of the ladder.
#[test]
fn a_day_can_begin_on_a_ladder(rt: HostRuntime) {
    check_answer(&rt, &[30, 60, 100], 8, &POLICIES, 0);
}

// Two thresholds, a threshold of 101, a right of 8 in the vector order.
#[test]
fn no_order_has_them(rt: HostRuntime) {
    check_answer(&rt, &[30, 60], 7, &POLICIES, 17);
    check_answer(&rt, &[30, 60, 101], 7, &POLICIES, 17);
    check_answer(&rt, &[], 8, &POLICIES, 16);
}

// No kind 7, no cell 4 of 4, and no policy 2 of 2; a policy is for each right.
#[test]
fn no_object_has_the_policy(rt: HostRuntime) {
    let mut policies: [PolicyEntry; 2] = POLICIES;
    policies[1] = PolicyEntry {
        subject: 9,
        kind: 7,
        number: 0,
    };
    check_answer(&rt, &[], 7, &policies, 15);
    policies[1] = PolicyEntry {
        subject: 9,
        kind: 0,
        number: 4,
    };
    check_answer(&rt, &[], 7, &policies, 15);
    policies[1] = PolicyEntry {
        subject: 9,
        kind: 1,
        number: 2,
    };
    check_answer(&rt, &[], 7, &policies, 15);
    check_answer(&rt, &[], 7, &policies[0..1], 15);
}

// Three numbers of two bytes take six (`c_calls`), so that these stand at the bytes 0, 2 and 4.
#[test]
fn an_entry_has_its_numbers_in_the_order_of_the_header(rt: HostRuntime) {
    let entry = PolicyEntry {
        subject: 1,
        kind: 2,
        number: 3,
    };
    let shown = format!(in rt.alloc(); "{entry:?}").expect(&rt, "memory");
    check_eq(
        &rt,
        shown.as_str(),
        "PolicyEntry { subject: 1, kind: 2, number: 3 }",
    );
}
