// What is printed of a set-up file and a tape: `R` and a number and nothing else where something is refused, and else the day and what its stores hold.
use crate::check::check_eq;
use depot_day::run_depot;
use std::alloc::Global;
use std::process::Abort;

// A set-up file, and what is printed.
type Printed = (&'static str, &'static str);

fn check_printed(rt: &impl Abort, heap: Global, tape: &[u8], rows: &[Printed]) {
    for (file, expected) in rows {
        let printed = run_depot(heap, file.as_bytes(), tape).expect(rt, "a set-up file");
        check_eq(
            rt,
            (*file, printed.as_slice()),
            (*file, expected.as_bytes()),
        );
    }
}

// A threshold of 101, logs with no place, a table of 65 numbers.
#[test]
fn what_cannot_be_made_is_refused(rt: HostRuntime) {
    static ROWS: &[Printed] = &[
        (
            "order ladder 10 20 101\ncells slice 0\nrights slice 25\npolicy 1 cell 0\n",
            "R 17\n",
        ),
        (
            "order vector\ncells log 0 5\nrights slice 6\npolicy 1 cell 0\n",
            "R 18\n",
        ),
        (
            "order vector\ncells table 0 0 0 0 0 0 0 0 0 0 0 0 0 0 0 0 0 0 0 0 0 0 0 0 0 0 0 0 0 0 0 0 0 0 0 0 0 0 0 0 0 0 0 0 0 0 0 0 0 0 0 0 0 0 0 0 0 0 0 0 0 0 0 0 0\nrights slice 6\npolicy 1 cell 0\n",
            "R 14\n",
        ),
        (
            "order vector\ncells slice 5\nrights log 0 6\npolicy 1 cell 0\n",
            "R 18\n",
        ),
    ];
    check_printed(&rt, rt.alloc(), &[], ROWS);
}

// Two rights for one policy, a policy on a cell that is not there, and 8, which is no right. No record of the tape is worked.
#[test]
fn a_set_up_is_refused(rt: HostRuntime) {
    static ROWS: &[Printed] = &[
        (
            "order vector\ncells slice 5\nrights slice 6 7\npolicy 1 cell 0\n",
            "R 15\n",
        ),
        (
            "order vector\ncells table 5\nrights slice 6\npolicy 1 cell 1\n",
            "R 15\n",
        ),
        (
            "order vector\ncells log 1 5\nrights table 8\npolicy 1 cell 0\n",
            "R 16\n",
        ),
    ];
    check_printed(&rt, rt.alloc(), &[1, 0, 2, 0, 1], ROWS);
}

// The order comes first, then the cells, the rights and the set-up.
#[test]
fn the_first_refusal_is_printed(rt: HostRuntime) {
    static ROWS: &[Printed] = &[
        (
            "order ladder 0 20 30\ncells log 0 5\nrights slice 101\n",
            "R 17\n",
        ),
        (
            "order vector\ncells log 0 5\nrights slice 8\npolicy 1 cell 9\n",
            "R 18\n",
        ),
        (
            "order vector\ncells slice 5\nrights log 0 8\npolicy 1 cell 9\n",
            "R 18\n",
        ),
        (
            "order vector\ncells slice 5\nrights slice 8\npolicy 1 cell 9\n",
            "R 15\n",
        ),
    ];
    check_printed(&rt, rt.alloc(), &[], ROWS);
}

// One open is worked. Then the tape has one byte of a second record, which begins at byte 5: fault 9.
#[test]
fn the_stores_are_printed_after_a_fault(rt: HostRuntime) {
    static ROWS: &[Printed] = &[(
        "order vector\ncells log 2 5 9\nrights table 6\npolicy 1 cell 0\n",
        "G 1\nF 9 2 5\ncells 5 9\nrights 6\n",
    )];
    check_printed(&rt, rt.alloc(), &[1, 0, 2, 0, 1, 6], ROWS);
}
