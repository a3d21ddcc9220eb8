// The short day of the rules, as a list of requests: its answers, its lines and what it leaves.
use crate::check::check_eq;
use crate::steps::Call::{Commit, Deploy, Open, Set};
use crate::steps::{day_on, on_cell, on_policy};
use lines::write_lines;
use protocol::Answer::{Aborted, Granted, Wait};
use protocol::{Answer, Refusal};

// Subject 1 may read and write cell 0, and subject 9 may do all with that policy.
fn short_day(
    cells: &mut [u32],
    rights: &mut [u32],
    answers: &mut [Answer],
) -> Result<usize, Refusal> {
    let policies = [on_cell(1, 0), on_policy(9, 0)];
    let requests = [
        Open(1).request(),
        Open(9).request(),
        Deploy(1, 0).request(),
        Deploy(2, 1).request(),
        Set(2, 0, 4).request(),
        Commit(2).request(),
        Commit(1).request(),
    ];
    day_on(cells, rights, &policies, &requests, answers)
}

// 6 to 4 joins to 6, which is not 4: the set restricts, and strikes the one that deployed policy 0.
#[test]
fn the_short_day(rt: HostRuntime) {
    let mut cells = [0; 4];
    let mut rights = [6, 7];
    let mut answers = [Wait(0); 7];
    check_eq(&rt, short_day(&mut cells, &mut rights, &mut answers), Ok(7));
    let expected = [
        Granted(1),
        Granted(2),
        Granted(0),
        Granted(0),
        Granted(1),
        Granted(1),
        Aborted { by: 2, policy: 0 },
    ];
    check_eq(&rt, answers, expected);
    check_eq(&rt, cells, [0; 4]);
    check_eq(&rt, rights, [4, 7]);
}

// Six lines of 4 bytes and one of 6; the last two bytes stay.
#[test]
fn the_lines_of_the_short_day(rt: HostRuntime) {
    let mut answers = [Wait(0); 7];
    check_eq(
        &rt,
        short_day(&mut [0; 4], &mut [6, 7], &mut answers),
        Ok(7),
    );
    let mut text = [b'.'; 32];
    check_eq(&rt, write_lines(&answers, &mut text), Ok(30));
    check_eq(&rt, text, *b"G 1\nG 2\nG 0\nG 0\nG 1\nG 1\nS 2 0\n..");
}

// With places for five answers neither commit is made, so nothing is stored.
#[test]
fn as_many_requests_as_places(rt: HostRuntime) {
    let mut rights = [6, 7];
    let mut answers = [Wait(0); 5];
    check_eq(
        &rt,
        short_day(&mut [0; 4], &mut rights, &mut answers),
        Ok(5),
    );
    check_eq(&rt, answers[4], Granted(1));
    check_eq(&rt, rights, [6, 7]);
}

// The eighth place is not answered.
#[test]
fn more_places_than_requests(rt: HostRuntime) {
    let mut rights = [6, 7];
    let mut answers = [Wait(0); 8];
    check_eq(
        &rt,
        short_day(&mut [0; 4], &mut rights, &mut answers),
        Ok(7),
    );
    check_eq(&rt, answers[6], Aborted { by: 2, policy: 0 });
    check_eq(&rt, answers[7], Wait(0));
    check_eq(&rt, rights, [4, 7]);
}
