// The limits of cells, transactions and changes.
use crate::check::check_eq;
use crate::steps::Call::{Commit, Deploy, GiveUp, Open, Read, Set, Show, Write};
use crate::steps::{Step, check_store, day_on, follow, on_cell, on_policy, work};
use engine::Engine;
use protocol::Answer::{Granted, Refused, Wait};
use protocol::Refusal::{
    Absent, NoFreeSlot, NoSuchTransaction, NotPermitted, TooMany, TooManyChanges, TooManyOpened,
};
use protocol::{Answer, Policy, Refusal};
use rights::VectorOrder;
use std::array;
use stores::TableStore;

// Cell 254 is there and has no policy; cell 256 is not there, which comes first.
#[test]
fn cell_255_is_the_last_of_256(rt: HostRuntime) {
    static STEPS: &[Step] = &[
        (Open(1), Granted(1)),
        (Deploy(1, 0), Granted(0)),
        (Read(1, 255), Granted(77)),
        (Read(1, 254), Refused(NotPermitted)),
        (Read(1, 256), Refused(Absent)),
        (Write(1, 256, 1), Refused(Absent)),
        (Write(1, 255, 78), Granted(0)),
        (Commit(1), Granted(1)),
    ];
    let mut cells = [0; 256];
    cells[255] = 77;
    work(&rt, &mut cells, &mut [6], &[on_cell(1, 255)], STEPS);
    check_eq(&rt, (cells[254], cells[255]), (0, 78));
}

// Subject 1 writes 9 to cell 0.
fn day_of_writing(
    cells: &mut [u32],
    rights: &mut [u32],
    answers: &mut [Answer],
) -> Result<usize, Refusal> {
    let requests = [
        Open(1).request(),
        Deploy(1, 0).request(),
        Write(1, 0, 9).request(),
        Commit(1).request(),
    ];
    day_on(cells, rights, &[on_cell(1, 0)], &requests, answers)
}

#[test]
fn a_day_on_256_cells_runs(rt: HostRuntime) {
    let mut cells = [5; 256];
    let mut answers = [Wait(9); 4];
    check_eq(
        &rt,
        day_of_writing(&mut cells, &mut [7], &mut answers),
        Ok(4),
    );
    check_eq(&rt, (cells[0], cells[1]), (9, 5));
    check_eq(
        &rt,
        answers,
        [Granted(1), Granted(0), Granted(0), Granted(1)],
    );
}

#[test]
fn a_day_on_257_cells_is_refused(rt: HostRuntime) {
    let mut cells = [5; 257];
    let mut rights = [7];
    let mut answers = [Wait(9); 4];
    check_eq(
        &rt,
        day_of_writing(&mut cells, &mut rights, &mut answers),
        Err(TooMany),
    );
    check_eq(&rt, cells, [5; 257]);
    check_eq(&rt, rights, [7]);
    check_eq(&rt, answers, [Wait(9); 4]);
}

// Set-up refuses 257 cells, so there is no slot, and no number is a transaction's.
#[test]
fn an_engine_on_257_cells_has_no_slot(rt: HostRuntime) {
    static STEPS: &[Step] = &[
        (Open(1), Refused(NoFreeSlot)),
        (Deploy(1, 0), Refused(NoSuchTransaction)),
        (Read(1, 0), Refused(NoSuchTransaction)),
        (Write(1, 0, 9), Refused(NoSuchTransaction)),
        (Show(1, 0), Refused(NoSuchTransaction)),
        (Set(1, 0, 4), Refused(NoSuchTransaction)),
        (Commit(1), Refused(NoSuchTransaction)),
        (GiveUp(1), Refused(NoSuchTransaction)),
        (GiveUp(0), Refused(NoSuchTransaction)),
        (Open(1), Refused(NoFreeSlot)),
    ];
    let mut cells = [5; 257];
    let mut rights = [7];
    work(&rt, &mut cells, &mut rights, &[on_cell(1, 0)], STEPS);
    check_eq(&rt, cells, [5; 257]);
    check_eq(&rt, rights, [7]);
}

// A refused open takes no number, so that the next one granted is 17.
#[test]
fn sixteen_transactions_at_once(rt: HostRuntime) {
    static STEPS: &[Step] = &[
        (Open(1), Granted(1)),
        (Open(1), Granted(2)),
        (Open(1), Granted(3)),
        (Open(1), Granted(4)),
        (Open(1), Granted(5)),
        (Open(1), Granted(6)),
        (Open(1), Granted(7)),
        (Open(1), Granted(8)),
        (Open(1), Granted(9)),
        (Open(1), Granted(10)),
        (Open(1), Granted(11)),
        (Open(1), Granted(12)),
        (Open(1), Granted(13)),
        (Open(1), Granted(14)),
        (Open(1), Granted(15)),
        (Open(1), Granted(16)),
        (Open(1), Refused(NoFreeSlot)),
        (GiveUp(5), Granted(0)),
        (Open(1), Granted(17)),
        (Open(1), Refused(NoFreeSlot)),
        (Commit(16), Granted(1)),
        (Open(1), Granted(18)),
        (Open(1), Refused(NoFreeSlot)),
        (GiveUp(5), Refused(NoSuchTransaction)),
        (GiveUp(16), Refused(NoSuchTransaction)),
    ];
    work(&rt, &mut [0], &mut [6], &[on_cell(1, 0)], STEPS);
}

// 49,984 transactions end. The last 16, up to number 50,000, stay open, so that no slot is free either: that too many were opened comes first, and stays where a slot
// is free again.
#[test]
fn fifty_thousand_transactions_in_a_day(rt: HostRuntime) {
    static STEPS: &[Step] = &[
        (Open(1), Granted(49985)),
        (Open(1), Granted(49986)),
        (Open(1), Granted(49987)),
        (Open(1), Granted(49988)),
        (Open(1), Granted(49989)),
        (Open(1), Granted(49990)),
        (Open(1), Granted(49991)),
        (Open(1), Granted(49992)),
        (Open(1), Granted(49993)),
        (Open(1), Granted(49994)),
        (Open(1), Granted(49995)),
        (Open(1), Granted(49996)),
        (Open(1), Granted(49997)),
        (Open(1), Granted(49998)),
        (Open(1), Granted(49999)),
        (Open(1), Granted(50000)),
        (Open(1), Refused(TooManyOpened)),
        (GiveUp(49984), Refused(NoSuchTransaction)),
        (Deploy(50000, 0), Granted(0)),
        (GiveUp(50000), Granted(0)),
        (Open(1), Refused(TooManyOpened)),
        (Deploy(49985, 0), Granted(0)),
    ];
    let mut cells = TableStore::new(&[0]);
    let mut rights = TableStore::new(&[6]);
    let policies = [on_cell(1, 0)];
    let mut engine = Engine::new(&mut cells, &mut rights, &VectorOrder, &policies);
    for number in 1..49985u16 {
        check_eq(&rt, engine.open(1), Granted(u32::from(number)));
        check_eq(&rt, engine.give_up(number), Granted(0));
    }
    follow(&rt, &mut engine, STEPS);
}

// Policy i is subject 1's, on cell i.
fn on_17_cells() -> [Policy; 17] {
    array::from_fn(|cell| on_cell(1, cell as u16))
}

// Transaction 1 deploys policies 0 to 16, and writes 10 to cells 0 to 14.
static FIFTEEN_CELLS: &[Step] = &[
    (Open(1), Granted(1)),
    (Deploy(1, 0), Granted(0)),
    (Deploy(1, 1), Granted(0)),
    (Deploy(1, 2), Granted(0)),
    (Deploy(1, 3), Granted(0)),
    (Deploy(1, 4), Granted(0)),
    (Deploy(1, 5), Granted(0)),
    (Deploy(1, 6), Granted(0)),
    (Deploy(1, 7), Granted(0)),
    (Deploy(1, 8), Granted(0)),
    (Deploy(1, 9), Granted(0)),
    (Deploy(1, 10), Granted(0)),
    (Deploy(1, 11), Granted(0)),
    (Deploy(1, 12), Granted(0)),
    (Deploy(1, 13), Granted(0)),
    (Deploy(1, 14), Granted(0)),
    (Deploy(1, 15), Granted(0)),
    (Deploy(1, 16), Granted(0)),
    (Write(1, 0, 10), Granted(0)),
    (Write(1, 1, 10), Granted(0)),
    (Write(1, 2, 10), Granted(0)),
    (Write(1, 3, 10), Granted(0)),
    (Write(1, 4, 10), Granted(0)),
    (Write(1, 5, 10), Granted(0)),
    (Write(1, 6, 10), Granted(0)),
    (Write(1, 7, 10), Granted(0)),
    (Write(1, 8, 10), Granted(0)),
    (Write(1, 9, 10), Granted(0)),
    (Write(1, 10, 10), Granted(0)),
    (Write(1, 11, 10), Granted(0)),
    (Write(1, 12, 10), Granted(0)),
    (Write(1, 13, 10), Granted(0)),
    (Write(1, 14, 10), Granted(0)),
];

// Cells 0 to 15 get 10, and cell 3 then 99. Cell 16 is not written.
#[test]
fn a_workspace_takes_sixteen_changes(rt: HostRuntime) {
    static STEPS: &[Step] = &[
        (Write(1, 15, 10), Granted(0)),
        (Write(1, 16, 26), Refused(TooManyChanges)),
        (Write(1, 3, 99), Granted(0)),
        (Write(1, 16, 26), Refused(TooManyChanges)),
        (Read(1, 16), Granted(5)),
        (Read(1, 3), Granted(99)),
        (Commit(1), Granted(1)),
    ];
    let mut cells = TableStore::new(&[5; 17]);
    let mut rights = TableStore::new(&[6; 17]);
    let policies = on_17_cells();
    let mut engine = Engine::new(&mut cells, &mut rights, &VectorOrder, &policies);
    follow(&rt, &mut engine, FIFTEEN_CELLS);
    follow(&rt, &mut engine, STEPS);
    let mut expected = [10; 17];
    expected[3] = 99;
    expected[16] = 5;
    check_store(&rt, &cells, &expected);
}

// 15 cells and a right are 16 changes. Cell 15 has a policy, and too many changes come before wait: transaction 2 has locked it. Cell 16 has none: no permission comes
// before too many changes. A second change of the right still fits.
#[test]
fn a_right_is_a_change_too(rt: HostRuntime) {
    static STEPS: &[Step] = &[
        (Set(1, 0, 6), Granted(0)),
        (Open(1), Granted(2)),
        (Deploy(2, 15), Granted(0)),
        (Write(2, 15, 2), Granted(0)),
        (Write(1, 15, 1), Refused(TooManyChanges)),
        (Write(1, 16, 1), Refused(NotPermitted)),
        (Set(1, 0, 7), Granted(0)),
        (Commit(1), Granted(1)),
        (GiveUp(2), Granted(0)),
    ];
    let mut cells = TableStore::new(&[5; 17]);
    let mut rights = TableStore::new(&[6; 17]);
    let mut policies = on_17_cells();
    policies[16] = on_policy(1, 0);
    let mut engine = Engine::new(&mut cells, &mut rights, &VectorOrder, &policies);
    follow(&rt, &mut engine, FIFTEEN_CELLS);
    follow(&rt, &mut engine, STEPS);
    let mut expected = [10; 17];
    expected[15] = 5;
    expected[16] = 5;
    check_store(&rt, &cells, &expected);
    let mut expected = [6; 17];
    expected[0] = 7;
    check_store(&rt, &rights, &expected);
}
