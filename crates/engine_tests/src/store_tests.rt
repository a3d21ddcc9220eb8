// One day with every kind of answer, on all pairs of stores and under both orders.
use crate::check::check_eq;
use crate::steps::Call::{Commit, Deploy, GiveUp, Open, Read, Set, Show, Write};
use crate::steps::{Step, check_store, follow, on_cell, on_policy, work, work_on};
use engine::Engine;
use log_store::LogStore;
use protocol::Answer::{Aborted, Granted, Refused, Wait};
use protocol::Policy;
use protocol::Refusal::{
    Absent, NoSuchTransaction, NotARight, NotPermitted, OtherSubject, TooManyChanges,
};
use rights::{LadderOrder, RightsOrder, VectorOrder};
use std::array;
use std::process::Abort;
use stores::{SliceStore, Store, TableStore};

// The cells at the start of the day.
static CELLS_BEFORE: [u32; 20] = [10, 20, 1, 1, 1, 1, 1, 1, 1, 1, 1, 1, 1, 1, 1, 1, 1, 1, 1, 1];

// At the end subject 2 has written cell 0, subject 1 cell 1, and subject 4 the cells 3 to 18, with 203 to 218.
static CELLS_AFTER: [u32; 20] = [
    12, 9, 1, 203, 204, 205, 206, 207, 208, 209, 210, 211, 212, 213, 214, 215, 216, 217, 218, 1,
];

// Only 4, 6 and 7 are used. They permit operation 0, operations 0 and 1, and all three. Of two of these, one contains the other, and the larger number is their join. So
// a ladder with thresholds 4, 6 and 7 permits and joins alike.
static RIGHTS_BEFORE: [u32; 22] = [
    6, 4, 6, 6, 7, 6, 6, 6, 6, 6, 6, 6, 6, 6, 6, 6, 6, 6, 6, 6, 6, 6,
];

// At the end policy 0 is restricted to 4, and policy 1 relaxed to 6.
static RIGHTS_AFTER: [u32; 22] = [
    4, 6, 6, 6, 7, 6, 6, 6, 6, 6, 6, 6, 6, 6, 6, 6, 6, 6, 6, 6, 6, 6,
];

// Policies 5 to 21 are subject 4's, on cells 3 to 19.
fn policies() -> [Policy; 22] {
    array::from_fn(|policy| match policy {
        0 => on_cell(1, 0),
        1 => on_cell(1, 1),
        2 => on_cell(2, 0),
        3 => on_policy(9, 1),
        4 => on_policy(9, 0),
        _ => on_cell(4, (policy - 2) as u16),
    })
}

// Subject 1 reads, and subject 2 waits for it. Subject 9 relaxes policy 1, which holds from its commit.
static MORNING: &[Step] = &[
    (Open(1), Granted(1)),
    (Open(2), Granted(2)),
    (Open(9), Granted(3)),
    (Read(4, 0), Refused(NoSuchTransaction)),
    (Deploy(1, 0), Granted(0)),
    (Deploy(1, 1), Granted(0)),
    (Deploy(1, 2), Refused(OtherSubject)),
    (Deploy(1, 22), Refused(Absent)),
    (Deploy(2, 2), Granted(0)),
    (Read(1, 0), Granted(10)),
    (Write(2, 0, 5), Wait(1)),
    (Write(1, 1, 9), Refused(NotPermitted)),
    (Deploy(3, 3), Granted(0)),
    (Set(3, 1, 101), Refused(NotARight)),
    (Set(3, 1, 6), Granted(0)),
    (Write(1, 1, 9), Refused(NotPermitted)),
    (Commit(3), Granted(1)),
    (Write(1, 1, 9), Granted(0)),
    (Write(1, 0, 11), Granted(0)),
    (Read(1, 0), Granted(11)),
    (Read(2, 0), Wait(1)),
    (Commit(1), Granted(2)),
    (Read(2, 0), Granted(11)),
];

// Subject 9 restricts policy 0, which strikes transaction 5.
static NOON: &[Step] = &[
    (Open(9), Granted(4)),
    (Deploy(4, 4), Granted(0)),
    (Show(4, 0), Granted(6)),
    (Open(1), Granted(5)),
    (Deploy(5, 0), Granted(0)),
    (Set(4, 0, 4), Granted(1)),
    (Show(4, 0), Granted(4)),
    (Read(5, 0), Aborted { by: 4, policy: 0 }),
    (Write(2, 0, 12), Granted(0)),
    (Commit(4), Granted(3)),
    (GiveUp(5), Aborted { by: 4, policy: 0 }),
    (Commit(2), Granted(4)),
    (Commit(5), Refused(NoSuchTransaction)),
];

// Subject 4 makes 16 changes, and asks for one more.
static EVENING: &[Step] = &[
    (Open(4), Granted(6)),
    (Deploy(6, 5), Granted(0)),
    (Deploy(6, 6), Granted(0)),
    (Deploy(6, 7), Granted(0)),
    (Deploy(6, 8), Granted(0)),
    (Deploy(6, 9), Granted(0)),
    (Deploy(6, 10), Granted(0)),
    (Deploy(6, 11), Granted(0)),
    (Deploy(6, 12), Granted(0)),
    (Deploy(6, 13), Granted(0)),
    (Deploy(6, 14), Granted(0)),
    (Deploy(6, 15), Granted(0)),
    (Deploy(6, 16), Granted(0)),
    (Deploy(6, 17), Granted(0)),
    (Deploy(6, 18), Granted(0)),
    (Deploy(6, 19), Granted(0)),
    (Deploy(6, 20), Granted(0)),
    (Deploy(6, 21), Granted(0)),
    (Write(6, 3, 203), Granted(0)),
    (Write(6, 4, 204), Granted(0)),
    (Write(6, 5, 205), Granted(0)),
    (Write(6, 6, 206), Granted(0)),
    (Write(6, 7, 207), Granted(0)),
    (Write(6, 8, 208), Granted(0)),
    (Write(6, 9, 209), Granted(0)),
    (Write(6, 10, 210), Granted(0)),
    (Write(6, 11, 211), Granted(0)),
    (Write(6, 12, 212), Granted(0)),
    (Write(6, 13, 213), Granted(0)),
    (Write(6, 14, 214), Granted(0)),
    (Write(6, 15, 215), Granted(0)),
    (Write(6, 16, 216), Granted(0)),
    (Write(6, 17, 217), Granted(0)),
    (Write(6, 18, 218), Granted(0)),
    (Write(6, 19, 219), Refused(TooManyChanges)),
    (Commit(6), Granted(5)),
];

// The whole day, held to its answers and to what it leaves.
fn day<C: Store, R: Store, O: RightsOrder>(
    rt: &impl Abort,
    cells: &mut C,
    rights: &mut R,
    order: &O,
) {
    let policies = policies();
    let mut engine = Engine::new(cells, rights, order, &policies);
    follow(rt, &mut engine, MORNING);
    follow(rt, &mut engine, NOON);
    follow(rt, &mut engine, EVENING);
    check_store(rt, cells, &CELLS_AFTER);
    check_store(rt, rights, &RIGHTS_AFTER);
}

// A log store with these numbers, on bytes that are all 0.
fn log_with<'a>(rt: &impl Abort, bytes: &'a mut [u8], numbers: &[u32]) -> LogStore<'a> {
    let mut store = LogStore::new(bytes, numbers.len());
    for (at, number) in numbers.iter().enumerate() {
        check_eq(rt, store.write(at, *number), Ok(()));
    }
    store
}

// The day on three stores of the cells, beside the rights in a store of each make. 22 rights take 88 bytes, and four places 36, so that filling the log makes
// checkpoints.
fn day_beside_each_make<C: Store, O: RightsOrder>(
    rt: &impl Abort,
    order: &O,
    first: &mut C,
    second: &mut C,
    third: &mut C,
) {
    day(rt, first, &mut TableStore::new(&RIGHTS_BEFORE), order);
    let mut rights = RIGHTS_BEFORE;
    day(rt, second, &mut SliceStore::new(&mut rights), order);
    check_eq(rt, rights, RIGHTS_AFTER);
    let mut bytes = [0; 124];
    day(
        rt,
        third,
        &mut log_with(rt, &mut bytes, &RIGHTS_BEFORE),
        order,
    );
}

// The cells in tables. One function for each make of store, since each is made and compared in its own way.
fn day_on_tables<O: RightsOrder>(rt: &impl Abort, order: &O) {
    let mut first = TableStore::new(&CELLS_BEFORE);
    let mut second = TableStore::new(&CELLS_BEFORE);
    let mut third = TableStore::new(&CELLS_BEFORE);
    day_beside_each_make(rt, order, &mut first, &mut second, &mut third);
}

fn day_on_slices<O: RightsOrder>(rt: &impl Abort, order: &O) {
    let [mut first, mut second, mut third] = [CELLS_BEFORE; 3];
    day_beside_each_make(
        rt,
        order,
        &mut SliceStore::new(&mut first),
        &mut SliceStore::new(&mut second),
        &mut SliceStore::new(&mut third),
    );
    check_eq(rt, [first, second, third], [CELLS_AFTER; 3]);
}

// 20 cells take 80 bytes. There are 20 writes before the day and 2 + 1 + 16 in it. With one place each but the first makes a checkpoint, with two every second from the
// third on, and with 23 the 24th alone.
fn day_on_logs<O: RightsOrder>(rt: &impl Abort, order: &O) {
    let (mut one_place, mut two_places, mut many_places) = ([0; 89], [0; 98], [0; 287]);
    day_beside_each_make(
        rt,
        order,
        &mut log_with(rt, &mut one_place, &CELLS_BEFORE),
        &mut log_with(rt, &mut two_places, &CELLS_BEFORE),
        &mut log_with(rt, &mut many_places, &CELLS_BEFORE),
    );
}

#[test]
fn the_day_on_tables(rt: HostRuntime) {
    day_on_tables(&rt, &VectorOrder);
}

#[test]
fn the_day_on_slices(rt: HostRuntime) {
    day_on_slices(&rt, &VectorOrder);
}

#[test]
fn the_day_on_logs(rt: HostRuntime) {
    day_on_logs(&rt, &VectorOrder);
}

#[test]
fn the_day_under_a_ladder(rt: HostRuntime) {
    let ladder = LadderOrder::new(4, 6, 7).expect(&rt, "three thresholds");
    day_on_tables(&rt, &ladder);
    day_on_slices(&rt, &ladder);
    day_on_logs(&rt, &ladder);
}

// From 1 to 6 the vector restricts, since they join to 7, and the ladder relaxes. Right 6 permits both orders to relax and neither to restrict.
#[test]
fn where_the_orders_differ(rt: HostRuntime) {
    static UNDER_THE_VECTOR: &[Step] = &[
        (Open(9), Granted(1)),
        (Deploy(1, 1), Granted(0)),
        (Set(1, 0, 6), Refused(NotPermitted)),
    ];
    static UNDER_THE_LADDER: &[Step] = &[
        (Open(9), Granted(1)),
        (Deploy(1, 1), Granted(0)),
        (Set(1, 0, 6), Granted(0)),
    ];
    let policies = [on_cell(1, 0), on_policy(9, 0)];
    work(&rt, &mut [0], &mut [1, 6], &policies, UNDER_THE_VECTOR);
    let mut cells = TableStore::new(&[0]);
    let mut rights = TableStore::new(&[1, 6]);
    let ladder = LadderOrder::new(4, 6, 7).expect(&rt, "three thresholds");
    work_on(
        &rt,
        &mut cells,
        &mut rights,
        &ladder,
        &policies,
        UNDER_THE_LADDER,
    );
}
