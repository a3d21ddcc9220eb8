// The table and the slice at their limits.
use crate::check::check_eq;
use protocol::Refusal::{Absent, TooMany};
use stores::{SliceStore, Store, TableStore};

#[test]
fn a_table_has_room_for_64(rt: HostRuntime) {
    let numbers = [7; 65];
    check_eq(&rt, TableStore::check(&numbers[0..64]), Ok(()));
    check_eq(&rt, TableStore::check(&numbers), Err(TooMany));
    check_eq(&rt, TableStore::new(&numbers[0..64]).size(), 64);
    check_eq(&rt, TableStore::new(&numbers).size(), 0);
}

#[test]
fn a_table_is_a_copy(rt: HostRuntime) {
    let numbers = [10, 20, 30];
    let mut table = TableStore::new(&numbers);
    check_eq(&rt, table.write(2, 31), Ok(()));
    check_eq(&rt, table.read(0), Ok(10));
    check_eq(&rt, table.read(2), Ok(31));
    check_eq(&rt, numbers[2], 30);
    check_eq(&rt, table.read(3), Err(Absent));
    check_eq(&rt, table.write(3, 1), Err(Absent));
    check_eq(&rt, table.size(), 3);
}

#[test]
fn a_slice_is_the_callers_buffer(rt: HostRuntime) {
    let mut numbers = [10, 20, 30];
    let mut slice = SliceStore::new(&mut numbers);
    check_eq(&rt, slice.write(1, 4294967295), Ok(()));
    check_eq(&rt, slice.write(3, 1), Err(Absent));
    check_eq(&rt, slice.read(3), Err(Absent));
    check_eq(&rt, slice.read(2), Ok(30));
    check_eq(&rt, slice.size(), 3);
    check_eq(&rt, numbers[1], 4294967295);
}

#[test]
fn an_empty_slice_has_no_position(rt: HostRuntime) {
    let mut none: [u32; 0] = [];
    let slice = SliceStore::new(&mut none);
    check_eq(&rt, slice.read(0), Err(Absent));
}
