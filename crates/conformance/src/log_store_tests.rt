// A log store on lent bytes: which bytes are refused, what they mean, and what a write leaves of them.
use crate::check::check_eq;
use log_store::LogStore;
use protocol::Refusal::{Absent, BadLog};
use stores::Store;

// 256 numbers and one place take 4 * 256 + 9 = 1033 bytes, and 257 would take 1037.
#[test]
fn at_most_256_numbers(rt: HostRuntime) {
    let bytes = [0; 1037];
    check_eq(&rt, LogStore::check(&bytes[0..1033], 256), Ok(()));
    check_eq(&rt, LogStore::check(&bytes, 257), Err(BadLog));
}

// 2 numbers and one place take 4 * 2 + 9 = 17 bytes.
#[test]
fn room_for_one_place(rt: HostRuntime) {
    let bytes = [0; 17];
    check_eq(&rt, LogStore::check(&bytes, 2), Ok(()));
    check_eq(&rt, LogStore::check(&bytes[0..16], 2), Err(BadLog));
}

// Base numbers 1 and 2, and a field in the only place. A position of 2 numbers is 0 or 1.
#[test]
fn used_places_are_fields(rt: HostRuntime) {
    let last = [0, 0, 0, 1, 0, 0, 0, 2, 0x43, 0, 6, 0, 1, 0, 0, 0, 9];
    let past = [0, 0, 0, 1, 0, 0, 0, 2, 0x43, 0, 6, 0, 2, 0, 0, 0, 9];
    let other_tag = [0, 0, 0, 1, 0, 0, 0, 2, 0x44, 0, 6, 0, 1, 0, 0, 0, 9];
    let other_length = [0, 0, 0, 1, 0, 0, 0, 2, 0x43, 0, 5, 0, 1, 0, 0, 0, 9];
    check_eq(&rt, LogStore::check(&last, 2), Ok(()));
    check_eq(&rt, LogStore::check(&past, 2), Err(BadLog));
    check_eq(&rt, LogStore::check(&other_tag, 2), Err(BadLog));
    check_eq(&rt, LogStore::check(&other_length, 2), Err(BadLog));
}

// Behind the field of position 0 and value 0x0102_0304 there are 8 bytes: no place, though they begin as a field does.
#[test]
fn eight_bytes_are_no_place(rt: HostRuntime) {
    let mut bytes = *b"\x00\x00\x00\x01\
        \x43\x00\x06\x00\x00\x01\x02\x03\x04\
        \x43\x00\x06\x00\x00\x09\x09\x09";
    check_eq(&rt, LogStore::check(&bytes, 1), Ok(()));
    let store = LogStore::new(&mut bytes, 1);
    check_eq(&rt, store.size(), 1);
    check_eq(&rt, store.read(0), Ok(0x0102_0304));
}

// The first place is free, with bytes 0xaa behind its tag. The field goes there: tag 43, length 0006, position 0000, value 0a0b0c0d. The second place gets tag 00,
// and its other bytes stay 0xbb.
#[test]
fn a_write_ends_the_log_at_the_next_place(rt: HostRuntime) {
    let mut bytes = *b"\x01\x02\x03\x04\
        \x00\xaa\xaa\xaa\xaa\xaa\xaa\xaa\xaa\
        \xbb\xbb\xbb\xbb\xbb\xbb\xbb\xbb\xbb";
    let after = *b"\x01\x02\x03\x04\
        \x43\x00\x06\x00\x00\x0a\x0b\x0c\x0d\
        \x00\xbb\xbb\xbb\xbb\xbb\xbb\xbb\xbb";
    let mut store = LogStore::new(&mut bytes, 1);
    check_eq(&rt, store.read(0), Ok(0x0102_0304));
    check_eq(&rt, store.write(0, 0x0a0b_0c0d), Ok(()));
    check_eq(&rt, store.read(0), Ok(0x0a0b_0c0d));
    check_eq(&rt, bytes, after);
}

// Behind the only place there are 8 bytes, which no write reaches. 258 is 0x0102.
#[test]
fn a_write_into_the_last_place(rt: HostRuntime) {
    let mut bytes = *b"\x00\x00\x00\x01\
        \x00\x00\x00\x00\x00\x00\x00\x00\x00\
        \xee\xee\xee\xee\xee\xee\xee\xee";
    let after = *b"\x00\x00\x00\x01\
        \x43\x00\x06\x00\x00\x00\x00\x01\x02\
        \xee\xee\xee\xee\xee\xee\xee\xee";
    let mut store = LogStore::new(&mut bytes, 1);
    check_eq(&rt, store.write(0, 258), Ok(()));
    check_eq(&rt, bytes, after);
}

// Base numbers 1 and 2, and two fields of position 1: the last has the value 256, so the numbers are 1 and 256. Both places are used, so a write first copies 1 and
// 256 into the base. Then it fills the first place, with position 0 and value 3, and sets the tag of the second to 00. The other bytes of the second place stay.
#[test]
fn a_write_to_a_full_log_makes_a_checkpoint(rt: HostRuntime) {
    let mut bytes = *b"\x00\x00\x00\x01\x00\x00\x00\x02\
        \x43\x00\x06\x00\x01\x00\x00\x00\x05\
        \x43\x00\x06\x00\x01\x00\x00\x01\x00";
    let after = *b"\x00\x00\x00\x01\x00\x00\x01\x00\
        \x43\x00\x06\x00\x00\x00\x00\x00\x03\
        \x00\x00\x06\x00\x01\x00\x00\x01\x00";
    let mut store = LogStore::new(&mut bytes, 2);
    check_eq(&rt, store.read(1), Ok(256));
    check_eq(&rt, store.write(0, 3), Ok(()));
    check_eq(&rt, store.read(0), Ok(3));
    check_eq(&rt, store.read(1), Ok(256));
    check_eq(&rt, bytes, after);
}

// Two numbers have the positions 0 and 1. A refused write changes no byte.
#[test]
fn no_position_past_the_size(rt: HostRuntime) {
    let mut bytes = [0; 17];
    let mut store = LogStore::new(&mut bytes, 2);
    check_eq(&rt, store.size(), 2);
    check_eq(&rt, store.read(2), Err(Absent));
    check_eq(&rt, store.write(2, 7), Err(Absent));
    check_eq(&rt, bytes, [0; 17]);
}

// Tag 0x44: the check refuses, and a store that is made all the same has no number and changes no byte.
#[test]
fn refused_bytes_make_an_empty_store(rt: HostRuntime) {
    let before = [0, 0, 0, 1, 0x44, 0, 6, 0, 0, 0, 0, 0, 9];
    let mut bytes = before;
    check_eq(&rt, LogStore::check(&bytes, 1), Err(BadLog));
    let mut store = LogStore::new(&mut bytes, 1);
    check_eq(&rt, store.size(), 0);
    check_eq(&rt, store.read(0), Err(Absent));
    check_eq(&rt, store.write(0, 7), Err(Absent));
    check_eq(&rt, bytes, before);
}
