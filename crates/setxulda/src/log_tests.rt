// Logs: base numbers of four bytes, the high byte first, and places of nine bytes, of which a free one has tag 0.
use crate::check::check_eq;
use crate::short_day::GUARD;
use crate::{setxulda_check_log, setxulda_read_log};
use std::process::Abort;

// The numbers 6 and 7, and one free place.
const LOG: [u8; 17] = *b"\
    \x00\x00\x00\x06\
    \x00\x00\x00\x07\
    \x00\x00\x00\x00\x00\x00\x00\x00\x00";

// Three numbers and a place take 21 bytes.
#[test]
fn a_log_of_two_numbers(rt: HostRuntime) {
    let two: usize = 2;
    let three: usize = 3;
    let sound: u32 = setxulda_check_log(&LOG, two);
    let refused: u32 = setxulda_check_log(&LOG, three);
    check_eq(&rt, (sound, refused), (0, 18));
}

// What is answered, and what then stands where 77 stood.
fn check_read(rt: &impl Abort, count: usize, at: usize, expected: (u32, u32)) {
    let mut value: [u32; 3] = [GUARD, 77, GUARD];
    let number: u32 = setxulda_read_log(&LOG, count, at, &mut value[1]);
    check_eq(rt, number, expected.0);
    check_eq(rt, value, [GUARD, expected.1, GUARD]);
}

#[test]
fn both_numbers_of_a_log(rt: HostRuntime) {
    check_read(&rt, 2, 0, (0, 6));
    check_read(&rt, 2, 1, (0, 7));
}

// No log of three numbers, and no position 2 of two.
#[test]
fn a_refused_read_stores_nothing(rt: HostRuntime) {
    check_read(&rt, 3, 0, (18, 77));
    check_read(&rt, 2, 2, (4, 77));
}
