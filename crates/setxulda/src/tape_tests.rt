// Whether a tape is sound, and where its first fault stands.
use crate::check::check_eq;
use crate::setxulda_check_tape;
use crate::short_day::{GUARD, TAPE};
use std::process::Abort;

// The fault, the number of its record and that record's first byte.
fn check_fault(rt: &impl Abort, tape: &[u8], expected: (u32, u32, u32)) {
    let mut record: [u32; 3] = [GUARD, 77, GUARD];
    let mut first_byte: [u32; 3] = [GUARD, 78, GUARD];
    let fault: u32 = setxulda_check_tape(tape, &mut record[1], &mut first_byte[1]);
    check_eq(rt, fault, expected.0);
    check_eq(rt, record, [GUARD, expected.1, GUARD]);
    check_eq(rt, first_byte, [GUARD, expected.2, GUARD]);
}

#[test]
fn the_tape_of_the_day_is_sound(rt: HostRuntime) {
    check_fault(&rt, &TAPE, (0, 0, 0));
}

// An open of 5 bytes, and a second record whose tag is 9; the same cut short; and with length 3 in place of 2.
#[test]
fn the_second_record_has_a_fault(rt: HostRuntime) {
    let unknown: [u8; 8] = [1, 0, 2, 0, 1, 9, 0, 0];
    let short: [u8; 9] = [1, 0, 2, 0, 1, 1, 0, 2, 0];
    let longer: [u8; 11] = [1, 0, 2, 0, 1, 1, 0, 3, 0, 1, 0];
    check_fault(&rt, &unknown, (10, 2, 5));
    check_fault(&rt, &short, (9, 2, 5));
    check_fault(&rt, &longer, (11, 2, 5));
}
