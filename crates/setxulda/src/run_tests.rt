// A tape as a day, on lists and on logs.
ghost use Rattle.std.specs.Prelude.{◌≤◌, length};

use crate::check::check_eq;
use crate::short_day::{GUARD, LOG_TAPE, POLICIES, TAPE};
use crate::{setxulda_run_tape, setxulda_run_tape_on_logs};
use std::process::Abort;

const USED_GUARD: usize = 0xa5a5_a5a5_a5a5_a5a5;

// The lines of the day's seven answers.
const LINES: [u8; 30] = *b"G 1\nG 2\nG 0\nG 0\nG 1\nG 1\nS 2 0\n";

const NO_LINES: [u8; 0] = [];

const DOTS: [u8; 260] = [b'.'; 260];

// Dots, and after two of them these lines.
fn dots_with(lines: &[u8]) -> [u8; 260]
    requires { length lines.now ≤ 48 }
{
    let mut bytes = DOTS;
    bytes[2..2 + lines.len()].copy_from_slice(lines);
    bytes
}

// The tape on four cells and the rights 6 and 7, with so many bytes for the lines: what is answered, what then stands for the right 6, and the lines.
fn check_on_lists(
    rt: &impl Abort,
    tape: &[u8],
    room: usize,
    number: u32,
    right: u32,
    written: &[u8],
)
    requires room { room ≤ 256 }
    requires written { length written.now ≤ 48 }
{
    let thresholds: [u32; 0] = [];
    let mut cells: [u32; 6] = [GUARD, 1, 2, 3, 4, GUARD];
    let mut rights: [u32; 4] = [GUARD, 6, 7, GUARD];
    let mut lines: [u8; 260] = DOTS;
    let mut used: [usize; 3] = [USED_GUARD, 1, USED_GUARD];
    let answered: u32 = setxulda_run_tape(
        &thresholds,
        &mut cells[1..5],
        &mut rights[1..3],
        &POLICIES,
        tape,
        &mut lines[2..2 + room],
        &mut used[1],
    );
    check_eq(rt, answered, number);
    check_eq(rt, cells, [GUARD, 1, 2, 3, 4, GUARD]);
    check_eq(rt, rights, [GUARD, right, 7, GUARD]);
    check_eq(rt, lines, dots_with(written));
    check_eq(rt, used, [USED_GUARD, written.len(), USED_GUARD]);
}

// The day withdraws writing from policy 0, so that its right is 4, and writes no cell. Its tape has 45 bytes: nine times five, so 9 * 14 + 28 bytes are asked.
#[test]
fn a_day_on_lists(rt: HostRuntime) {
    check_on_lists(&rt, &TAPE, 154, 0, 4, &LINES);
}

#[test]
fn one_byte_too_few_for_the_day(rt: HostRuntime) {
    check_on_lists(&rt, &TAPE, 153, 12, 6, &NO_LINES);
}

// 43 bytes are eight whole fives, so 8 * 14 + 28 bytes are asked. The seventh record, from byte 40 on, is cut short.
#[test]
fn a_day_cut_short(rt: HostRuntime) {
    check_on_lists(
        &rt,
        &TAPE[..43],
        140,
        0,
        4,
        b"G 1\nG 2\nG 0\nG 0\nG 1\nG 1\nF 9 7 40\n",
    );
}

#[test]
fn one_byte_too_few_for_the_day_cut_short(rt: HostRuntime) {
    check_on_lists(&rt, &TAPE[..43], 139, 12, 6, &NO_LINES);
}

// A threshold of 101: nothing is run.
#[test]
fn no_day_on_lists(rt: HostRuntime) {
    let thresholds: [u32; 3] = [30, 60, 101];
    let mut cells: [u32; 6] = [GUARD, 1, 2, 3, 4, GUARD];
    let mut rights: [u32; 4] = [GUARD, 6, 7, GUARD];
    let mut lines: [u8; 260] = DOTS;
    let mut used: [usize; 3] = [USED_GUARD, 1, USED_GUARD];
    let number: u32 = setxulda_run_tape(
        &thresholds,
        &mut cells[1..5],
        &mut rights[1..3],
        &POLICIES,
        &TAPE,
        &mut lines[2..156],
        &mut used[1],
    );
    check_eq(&rt, number, 17);
    check_eq(&rt, cells, [GUARD, 1, 2, 3, 4, GUARD]);
    check_eq(&rt, rights, [GUARD, 6, 7, GUARD]);
    check_eq(&rt, lines, DOTS);
    check_eq(&rt, used, [USED_GUARD, 0, USED_GUARD]);
}

// Four numbers, 0 each, and one free place, between two bytes on each side.
const CELLS_LOG: [u8; 29] = *b"\xa5\xa5\
    \x00\x00\x00\x00\x00\x00\x00\x00\x00\x00\x00\x00\x00\x00\x00\x00\
    \x00\x00\x00\x00\x00\x00\x00\x00\x00\xa5\xa5";

// The numbers 6 and 7, and one free place.
const RIGHTS_LOG: [u8; 21] = *b"\xa5\xa5\
    \x00\x00\x00\x06\x00\x00\x00\x07\
    \x00\x00\x00\x00\x00\x00\x00\x00\x00\xa5\xa5";

// The day on that log of cells and this of rights: what is answered, the bytes of the rights' log then, and the lines.
fn check_on_logs(
    rt: &impl Abort,
    rights_log: [u8; 21],
    room: usize,
    number: u32,
    rights_after: [u8; 21],
    written: &[u8],
)
    requires room { room ≤ 256 }
    requires written { length written.now ≤ 48 }
{
    let thresholds: [u32; 0] = [];
    let mut cells: [u8; 29] = CELLS_LOG;
    let cell_count: usize = 4;
    let mut rights: [u8; 21] = rights_log;
    let right_count: usize = 2;
    let mut lines: [u8; 260] = DOTS;
    let mut used: [usize; 3] = [USED_GUARD, 1, USED_GUARD];
    let answered: u32 = setxulda_run_tape_on_logs(
        &thresholds,
        &mut cells[2..27],
        cell_count,
        &mut rights[2..19],
        right_count,
        &POLICIES,
        &TAPE,
        &mut lines[2..2 + room],
        &mut used[1],
    );
    check_eq(rt, answered, number);
    check_eq(rt, cells, CELLS_LOG);
    check_eq(rt, rights, rights_after);
    check_eq(rt, lines, dots_with(written));
    check_eq(rt, used, [USED_GUARD, written.len(), USED_GUARD]);
}

// The day writes one number: the place then has the field of position 0 and value 4.
#[test]
fn a_day_on_logs(rt: HostRuntime) {
    let rights_after: [u8; 21] = *b"\xa5\xa5\
        \x00\x00\x00\x06\x00\x00\x00\x07\
        \x43\x00\x06\x00\x00\x00\x00\x00\x04\xa5\xa5";
    check_on_logs(&rt, RIGHTS_LOG, 154, 0, rights_after, &LINES);
}

#[test]
fn one_byte_too_few_on_logs(rt: HostRuntime) {
    check_on_logs(&rt, RIGHTS_LOG, 153, 12, RIGHTS_LOG, &NO_LINES);
}

// The rights' first place has tag 1, which is neither free nor a field's: nothing is run.
#[test]
fn no_day_on_logs(rt: HostRuntime) {
    let damaged: [u8; 21] = *b"\xa5\xa5\
        \x00\x00\x00\x06\x00\x00\x00\x07\
        \x01\x00\x00\x00\x00\x00\x00\x00\x00\xa5\xa5";
    check_on_logs(&rt, damaged, 154, 18, damaged, &NO_LINES);
}

// Three commits on two logs without a free place. The first writes 25 to cell 0: the cells' list 1, 2, 3, 10 goes into the base, the field into the first place,
// and the tag of the second becomes 0. The second commit writes 2 to right 0: the rights' list 6, 7 goes into the base, the field into the only place. The third
// writes 26 to cell 0, into the second place.
#[test]
fn checkpoints_on_both_logs(rt: HostRuntime) {
    let thresholds: [u32; 0] = [];
    let mut cells: [u8; 38] = *b"\xa5\xa5\
        \x00\x00\x00\x01\x00\x00\x00\x02\x00\x00\x00\x03\x00\x00\x00\x04\
        \x43\x00\x06\x00\x03\x00\x00\x00\x09\
        \x43\x00\x06\x00\x03\x00\x00\x00\x0a\xa5\xa5";
    let cells_after: [u8; 38] = *b"\xa5\xa5\
        \x00\x00\x00\x01\x00\x00\x00\x02\x00\x00\x00\x03\x00\x00\x00\x0a\
        \x43\x00\x06\x00\x00\x00\x00\x00\x19\
        \x43\x00\x06\x00\x00\x00\x00\x00\x1a\xa5\xa5";
    let cell_count: usize = 4;
    let mut rights: [u8; 21] = *b"\xa5\xa5\
        \x00\x00\x00\x06\x00\x00\x00\x05\
        \x43\x00\x06\x00\x01\x00\x00\x00\x07\xa5\xa5";
    let rights_after: [u8; 21] = *b"\xa5\xa5\
        \x00\x00\x00\x06\x00\x00\x00\x07\
        \x43\x00\x06\x00\x00\x00\x00\x00\x02\xa5\xa5";
    let right_count: usize = 2;
    let mut lines: [u8; 260] = DOTS;
    let mut used: [usize; 3] = [USED_GUARD, 1, USED_GUARD];
    let number: u32 = setxulda_run_tape_on_logs(
        &thresholds,
        &mut cells[2..36],
        cell_count,
        &mut rights[2..19],
        right_count,
        &POLICIES,
        &LOG_TAPE,
        &mut lines[2..258],
        &mut used[1],
    );
    check_eq(&rt, number, 0);
    check_eq(&rt, cells, cells_after);
    check_eq(&rt, rights, rights_after);
    check_eq(
        &rt,
        lines,
        dots_with(b"G 1\nG 0\nG 0\nG 1\nG 2\nG 0\nG 0\nG 2\nG 3\nG 0\nG 0\nG 3\n"),
    );
    check_eq(&rt, used, [USED_GUARD, 48, USED_GUARD]);
}
