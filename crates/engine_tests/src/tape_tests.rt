// Tapes as days: their lines, the room that is asked of a buffer, and the bytes of two logs in the evening.
use crate::check::check_eq;
use crate::steps::{on_cell, on_policy};
use log_store::LogStore;
use protocol::Refusal;
use protocol::Refusal::{BadPolicies, BadRights, ExceedsBuffer, TooMany};
use rights::VectorOrder;
use std::alloc::Global;
use std::process::Abort;
use stores::SliceStore;
use tape::{ROOM, lines_of_tape, run_tape};

// Two cells, 5 and 7, and one free place.
static CELLS_BEFORE: [u8; 17] = *b"\x00\x00\x00\x05\x00\x00\x00\x07\
    \x00\xcc\xcc\xcc\xcc\xcc\xcc\xcc\xcc";

// Three rights, 6, 6 and 7, and two free places.
static RIGHTS_BEFORE: [u8; 30] = *b"\x00\x00\x00\x06\x00\x00\x00\x06\x00\x00\x00\x07\
    \x00\xaa\xaa\xaa\xaa\xaa\xaa\xaa\xaa\
    \xbb\xbb\xbb\xbb\xbb\xbb\xbb\xbb\xbb";

// Subject 1 has a policy on each cell, and subject 9 one on the first of these.
fn on_logs(
    tape: &[u8],
    cells: &mut [u8],
    rights: &mut [u8],
    buffer: &mut [u8],
) -> Result<usize, Refusal> {
    run_tape(
        tape,
        &mut LogStore::new(cells, 2),
        &mut LogStore::new(rights, 3),
        &VectorOrder,
        &[on_cell(1, 0), on_cell(1, 1), on_policy(9, 0)],
        buffer,
    )
}

// Each transaction opens, deploys, changes one number and commits: 5 + 7 + 11 + 5 bytes, so 84 in all, of which 16 whole fives. The first writes 0x0102_0304 to
// cell 1, the second 258 to cell 0, and the third restricts policy 0 from 6 to 4.
static THREE_COMMITS: &[u8] = b"\x01\x00\x02\x00\x01\
    \x02\x00\x04\x00\x01\x00\x01\
    \x04\x00\x08\x00\x01\x00\x01\x01\x02\x03\x04\
    \x07\x00\x02\x00\x01\
    \x01\x00\x02\x00\x01\
    \x02\x00\x04\x00\x02\x00\x00\
    \x04\x00\x08\x00\x02\x00\x00\x00\x00\x01\x02\
    \x07\x00\x02\x00\x02\
    \x01\x00\x02\x00\x09\
    \x02\x00\x04\x00\x03\x00\x02\
    \x06\x00\x08\x00\x03\x00\x00\x00\x00\x00\x04\
    \x07\x00\x02\x00\x03";

// The cells' only place is used when the second commit comes. So 5 and 0x0102_0304 are copied into the base, and the place is filled anew, with position 0 and value
// 258. The rights' first place is filled with position 0 and value 4, and the tag of the second becomes 00. Twelve lines have 48 bytes; 16 * 14 + 28 = 252 are asked.
#[test]
fn a_day_on_two_logs(rt: HostRuntime) {
    let (mut cells, mut rights) = (CELLS_BEFORE, RIGHTS_BEFORE);
    let mut buffer = [b'.'; 252];
    let ran = on_logs(THREE_COMMITS, &mut cells, &mut rights, &mut buffer);
    check_eq(&rt, ran, Ok(48));
    let lines = b"G 1\nG 0\nG 0\nG 1\nG 2\nG 0\nG 0\nG 2\nG 3\nG 0\nG 0\nG 3\n";
    check_eq(&rt, buffer.get(..48), Some(lines.as_slice()));
    check_eq(&rt, buffer.get(48..), Some([b'.'; 204].as_slice()));
    let cells_after = *b"\x00\x00\x00\x05\x01\x02\x03\x04\
        \x43\x00\x06\x00\x00\x00\x00\x01\x02";
    check_eq(&rt, cells, cells_after);
    let rights_after = *b"\x00\x00\x00\x06\x00\x00\x00\x06\x00\x00\x00\x07\
        \x43\x00\x06\x00\x00\x00\x00\x00\x04\
        \x00\xbb\xbb\xbb\xbb\xbb\xbb\xbb\xbb";
    check_eq(&rt, rights, rights_after);
}

#[test]
fn one_byte_too_few_for_the_lines(rt: HostRuntime) {
    let (mut cells, mut rights) = (CELLS_BEFORE, RIGHTS_BEFORE);
    let mut buffer = [b'.'; 251];
    let ran = on_logs(THREE_COMMITS, &mut cells, &mut rights, &mut buffer);
    check_eq(&rt, ran, Err(ExceedsBuffer));
    check_eq(&rt, buffer, [b'.'; 251]);
    check_eq(&rt, cells, CELLS_BEFORE);
    check_eq(&rt, rights, RIGHTS_BEFORE);
}

// Two transactions open and deploy policy 0, which are 24 bytes. The first writes cell 0 (11), for which the second waits (11 and 7). Cell 2 is not there (7), policy
// 2 is subject 9's (7), cell 1 is not permitted (7), and there is no transaction 9 (5). Nobody commits. The 79 bytes have 15 whole fives: 238 are asked.
static NO_COMMIT: &[u8] = b"\x01\x00\x02\x00\x01\
    \x01\x00\x02\x00\x01\
    \x02\x00\x04\x00\x01\x00\x00\
    \x02\x00\x04\x00\x02\x00\x00\
    \x04\x00\x08\x00\x01\x00\x00\x00\x00\x01\x02\
    \x04\x00\x08\x00\x02\x00\x00\x00\x00\x01\x03\
    \x03\x00\x04\x00\x02\x00\x00\
    \x03\x00\x04\x00\x01\x00\x02\
    \x02\x00\x04\x00\x01\x00\x02\
    \x03\x00\x04\x00\x01\x00\x01\
    \x07\x00\x02\x00\x09";

#[test]
fn logs_stay_where_nobody_commits(rt: HostRuntime) {
    let (mut cells, mut rights) = (CELLS_BEFORE, RIGHTS_BEFORE);
    let mut buffer = [b'.'; 238];
    let ran = on_logs(NO_COMMIT, &mut cells, &mut rights, &mut buffer);
    check_eq(&rt, ran, Ok(44));
    let lines = b"G 1\nG 2\nG 0\nG 0\nG 0\nW 1\nW 1\nR 4\nR 5\nR 6\nR 3\n.";
    check_eq(&rt, buffer.get(..45), Some(lines.as_slice()));
    check_eq(&rt, cells, CELLS_BEFORE);
    check_eq(&rt, rights, RIGHTS_BEFORE);
}

// A tape of no byte, on a policy on cell 0: 28 bytes are asked of the buffer.
fn empty_tape(cells: &mut [u32], rights: &mut [u32], buffer: &mut [u8]) -> Result<usize, Refusal> {
    run_tape(
        &[],
        &mut SliceStore::new(cells),
        &mut SliceStore::new(rights),
        &VectorOrder,
        &[on_cell(1, 0)],
        buffer,
    )
}

// 257 cells, two rights for one policy, and 8, which is no right, are refused before a buffer without room.
#[test]
fn set_up_is_refused_before_the_buffer(rt: HostRuntime) {
    let mut short = [b'.'; 27];
    let ran = empty_tape(&mut [0; 257], &mut [6], &mut short);
    check_eq(&rt, ran, Err(TooMany));
    let ran = empty_tape(&mut [0], &mut [6, 7], &mut short);
    check_eq(&rt, ran, Err(BadPolicies));
    let ran = empty_tape(&mut [0], &mut [8], &mut short);
    check_eq(&rt, ran, Err(BadRights));
    let ran = empty_tape(&mut [0], &mut [6], &mut short);
    check_eq(&rt, ran, Err(ExceedsBuffer));
    check_eq(&rt, short, [b'.'; 27]);
}

#[test]
fn an_empty_tape_prints_nothing(rt: HostRuntime) {
    let mut buffer = [b'.'; 28];
    check_eq(&rt, lines_of_tape(&[], &mut buffer), Ok(0));
    check_eq(&rt, buffer, [b'.'; 28]);
}

// Opens of 5 bytes each.
fn opens(rt: &impl Abort, heap: Global, count: usize) -> Vec<u8> {
    [1, 0, 2, 0, 1].repeat(heap, count).expect(rt, "memory")
}

fn dots(rt: &impl Abort, heap: Global, count: usize) -> Vec<u8> {
    [b'.'].repeat(heap, count).expect(rt, "memory")
}

// 60,000 bytes: 16 opens are granted, and 11,984 refused with 2. Nine lines of 4 bytes and seven of 5 are 71 bytes, and with 11,984 of 4 there are 48,007.
#[test]
fn the_longest_tape(rt: HostRuntime) {
    let tape = opens(&rt, rt.alloc(), 12_000);
    let mut buffer = dots(&rt, rt.alloc(), ROOM);
    let ran = lines_of_tape(tape.as_slice(), buffer.as_mut_slice());
    check_eq(&rt, ran, Ok(48_007));
    let granted =
        b"G 1\nG 2\nG 3\nG 4\nG 5\nG 6\nG 7\nG 8\nG 9\nG 10\nG 11\nG 12\nG 13\nG 14\nG 15\nG 16\n";
    check_eq(&rt, buffer.get(..71), Some(granted.as_slice()));
    let refused = b"R 2\n".repeat(rt.alloc(), 11_984).expect(&rt, "memory");
    check_eq(&rt, buffer.get(71..48_007), Some(refused.as_slice()));
    let rest = dots(&rt, rt.alloc(), 121_993);
    check_eq(&rt, buffer.get(48_007..), Some(rest.as_slice()));
}

// No open is made, and the one line has 9 of 170,000 bytes.
fn too_long(rt: &impl Abort, heap: Global, tape: &[u8]) {
    let mut buffer = dots(rt, heap, ROOM);
    let ran = lines_of_tape(tape, buffer.as_mut_slice());
    check_eq(rt, ran, Ok(9));
    check_eq(rt, buffer.get(..9), Some(b"F 13 0 0\n".as_slice()));
    let rest = dots(rt, heap, 169_991);
    check_eq(rt, buffer.get(9..), Some(rest.as_slice()));
}

// 60,001 bytes and 70,000.
#[test]
fn tapes_that_are_too_long(rt: HostRuntime) {
    let mut tape = opens(&rt, rt.alloc(), 12_000);
    tape.push(1).expect(&rt, "memory");
    too_long(&rt, rt.alloc(), tape.as_slice());
    let tape = opens(&rt, rt.alloc(), 14_000);
    too_long(&rt, rt.alloc(), tape.as_slice());
}
