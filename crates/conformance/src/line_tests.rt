// Lines byte by byte: what writing makes, and what it leaves.
use crate::check::check_eq;
use lines::{write_answer_line, write_fault_line, write_lines};
use protocol::Answer;
use protocol::Answer::{Aborted, Granted, Refused, Wait};
use protocol::Refusal::ExceedsBuffer;
use records::FaultValues;
use std::process::Abort;

// Writes the answer's line into sixteen dots.
fn says(rt: &impl Abort, answer: Answer, len: usize, text: [u8; 16]) {
    let mut buffer = [b'.'; 16];
    check_eq(rt, write_answer_line(answer, &mut buffer), Ok(len));
    check_eq(rt, buffer, text);
}

#[test]
fn lines_with_one_number(rt: HostRuntime) {
    says(&rt, Granted(0), 4, *b"G 0\n............");
    says(&rt, Granted(1), 4, *b"G 1\n............");
    says(&rt, Granted(10), 5, *b"G 10\n...........");
    says(&rt, Granted(4294967295), 13, *b"G 4294967295\n...");
    says(&rt, Wait(7), 4, *b"W 7\n............");
    says(&rt, Refused(ExceedsBuffer), 5, *b"R 12\n...........");
}

#[test]
fn lines_with_two_numbers(rt: HostRuntime) {
    let struck = Aborted { by: 2, policy: 0 };
    says(&rt, struck, 6, *b"S 2 0\n..........");
    let struck = Aborted {
        by: 65535,
        policy: 65535,
    };
    says(&rt, struck, 14, *b"S 65535 65535\n..");
}

// The fault of a tape whose second record, at byte 5, has an unknown tag.
#[test]
fn a_fault_has_a_line(rt: HostRuntime) {
    let values = FaultValues {
        fault: 10,
        number: 2,
        start: 5,
    };
    let mut short = *b"........";
    check_eq(
        &rt,
        write_fault_line(values, &mut short),
        Err(ExceedsBuffer),
    );
    check_eq(&rt, short, *b"........");
    let mut enough = *b".........";
    check_eq(&rt, write_fault_line(values, &mut enough), Ok(9));
    check_eq(&rt, enough, *b"F 10 2 5\n");
}

#[test]
fn a_line_that_exceeds_the_buffer_is_not_written(rt: HostRuntime) {
    let mut short = *b"...";
    check_eq(
        &rt,
        write_answer_line(Granted(1), &mut short),
        Err(ExceedsBuffer),
    );
    check_eq(&rt, short, *b"...");
    let mut enough = *b"....";
    check_eq(&rt, write_answer_line(Granted(1), &mut enough), Ok(4));
    check_eq(&rt, enough, *b"G 1\n");
}

// Lines of 5, 4 and 4 bytes: the last three bytes of 16 stay, 13 are just enough, and 12 take none of them.
#[test]
fn lines_are_written_whole_or_not_at_all(rt: HostRuntime) {
    let answers = [Granted(10), Wait(7), Granted(3)];
    let mut buffer = *b"................";
    check_eq(&rt, write_lines(&answers, &mut buffer), Ok(13));
    check_eq(&rt, buffer, *b"G 10\nW 7\nG 3\n...");
    let mut enough = *b".............";
    check_eq(&rt, write_lines(&answers, &mut enough), Ok(13));
    check_eq(&rt, enough, *b"G 10\nW 7\nG 3\n");
    let mut short = *b"............";
    check_eq(&rt, write_lines(&answers, &mut short), Err(ExceedsBuffer));
    check_eq(&rt, short, *b"............");
}

// The first line alone would fit, and so would the third where the second does not.
#[test]
fn a_long_line_among_short_ones(rt: HostRuntime) {
    let answers = [Granted(1), Granted(4294967295), Wait(7)];
    let mut short = *b"................";
    check_eq(&rt, write_lines(&answers, &mut short), Err(ExceedsBuffer));
    check_eq(&rt, short, *b"................");
    check_eq(&rt, write_lines(&[], &mut []), Ok(0));
}
