// The text of a set-up file: its items, its limits, and the first line that cannot be read.
use crate::check::check_eq;
use protocol::Object::{OfCell, OfPolicy};
use protocol::Policy;
use setup_file::Problem::{
    BadOrder, BadPolicy, BadStore, NoCells, NoItem, NoOrder, NoRights, Repeated,
};
use setup_file::{Make, OrderLine, Problem, SetupFile, SetupFileError, read_setup_file};
use std::alloc::Global;
use std::process::Abort;

// A text, the line of it that cannot be read, and why.
type Unreadable = (&'static str, usize, Problem);

// The line that cannot be read, and why; none where the text was read or there was no memory.
fn unreadable(heap: Global, text: &str) -> Option<(usize, Problem)> {
    match read_setup_file(heap, text.as_bytes()) {
        Err(SetupFileError::Unreadable { line, problem }) => Some((line, problem)),
        _ => None,
    }
}

fn check_unreadable(rt: &impl Abort, heap: Global, texts: &[Unreadable]) {
    for (text, line, problem) in texts {
        let expected = Some((*line, *problem));
        check_eq(rt, (*text, unreadable(heap, text)), (*text, expected));
    }
}

fn read(rt: &impl Abort, heap: Global, text: &[u8]) -> SetupFile {
    read_setup_file(heap, text).expect(rt, "a set-up file")
}

#[test]
fn items_in_their_places(rt: HostRuntime) {
    let file = read(
        &rt,
        rt.alloc(),
        b"order vector\ncells slice 0 0 0 25\nrights table 6 7\npolicy 1 cell 0\npolicy 9 policy 1\n",
    );
    check_eq(&rt, file.order, OrderLine::Vector);
    check_eq(&rt, file.cells.make, Make::Slice);
    check_eq(&rt, file.cells.numbers.as_slice(), [0, 0, 0, 25].as_slice());
    check_eq(&rt, file.rights.make, Make::Table);
    check_eq(&rt, file.rights.numbers.as_slice(), [6, 7].as_slice());
    check_eq(
        &rt,
        file.policies.as_slice(),
        [
            Policy {
                subject: 1,
                object: OfCell(0),
            },
            Policy {
                subject: 9,
                object: OfPolicy(1),
            },
        ]
        .as_slice(),
    );
}

// Leading zeros count for nothing, and the first number behind `log` is its places.
#[test]
fn ladders_and_logs_in_any_order(rt: HostRuntime) {
    let file = read(
        &rt,
        rt.alloc(),
        b"rights log 65535 4294967295\ncells log 3\norder ladder 0010 20 4294967295",
    );
    check_eq(
        &rt,
        file.order,
        OrderLine::Ladder {
            read: 10,
            write: 20,
            restrict: 4294967295,
        },
    );
    check_eq(&rt, file.cells.make, Make::Log { places: 3 });
    check_eq(&rt, file.cells.numbers.len(), 0);
    check_eq(&rt, file.rights.make, Make::Log { places: 65535 });
    check_eq(&rt, file.rights.numbers.as_slice(), [4294967295].as_slice());
    check_eq(&rt, file.policies.len(), 0);
}

#[test]
fn comments_blanks_and_carriage_returns(rt: HostRuntime) {
    let file = read(
        &rt,
        rt.alloc(),
        b"# order ladder 1 2 3\r\n\r\n \torder\tvector# order\r\n  cells  slice 1#2\r\nrights slice\r\n   # end\r\n",
    );
    check_eq(&rt, file.order, OrderLine::Vector);
    check_eq(&rt, file.cells.numbers.as_slice(), [1].as_slice());
    check_eq(&rt, file.rights.numbers.len(), 0);
}

#[test]
fn lines_that_are_no_items(rt: HostRuntime) {
    static TEXTS: &[Unreadable] = &[
        ("order vector\n\ncell slice 0\n", 3, NoItem),
        ("order\n", 1, BadOrder),
        ("order ladder 10 20\n", 1, BadOrder),
        ("cells 0 0\n", 1, BadStore),
        ("\nrights log\n", 2, BadStore),
        ("cells slice +5\n", 1, BadStore),
        ("policy 1 cells 0\n", 1, BadPolicy),
        ("policy 1 cell 0 0\n", 1, BadPolicy),
    ];
    check_unreadable(&rt, rt.alloc(), TEXTS);
}

#[test]
fn numbers_up_to_their_limits(rt: HostRuntime) {
    static TEXTS: &[Unreadable] = &[
        ("cells slice 4294967295", 1, NoOrder),
        ("cells slice 4294967296", 1, BadStore),
        ("cells log 65536 0", 1, BadStore),
        ("order ladder 1 2 42949672950", 1, BadOrder),
        ("policy 65535 policy 65535", 1, NoOrder),
        ("policy 65536 cell 0", 1, BadPolicy),
        ("policy 0 cell 65536", 1, BadPolicy),
    ];
    check_unreadable(&rt, rt.alloc(), TEXTS);
}

// Missing items are found behind the last line, which may be empty.
#[test]
fn items_that_are_missing(rt: HostRuntime) {
    static TEXTS: &[Unreadable] = &[
        ("", 1, NoOrder),
        ("rights slice\n", 2, NoOrder),
        ("order vector\nrights slice", 2, NoCells),
        ("order vector\ncells slice\n\n", 4, NoRights),
    ];
    check_unreadable(&rt, rt.alloc(), TEXTS);
}

#[test]
fn items_that_stand_once(rt: HostRuntime) {
    static TEXTS: &[Unreadable] = &[
        ("order vector\norder vector\nend", 2, Repeated),
        ("cells slice\n\ncells table 1\n", 3, Repeated),
        ("rights slice\nrights slice\n", 2, Repeated),
    ];
    check_unreadable(&rt, rt.alloc(), TEXTS);
}

#[test]
fn an_error_in_words(rt: HostRuntime) {
    let error = SetupFileError::Unreadable {
        line: 3,
        problem: BadPolicy,
    };
    let text = format!(in rt.alloc(); "{error}").expect(&rt, "memory");
    check_eq(
        &rt,
        text.as_str(),
        "line 3: a policy is `policy SUBJECT cell NUMBER` or `policy SUBJECT policy NUMBER`, with numbers up to 65535",
    );
}
