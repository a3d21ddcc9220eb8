// The calls: each answers a number, 0 or why it refuses, and hands what else there is out through its parameters. include/setxulda.h says in words what each answers.
ghost use Rattle.std.specs.Prelude.{◌≡◌, ◌≢◌};
ghost use Rattle.log_store.specs.Log.{holds_log, log_check, log_read};
ghost use Rattle.c_calls.specs.Faults.{TellsTape};
ghost use Rattle.c_calls.specs.Numbers.{number_of, value_or};
ghost use Rattle.c_calls.specs.Policies.{policies_of};
ghost use Rattle.c_calls.specs.Setups.{setup_by, setup_on_logs, check_by};
ghost use Rattle.c_calls.specs.Runs.{lists, lists_wrote, lists_on_logs, logs_wrote, RunsInC};

use crate::check::check_by;
use crate::fault::fault_of;
use crate::number::{answer, refusal_number, told};
use crate::policy::PolicyEntry;
use crate::run::{run_on_logs, run_on_slices};
use log_store::LogStore;
use stores::SliceStore;

/// Whether a day can begin on these cells, rights and policies, by the order of the thresholds: the vector order without any, the ladder with three. Changes nothing.
/// Refuses thresholds of neither order (17), and then what set-up refuses (14, 15, 16).
pub fn check_setup(
    thresholds: &[u32],
    cells: &mut [u32],
    rights: &mut [u32],
    policies: &[PolicyEntry],
) -> u32
    ensures number { result ≡ number_of
        (check_by (setup_by thresholds.now (policies_of policies.now)) cells.old rights.old) }
    ensures cells_stay { cells.new ≡ cells.old }
    ensures rights_stay { rights.new ≡ rights.old }
{
    let cell_store = SliceStore::new(cells);
    let right_store = SliceStore::new(rights);
    answer(check_by(thresholds, &cell_store, &right_store, policies))
}

/// The tape's first fault, with the number of its record, from 1, and that record's first byte, from 0. All three are 0 where the tape is sound.
pub fn check_tape(tape: &[u8], number: &mut u32, first_byte: &mut u32) -> u32
    ensures { TellsTape tape.now (record { fault = result; number = number.new; start = first_byte.new }) }
{
    let told = fault_of(tape);
    *number = told.number;
    *first_byte = told.start;
    u32::from(told.fault)
}

/// Refuses bytes that hold no log of `count` numbers (18).
pub fn check_log(log: &[u8], count: usize) -> u32
    ensures { result ≡ number_of (log_check count log.now) }
{
    answer(LogStore::check(log, count))
}

/// Reads the number at the position `at`, from 0, of a log of `count` numbers. Refuses bytes that hold no such log (18) and a position past its end (4), and leaves the
/// value as it was.
pub fn read_log(log: &[u8], count: usize, at: usize, value: &mut u32) -> u32
    ensures number { result ≡ number_of (log_read count log.now at) }
    ensures value { value.new ≡ value_or value.old (log_read count log.now at) }
{
    match LogStore::number_at(log, count, at) {
        Ok(number) => {
            *value = number;
            0
        }
        Err(refusal) => refusal_number(refusal),
    }
}

/// Runs a tape as a day on two lists of numbers, in place, and writes the lines of its answers to the first `lines_used` bytes of `lines`; later bytes stay.
/// Refuses what `check_setup` refuses, and then, with 12, a buffer that has no room for the longest lines that the tape could have, as `tape::run_tape` does.
/// Refused, `lines_used` is 0, and nothing else has changed.
pub fn run_tape(
    thresholds: &[u32],
    cells: &mut [u32],
    rights: &mut [u32],
    policies: &[PolicyEntry],
    tape: &[u8],
    lines: &mut [u8],
    lines_used: &mut usize,
) -> u32
    ensures runs { RunsInC (setup_by thresholds.now (policies_of policies.now))
        (lists cells.old rights.old) (lists cells.new rights.new)
        (lists_wrote (lists cells.old rights.old) (lists cells.new rights.new))
        tape.now lines.old lines.new result lines_used.new }
    ensures untouched { result ≢ 0 →
        (cells.new ≡ cells.old) × (rights.new ≡ rights.old) × (lines.new ≡ lines.old) }
{
    let ran = run_on_slices(thresholds, cells, rights, policies, tape, lines);
    told(ran, lines_used)
}

/// The same on two logs, of `cell_count` and `right_count` numbers. After the thresholds it refuses bytes that hold no such log (18). A sound log stays sound; each
/// commit writes its transaction's changes to the two, and nothing else writes to them.
pub fn run_tape_on_logs(
    thresholds: &[u32],
    cells_log: &mut [u8],
    cell_count: usize,
    rights_log: &mut [u8],
    right_count: usize,
    policies: &[PolicyEntry],
    tape: &[u8],
    lines: &mut [u8],
    lines_used: &mut usize,
) -> u32
    ensures runs { RunsInC
        (setup_on_logs thresholds.now (policies_of policies.now) cell_count cells_log.old right_count rights_log.old)
        (lists_on_logs cell_count cells_log.old right_count rights_log.old)
        (lists_on_logs cell_count cells_log.new right_count rights_log.new)
        (logs_wrote cell_count cells_log.old cells_log.new right_count rights_log.old rights_log.new)
        tape.now lines.old lines.new result lines_used.new }
    ensures cells_sound { holds_log cell_count cells_log.new ≡ holds_log cell_count cells_log.old }
    ensures rights_sound { holds_log right_count rights_log.new ≡ holds_log right_count rights_log.old }
    ensures untouched { result ≢ 0 →
        (cells_log.new ≡ cells_log.old) × (rights_log.new ≡ rights_log.old) × (lines.new ≡ lines.old) }
{
    let ran = run_on_logs(
        thresholds,
        cells_log,
        cell_count,
        rights_log,
        right_count,
        policies,
        tape,
        lines,
    );
    told(ran, lines_used)
}
