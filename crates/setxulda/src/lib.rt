// The engine for programs in C. include/setxulda.h declares the same functions, and says in words what each answers. Each is the function of `c_calls` of that name. C
// passes a pointer and a length for each slice. Nothing compares this file with the header but the tests here, which have the header's types.
#![tactic(auto)]

ghost use Rattle.std.specs.Prelude.{◌≡◌, ◌≢◌};
ghost use Rattle.log_store.specs.Log.{holds_log, log_check, log_read};
ghost use Rattle.c_calls.specs.Faults.{TellsTape};
ghost use Rattle.c_calls.specs.Numbers.{number_of, value_or};
ghost use Rattle.c_calls.specs.Policies.{policies_of};
ghost use Rattle.c_calls.specs.Setups.{setup_by, setup_on_logs, check_by};
ghost use Rattle.c_calls.specs.Runs.{lists, lists_wrote, lists_on_logs, logs_wrote, RunsInC};

#[cfg(test)]
mod check;
#[cfg(test)]
mod log_tests;
#[cfg(test)]
mod run_tests;
#[cfg(test)]
mod setup_tests;
#[cfg(test)]
mod short_day;
#[cfg(test)]
mod tape_tests;

use c_calls::PolicyEntry;

/// Whether a day can begin.
#[unsafe(no_mangle)]
pub extern "C" fn setxulda_check_setup(
    thresholds: &[u32],
    cells: &mut [u32],
    rights: &mut [u32],
    policies: &[PolicyEntry],
) -> u32
    ensures number { result ≡ number_of
        (check_by (setup_by thresholds.now (policies_of policies.now)) cells.old rights.old) }
    ensures cells_stay { cells.new ≡ cells.old }
    ensures rights_stay { rights.new ≡ rights.old }
{
    c_calls::check_setup(thresholds, cells, rights, policies)
}

/// Whether a tape is sound, and where its first fault stands.
#[unsafe(no_mangle)]
pub extern "C" fn setxulda_check_tape(tape: &[u8], number: &mut u32, first_byte: &mut u32) -> u32
    ensures { TellsTape tape.now (record { fault = result; number = number.new; start = first_byte.new }) }
{
    c_calls::check_tape(tape, number, first_byte)
}

/// Whether bytes hold a log.
#[unsafe(no_mangle)]
pub extern "C" fn setxulda_check_log(log: &[u8], count: usize) -> u32
    ensures { result ≡ number_of (log_check count log.now) }
{
    c_calls::check_log(log, count)
}

/// A number of a log.
#[unsafe(no_mangle)]
pub extern "C" fn setxulda_read_log(log: &[u8], count: usize, at: usize, value: &mut u32) -> u32
    ensures number { result ≡ number_of (log_read count log.now at) }
    ensures value { value.new ≡ value_or value.old (log_read count log.now at) }
{
    c_calls::read_log(log, count, at, value)
}

/// A tape as a day on two lists of numbers.
#[unsafe(no_mangle)]
pub extern "C" fn setxulda_run_tape(
    thresholds: &[u32],
    cells: &mut [u32],
    rights: &mut [u32],
    policies: &[PolicyEntry],
    tape: &[u8],
    lines: &mut [u8],
    lines_used: &mut usize,
) -> u32
    ensures runs { RunsInC (setup_by thresholds.now (policies_of policies.now))
        (lists cells.old rights.old) (lists cells.new rights.new)
        (lists_wrote (lists cells.old rights.old) (lists cells.new rights.new))
        tape.now lines.old lines.new result lines_used.new }
    ensures untouched { result ≢ 0 →
        (cells.new ≡ cells.old) × (rights.new ≡ rights.old) × (lines.new ≡ lines.old) }
{
    c_calls::run_tape(thresholds, cells, rights, policies, tape, lines, lines_used)
}

/// A tape as a day on two logs.
#[unsafe(no_mangle)]
pub extern "C" fn setxulda_run_tape_on_logs(
    thresholds: &[u32],
    cells_log: &mut [u8],
    cell_count: usize,
    rights_log: &mut [u8],
    right_count: usize,
    policies: &[PolicyEntry],
    tape: &[u8],
    lines: &mut [u8],
    lines_used: &mut usize,
) -> u32
    ensures runs { RunsInC
        (setup_on_logs thresholds.now (policies_of policies.now) cell_count cells_log.old right_count rights_log.old)
        (lists_on_logs cell_count cells_log.old right_count rights_log.old)
        (lists_on_logs cell_count cells_log.new right_count rights_log.new)
        (logs_wrote cell_count cells_log.old cells_log.new right_count rights_log.old rights_log.new)
        tape.now lines.old lines.new result lines_used.new }
    ensures cells_sound { holds_log cell_count cells_log.new ≡ holds_log cell_count cells_log.old }
    ensures rights_sound { holds_log right_count rights_log.new ≡ holds_log right_count rights_log.old }
    ensures untouched { result ≢ 0 →
        (cells_log.new ≡ cells_log.old) × (rights_log.new ≡ rights_log.old) × (lines.new ≡ lines.old) }
{
    c_calls::run_tape_on_logs(
        thresholds,
        cells_log,
        cell_count,
        rights_log,
        right_count,
        policies,
        tape,
        lines,
        lines_used,
    )
}
