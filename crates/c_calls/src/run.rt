// A tape run on two stores.
ghost use Rattle.std.specs.Prelude.{◌≡◌, true};
ghost use Rattle.engine.specs.Stores.{lists_of, Lent, Wrote};
ghost use Rattle.engine.specs.Beginning.{setup_with};
ghost use Rattle.log_store.specs.Log.{holds_log};
ghost use Rattle.tape.specs.Runs.{RunsTape};
ghost use Rattle.c_calls.specs.Policies.{policies_of};
ghost use Rattle.c_calls.specs.Setups.{setup_by, setup_on_logs};
ghost use Rattle.c_calls.specs.Runs.{lists, lists_wrote, lists_on_logs, logs_wrote, RunsBy};

use crate::check::check_logs;
use crate::policy::{PolicyEntry, PolicyList};
use log_store::LogStore;
use protocol::Refusal;
use rights::{LadderOrder, RightsOrder, VectorOrder};
use stores::{SliceStore, Store};
use tape::run_tape;

// On any two stores, by an order of one's own.
fn run_entries<C: Store, R: Store, O: RightsOrder>(
    order: &O,
    cells: &mut C,
    rights: &mut R,
    entries: &[PolicyEntry],
    tape: &[u8],
    lines: &mut [u8],
) -> Result<usize, Refusal>
    ensures runs { RunsTape (setup_with O.RightsOrder order.now (policies_of entries.now))
        (lists_of C.Store R.Store cells.old rights.old) (lists_of C.Store R.Store cells.new rights.new)
        (Wrote C.Store R.Store cells.old rights.old cells.new rights.new) tape.now lines.old lines.new result }
    ensures lent { Lent C.Store R.Store cells.old rights.old cells.new rights.new }
{
    let policies = PolicyList::new(entries)?;
    run_tape(tape, cells, rights, order, policies.as_slice(), lines)
}

// By the order of the thresholds. Two arms, since each order is a type of its own.
fn run_by<C: Store, R: Store>(
    thresholds: &[u32],
    cells: &mut C,
    rights: &mut R,
    entries: &[PolicyEntry],
    tape: &[u8],
    lines: &mut [u8],
) -> Result<usize, Refusal>
    ensures runs { RunsBy (setup_by thresholds.now (policies_of entries.now))
        (lists_of C.Store R.Store cells.old rights.old) (lists_of C.Store R.Store cells.new rights.new)
        (Wrote C.Store R.Store cells.old rights.old cells.new rights.new) tape.now lines.old lines.new result }
    ensures lent { Lent C.Store R.Store cells.old rights.old cells.new rights.new }
{
    match thresholds {
        [] => run_entries(&VectorOrder, cells, rights, entries, tape, lines),
        [read, write, restrict] => {
            let order = LadderOrder::new(*read, *write, *restrict)?;
            run_entries(&order, cells, rights, entries, tape, lines)
        }
        _ => Err(Refusal::BadThreshold),
    }
}

// On two lists of numbers, in place.
pub(crate) fn run_on_slices(
    thresholds: &[u32],
    cells: &mut [u32],
    rights: &mut [u32],
    entries: &[PolicyEntry],
    tape: &[u8],
    lines: &mut [u8],
) -> Result<usize, Refusal>
    ensures { RunsBy (setup_by thresholds.now (policies_of entries.now))
        (lists cells.old rights.old) (lists cells.new rights.new)
        (lists_wrote (lists cells.old rights.old) (lists cells.new rights.new)) tape.now lines.old lines.new result }
{
    let mut cell_store = SliceStore::new(cells);
    let mut right_store = SliceStore::new(rights);
    run_by(
        thresholds,
        &mut cell_store,
        &mut right_store,
        entries,
        tape,
        lines,
    )
}

// On two logs that were checked.
fn run_on_sound_logs(
    thresholds: &[u32],
    cells: &mut [u8],
    cell_count: usize,
    rights: &mut [u8],
    right_count: usize,
    entries: &[PolicyEntry],
    tape: &[u8],
    lines: &mut [u8],
) -> Result<usize, Refusal>
    requires cells { holds_log cell_count cells.old ≡ true }
    requires rights { holds_log right_count rights.old ≡ true }
    ensures { RunsBy (setup_by thresholds.now (policies_of entries.now))
        (lists_on_logs cell_count cells.old right_count rights.old)
        (lists_on_logs cell_count cells.new right_count rights.new)
        (logs_wrote cell_count cells.old cells.new right_count rights.old rights.new)
        tape.now lines.old lines.new result }
{
    let mut cell_store = LogStore::new(cells, cell_count);
    let mut right_store = LogStore::new(rights, right_count);
    run_by(
        thresholds,
        &mut cell_store,
        &mut right_store,
        entries,
        tape,
        lines,
    )
}

// On two logs: what is refused of them, before the day's own set-up, changes no byte.
pub(crate) fn run_on_logs(
    thresholds: &[u32],
    cells: &mut [u8],
    cell_count: usize,
    rights: &mut [u8],
    right_count: usize,
    entries: &[PolicyEntry],
    tape: &[u8],
    lines: &mut [u8],
) -> Result<usize, Refusal>
    ensures runs { RunsBy
        (setup_on_logs thresholds.now (policies_of entries.now) cell_count cells.old right_count rights.old)
        (lists_on_logs cell_count cells.old right_count rights.old)
        (lists_on_logs cell_count cells.new right_count rights.new)
        (logs_wrote cell_count cells.old cells.new right_count rights.old rights.new)
        tape.now lines.old lines.new result }
    ensures cells_sound { holds_log cell_count cells.new ≡ holds_log cell_count cells.old }
    ensures rights_sound { holds_log right_count rights.new ≡ holds_log right_count rights.old }
{
    check_logs(thresholds, cells, cell_count, rights, right_count)?;
    run_on_sound_logs(
        thresholds,
        cells,
        cell_count,
        rights,
        right_count,
        entries,
        tape,
        lines,
    )
}
