// The report of a day: its lines, and what the two stores hold in the evening.
ghost use Rattle.std.specs.Prelude.{◌≡◌, ◌++◌, IfOk, OnOk, codes, decimal};
ghost use Rattle.protocol.specs.Refusals.{answered};
ghost use Rattle.lines.specs.Lines.{line};
ghost use Rattle.engine.specs.Stores.{lists_of};
ghost use Rattle.engine.specs.Beginning.{setup_with};
ghost use Rattle.setup.specs.Admission.{setup_check};
ghost use Rattle.setup_file.specs.SetupFiles.{setup_content};
ghost use Rattle.depot_day.specs.Making.{making_check, day_setup, morning_lists};
ghost use Rattle.depot_day.specs.Reports.{Reports, ReportsDay};

use crate::error::DayError;
use crate::making::{bytes_for, check_make, check_numbers, make_order, make_store};
use itoa::Buffer;
use protocol::Policy;
use rights::RightsOrder;
use setup_file::SetupFile;
use std::alloc::{AllocError, Global};
use stores::Store;
use tape::{ROOM, run_tape};

fn push_number(text: &mut Vec<u8>, number: u32) -> Result<(), AllocError>
    ensures { OnOk result (text.new.items ≡ text.old.items ++ (codes " " ++ decimal number)) }
{
    text.push(b' ').map_err(AllocError::from)?;
    text.extend_from_slice(Buffer::new().format(number).as_bytes())
}

// The name of a store, and the numbers that it holds, in a line.
fn push_store<S: Store>(text: &mut Vec<u8>, name: &str, store: &S) -> Result<(), AllocError>
    ensures { OnOk result (text.new.items ≡ text.old.items ++ line name.now (S.Store.list store.now)) }
{
    text.extend_from_slice(name.as_bytes())?;
    for at in 0..store.size() {
        push_number(text, store.read(at).unwrap_or(0))?;
    }
    text.push(b'\n').map_err(AllocError::from)
}

// Runs the tape on a set-up that is not refused: only memory may be wanting.
fn report_on<C: Store, R: Store, O: RightsOrder>(
    heap: Global,
    tape: &[u8],
    cells: &mut C,
    rights: &mut R,
    order: &O,
    policies: &[Policy],
) -> Result<Vec<u8>, AllocError>
    requires { setup_check (O.RightsOrder.right order.now)
        (C.Store.list cells.old) (R.Store.list rights.old) policies.now ≡ answered tt }
    ensures { IfOk result (λ text. Reports (setup_with O.RightsOrder order.now policies.now)
        (lists_of C.Store R.Store cells.old rights.old) tape.now text.items) }
{
    let mut text = vec![in heap; 0; ROOM]?;
    match run_tape(tape, cells, rights, order, policies, text.as_mut_slice()) {
        Ok(length) => text.truncate(length),
        Err(_) => unreachable(),
    }
    push_store(&mut text, "cells", cells)?;
    push_store(&mut text, "rights", rights)?;
    Ok(text)
}

/// Makes the order and the two stores of a set-up file, and runs the tape on them as a day: the lines of the answers and of the tape's fault, and then
/// what the stores hold in the evening.
///
/// Refuses, in this order, the order's thresholds (17), the cells' store and the rights' store (14 for a table of more than 64 numbers; 18 for a log of
/// more than 256, or with no place), and what set-up refuses (14, 15, 16). Memory is taken only then: want of it is told only where nothing is refused.
pub fn report_day(heap: Global, file: SetupFile, tape: &[u8]) -> Result<Vec<u8>, DayError>
    ensures { let said = setup_content file in
        ReportsDay (day_setup said) (morning_lists said) tape.now (making_check said) result }
{
    let SetupFile {
        order,
        mut cells,
        mut rights,
        policies,
    } = file;
    let order = make_order(order)?;
    check_make(cells.make, cells.numbers.as_slice())?;
    check_make(rights.make, rights.numbers.as_slice())?;
    check_numbers(
        cells.numbers.as_mut_slice(),
        rights.numbers.as_mut_slice(),
        &order,
        policies.as_slice(),
    )?;
    let mut cell_bytes = bytes_for(heap, cells.make, cells.numbers.as_slice())?;
    let mut right_bytes = bytes_for(heap, rights.make, rights.numbers.as_slice())?;
    let mut cell_store = make_store(
        cells.make,
        cells.numbers.as_mut_slice(),
        cell_bytes.as_mut_slice(),
    );
    let mut right_store = make_store(
        rights.make,
        rights.numbers.as_mut_slice(),
        right_bytes.as_mut_slice(),
    );
    let text = report_on(
        heap,
        tape,
        &mut cell_store,
        &mut right_store,
        &order,
        policies.as_slice(),
    )?;
    Ok(text)
}
