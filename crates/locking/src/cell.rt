// Who holds which lock on a cell.
ghost use Rattle.std.specs.Prelude.{[], ◌∷◌};
ghost use Rattle.locking.specs.Modes.{cell_says};
ghost use Rattle.locking.specs.CellLocks.{cell_holds, CellCompatible, no_cell};
ghost use Rattle.locking.specs.CellLaws.{cell_one_proof, each_cell_mode, cell_one_mode, cell_one_holder, no_cell_held, no_cell_fits};
ghost use Rattle.locking.specs.declared.mode.CellMode.TheVariants.{ReadCell, WriteCell};

use crate::holder::{NOBODY, beside, holder_set, holder_without, mask_with, mask_without};
use crate::locks::Locks;
use crate::mode::{CellMode, LockAnswer};
use crate::row::LockRow;
use crate::slot::SlotIndex;
use crate::slot_set::SlotSet;
use LockAnswer::{Compatible, Conflict};

// A row of the table of locks, of which there are 256, so it is plain numbers and takes four bytes. 16 for the writer is nobody.
#[derive(Clone, Copy, PartialEq, Eq, Debug)]
pub struct CellRow {
    pub readers: u16,
    pub writer: u8,
}

pub type CellLocks = Locks<CellRow>;

const MODES: [CellMode; 2] = [CellMode::ReadCell, CellMode::WriteCell];

// By the held mode, then the asked one. Each kind of row has a table of its own, since it has modes of its own.
const ANSWERS: [[LockAnswer; 2]; 2] = [[Compatible, Conflict], [Conflict, Conflict]];

impl LockRow for CellRow {
    type Mode = CellMode;

    ghost modes = { ReadCell ∷ WriteCell ∷ [] };

    ghost says = { cell_says };

    ghost holds = { cell_holds };

    ghost compatible = { CellCompatible };

    ghost one_proof = { cell_one_proof };

    ghost none = { no_cell };

    ghost each_mode = { each_cell_mode };

    ghost one_mode = { cell_one_mode };

    ghost one_holder = { cell_one_holder };

    ghost none_held = { no_cell_held };

    ghost none_fits = { no_cell_fits };

    fn none() -> CellRow {
        CellRow {
            readers: 0,
            writer: NOBODY,
        }
    }

    fn modes() -> &'static [CellMode] {
        &MODES
    }

    fn answer(held: CellMode, asked: CellMode) -> LockAnswer {
        ANSWERS[held as usize][asked as usize]
    }

    fn is_compatible(self) -> bool {
        self.writer <= NOBODY && beside(self.writer, SlotSet::from_mask(self.readers))
    }

    fn holders(self, mode: CellMode) -> SlotSet {
        match mode {
            CellMode::ReadCell => SlotSet::from_mask(self.readers),
            CellMode::WriteCell => holder_set(self.writer),
        }
    }

    fn without(self, gone: SlotSet) -> CellRow {
        CellRow {
            readers: mask_without(self.readers, gone),
            writer: holder_without(self.writer, gone),
        }
    }

    fn with(self, mode: CellMode, slot: SlotIndex) -> CellRow {
        let mut row = self;
        match mode {
            CellMode::ReadCell => row.readers = mask_with(row.readers, slot),
            CellMode::WriteCell => row.writer = slot.get() as u8,
        }
        row
    }
}
