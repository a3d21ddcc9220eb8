// A store that owns its numbers, up to 64 of them.
ghost use Rattle.std.specs.Prelude.{◌≡◌, [], slice_set};
ghost use Rattle.protocol.specs.Refusals.{outcome};
ghost use Rattle.stores.specs.Lists.{table_check, table_of};

use crate::numbers::{read_number, write_number};
use crate::store::Store;
use arrayvec::ArrayVec;
use protocol::Refusal;

#[derive(Drop)]
pub struct TableStore {
    numbers: ArrayVec<u32, 64>,
}

impl TableStore {
    // Refuses a list that is too long for a table.
    pub fn check(numbers: &[u32]) -> Result<(), Refusal>
        ensures { outcome result ≡ table_check numbers.now }
    {
        if numbers.len() <= 64 {
            Ok(())
        } else {
            Err(Refusal::TooMany)
        }
    }

    // A copy of the list; one that `check` refuses makes an empty table.
    pub fn new(numbers: &[u32]) -> TableStore
        ensures { result.numbers.items ≡ table_of numbers.now }
    {
        TableStore {
            numbers: ArrayVec::try_from(numbers).unwrap_or_default(),
        }
    }
}

impl Store for TableStore {
    ghost list = { λ s. s.numbers.items };

    ghost lent = { λ _. [] };

    ghost written = { λ s at value after. after.numbers.items ≡ slice_set s.numbers.items at value };

    fn size(&self) -> usize {
        self.numbers.len()
    }

    fn read(&self, at: usize) -> Result<u32, Refusal> {
        read_number(&self.numbers, at)
    }

    fn write(&mut self, at: usize, value: u32) -> Result<(), Refusal> {
        write_number(&mut self.numbers, at, value)
    }
}
