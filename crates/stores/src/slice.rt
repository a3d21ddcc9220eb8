// A store on the caller's own buffer of numbers: that buffer is the list.
ghost use Rattle.std.specs.Prelude.{◌≡◌, [], ◌∷◌, slice_set};

use crate::numbers::{read_number, write_number};
use crate::store::Store;
use protocol::Refusal;

#[derive(Drop)]
pub struct SliceStore<'a> {
    numbers: &'a mut [u32],
}

impl<'a> SliceStore<'a> {
    pub fn new(numbers: &'a mut [u32]) -> SliceStore<'a>
        ensures holds { result.numbers.now ≡ numbers.old }
        ensures lent { result.numbers.ghost_name ≡ numbers.entry.ghost_name }
    {
        SliceStore { numbers }
    }
}

impl Store for SliceStore<'_> {
    ghost list = { λ s. s.numbers.now };

    ghost lent = { λ s. s.numbers.ghost_name ∷ [] };

    ghost written = { λ s at value after. after.numbers.now ≡ slice_set s.numbers.now at value };

    fn size(&self) -> usize {
        self.numbers.len()
    }

    fn read(&self, at: usize) -> Result<u32, Refusal> {
        read_number(self.numbers, at)
    }

    fn write(&mut self, at: usize, value: u32) -> Result<(), Refusal> {
        write_number(self.numbers, at, value)
    }
}
