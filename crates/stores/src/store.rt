// What a store means, and what its calls promise of it.
ghost use Rattle.std.specs.Prelude.{◌≡◌, ℕ, List, length, slice_set};
ghost use Rattle.protocol.specs.Refusals.{outcome};
ghost use Rattle.stores.specs.Lists.{read_at, write_at};

use protocol::Refusal;

pub trait Store {
    // The numbers, by position from 0.
    ghost list: { Self → List ℕ };

    // The names of the memory that the store was lent. A write keeps them, so that the lender learns what its memory holds in the end.
    ghost lent: { Self → List ℕ };

    // What a write makes of the store itself, with all that a list does not show: the store before, the position, the number, the store after.
    ghost written: { Self → ℕ → ℕ → Self → Type 0 };

    fn size(&self) -> usize
        ensures { result ≡ length (list self.now) };

    fn read(&self, at: usize) -> Result<u32, Refusal>
        ensures { outcome result ≡ read_at (list self.now) at };

    fn write(&mut self, at: usize, value: u32) -> Result<(), Refusal>
        ensures answer { outcome result ≡ write_at (list self.old) at }
        ensures after { list self.new ≡ slice_set (list self.old) at value }
        ensures kept { lent self.new ≡ lent self.old }
        ensures itself { written self.old at value self.new };
}
