// What a store answers whose numbers are a slice.
ghost use Rattle.std.specs.Prelude.{◌≡◌, slice_set};
ghost use Rattle.protocol.specs.Refusals.{outcome};
ghost use Rattle.stores.specs.Lists.{read_at, write_at};

use protocol::Refusal;

pub(crate) fn read_number(numbers: &[u32], at: usize) -> Result<u32, Refusal>
    ensures { outcome result ≡ read_at numbers.now at }
{
    numbers.get(at).copied().ok_or(Refusal::Absent)
}

pub(crate) fn write_number(numbers: &mut [u32], at: usize, value: u32) -> Result<(), Refusal>
    ensures answer { outcome result ≡ write_at numbers.old at }
    ensures after { numbers.new ≡ slice_set numbers.old at value }
{
    // By a test and an index: after a write through `get_mut` a proof knows only the length of the slice.
    if at >= numbers.len() {
        return Err(Refusal::Absent);
    }
    numbers[at] = value;
    Ok(())
}
