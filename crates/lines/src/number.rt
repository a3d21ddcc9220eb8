// Numbers in decimal, written from their last digit to their first.
ghost use Rattle.std.specs.Prelude.{◌≡◌, ◌+◌, ◌≤◌, ◌∷◌, ◌++◌, length, drop, decimal};

use itoa::write_digits;

// How many digits a number has.
pub(crate) fn digit_count(number: u32) -> usize
    ensures { result ≡ length (decimal number) }
{
    match number {
        0..=9 => 1,
        10..=99 => 2,
        100..=999 => 3,
        1_000..=9_999 => 4,
        10_000..=99_999 => 5,
        100_000..=999_999 => 6,
        1_000_000..=9_999_999 => 7,
        10_000_000..=99_999_999 => 8,
        100_000_000..=999_999_999 => 9,
        _ => 10,
    }
}

// Writes a number behind a space, so that its last digit stands before `end`. Where the space stands.
pub(crate) fn put_number(number: u32, buffer: &mut [u8], end: usize) -> usize
    requires room { 1 + length (decimal number) ≤ end }
    requires within { end ≤ length buffer.old }
    ensures start { result + (1 + length (decimal number)) ≡ end }
    ensures written { drop result buffer.new ≡ 32 ∷ decimal number ++ drop end buffer.old }
{
    let start = write_digits(u64::from(number), buffer, end) - 1;
    buffer[start] = b' ';
    start
}
