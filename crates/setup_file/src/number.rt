// Numbers in decimal digits.
ghost use Rattle.std.specs.Prelude.{◌≡◌};
ghost use Rattle.setup_file.specs.Words.{long_of, short_of};

// A word as a number of four bytes. Not `parse`, which takes a leading plus.
pub(crate) fn long(word: &[u8]) -> Option<u32>
    ensures { result ≡ long_of word.now }
{
    if word.is_empty() {
        return None;
    }
    let mut value: u32 = 0;
    for byte in word {
        let digit = char::from(*byte).to_digit(10)?;
        value = value.checked_mul(10)?.checked_add(digit)?;
    }
    Some(value)
}

pub(crate) fn short(word: &[u8]) -> Option<u16>
    ensures { result ≡ short_of word.now }
{
    let value = long(word)?;
    u16::try_from(value).ok()
}
