// The words of a line.
ghost use Rattle.std.specs.Prelude.{◌≡◌, ◌==◌, ◌<◌, [], ◌∷◌, length, map, MatchOption};
ghost use Rattle.std.specs.Iterator.{YieldsFirstRef, item_count};
ghost use Rattle.std.specs.List.{before_first};
ghost use Rattle.setup_file.specs.Words.{is_blank, words_in, words_of};
ghost use Rattle.setup_file.specs.WordsLeft.{words_left};

use arrayvec::ArrayVec;

// An item of a fixed form has no more words behind its first one.
const FEW: usize = 4;

fn is_blank(byte: u8) -> bool
    ensures { result ≡ is_blank byte }
{
    byte == b' ' || byte == b'\t' || byte == b'\r'
}

// What stands before the comment of a line.
fn before_comment(line: &[u8]) -> &[u8]
    ensures { result.now ≡ before_first (λ b. b == 35) line.now }
{
    let end = line
        .iter()
        .position(|byte| *byte == b'#')
        .unwrap_or(line.len());
    &line[..end]
}

// The first word of a text, and what stands behind it.
fn split_first_word(text: &[u8]) -> Option<(&[u8], &[u8])>
    ensures { MatchOption result (words_in text.now ≡ []) (λ p. words_in text.now ≡ p.0.now ∷ words_in p.1.now) }
{
    let start = text.iter().position(|byte| !is_blank(*byte))?;
    let text = &text[start..];
    let end = text
        .iter()
        .position(|byte| is_blank(*byte))
        .unwrap_or(text.len());
    Some(text.split_at(end))
}

// The words of a line that are left.
#[derive(Clone, Copy)]
pub(crate) struct Words<'a> {
    rest: &'a [u8],
}

impl<'a> Words<'a> {
    pub(crate) fn new(line: &'a [u8]) -> Self
        ensures { words_left result ≡ words_of line.now }
    {
        Words {
            rest: before_comment(line),
        }
    }

    // The words, if they are few.
    pub(crate) fn few(self) -> Option<ArrayVec<&'a [u8], FEW>>
        ensures { MatchOption result (FEW < length (words_left self.entry))
            (λ few. map (λ w. w.now) few.items ≡ words_left self.entry) }
    {
        let mut few = ArrayVec::new();
        for word in self {
            few.try_push(word).ok()?;
        }
        Some(few)
    }
}

impl<'a> Iterator for Words<'a> {
    type Item = &'a [u8];

    ghost next_gives = { YieldsFirstRef words_left };

    ghost remaining = { item_count words_left };

    fn next(&mut self) -> Option<&'a [u8]> {
        let (word, rest) = split_first_word(self.rest)?;
        self.rest = rest;
        Some(word)
    }
}
