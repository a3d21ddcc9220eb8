// The text of a set-up file, line by line.
ghost use Rattle.std.specs.Prelude.{◌≡◌};
ghost use Rattle.setup_file.specs.Checks.{OutlinesText};
ghost use Rattle.setup_file.specs.SetupFiles.{SetupContent, IsReadable, ReadsSetupFile};
ghost use Rattle.setup_file.specs.Texts.{text_of, Fits, Gives};

use crate::draft::Draft;
use crate::error::SetupFileError;
use crate::outline::Outline;
use crate::seen::Seen;
use crate::setup::SetupFile;
use std::alloc::Global;

/// The outline of a set-up file: what it says, but for the numbers of a store and the policies where they are too many. A line that cannot be read is told
/// as `read_setup_file` tells it. No memory is taken.
pub fn outline_of(text: &[u8]) -> Result<Outline, SetupFileError>
    ensures { OutlinesText text.now result }
{
    let mut seen = Seen::new();
    let mut number = 0;
    for line in text.split(|byte| *byte == b'\n') {
        number += 1;
        if let Err(problem) = seen.take_line(line) {
            return Err(SetupFileError::Unreadable {
                line: number,
                problem,
            });
        }
    }
    match seen.finish() {
        Ok(outline) => Ok(outline),
        Err(problem) => Err(SetupFileError::Unreadable {
            line: number,
            problem,
        }),
    }
}

// Reads a text that can be read: only memory may be wanting.
fn read_text(heap: Global, text: &[u8]) -> Result<SetupFile, SetupFileError>
    requires { IsReadable text.now }
    ensures { ReadsSetupFile text.now result }
{
    let mut draft = Draft::new(heap);
    let mut count = 0;
    for line in text.split(|byte| *byte == b'\n') {
        count += 1;
        if let Err(error) = draft.take_line(heap, line) {
            return Err(error.at(count));
        }
    }
    match draft.finish() {
        Ok(file) => Ok(file),
        Err(problem) => Err(SetupFileError::Unreadable {
            line: count,
            problem,
        }),
    }
}

/// Reads the text of a set-up file. A line that cannot be read is told before any memory is taken.
pub fn read_setup_file(heap: Global, text: &[u8]) -> Result<SetupFile, SetupFileError>
    ensures reads { ReadsSetupFile text.now result }
    // The text that writing a set-up makes gives the set-up back.
    ensures reads_back { (setup : SetupContent) → Fits setup → text_of setup ≡ text.now → Gives setup result }
{
    outline_of(text)?;
    read_text(heap, text)
}
