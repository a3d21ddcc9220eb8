// The lines of answers, one after another.
ghost use Rattle.std.specs.Prelude.{◌≡◌, ◌≤◌, ◌↔◌, length, IsTrue};
ghost use Rattle.protocol.specs.Refusals.{outcome};
ghost use Rattle.records.specs.Buffers.{put_answer, put_front};
ghost use Rattle.lines.specs.Lines.{answer_lines};

use crate::line::{answer_len, write_answer_line};
use protocol::{Answer, Refusal};

// Whether the lines of the answers fit so many bytes. What is left is counted down, since no sum of lengths is known to fit its type.
fn lines_fit(answers: &[Answer], room: usize) -> bool
    ensures { IsTrue result ↔ (length (answer_lines answers.now) ≤ room) }
{
    let mut left = room;
    for answer in answers {
        let len = answer_len(*answer);
        if len > left {
            return false;
        }
        left -= len;
    }
    true
}

/// Writes the lines of the answers to the front of the buffer, and answers their length.
/// Where together they exceed the buffer, it is refused, and nothing is written.
pub fn write_lines(answers: &[Answer], buffer: &mut [u8]) -> Result<usize, Refusal>
    ensures answer { outcome result ≡ put_answer (answer_lines answers.now) buffer.old }
    ensures after { buffer.new ≡ put_front (answer_lines answers.now) buffer.old }
{
    if !lines_fit(answers, buffer.len()) {
        return Err(Refusal::ExceedsBuffer);
    }
    let mut end = 0;
    for answer in answers {
        end += write_answer_line(*answer, &mut buffer[end..])?;
    }
    Ok(end)
}
