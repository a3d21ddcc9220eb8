// What is printed of a day.
ghost use Rattle.std.specs.Prelude.{◌≡◌, [], ◌∷◌, codes};
ghost use Rattle.protocol.specs.Refusals.{refusal_number};
ghost use Rattle.lines.specs.Lines.{line};
ghost use Rattle.depot_day.specs.Runs.{printed_bytes};

use arrayvec::ArrayVec;
use lines::write_answer_line;
use protocol::{Answer, Refusal};

/// Room for the line of any answer.
pub const LINE_MAX: usize = 14;

/// What is printed of a set-up file and a tape.
#[derive(Drop)]
pub enum Printed {
    Report(Vec<u8>),
    /// The line of a refusal. It takes no memory, so that a refusal is told where there is none.
    Refusal(ArrayVec<u8, LINE_MAX>),
}

impl Printed {
    /// The bytes to print.
    pub fn as_slice(&self) -> &[u8]
        ensures { result.now ≡ printed_bytes self.now }
    {
        match self {
            Printed::Report(text) => text.as_slice(),
            Printed::Refusal(line) => line.as_slice(),
        }
    }
}

pub(crate) fn refusal_line(refusal: Refusal) -> ArrayVec<u8, LINE_MAX>
    ensures { result.items ≡ line (codes "R") (refusal_number refusal ∷ []) }
{
    let mut line = ArrayVec::from([0; LINE_MAX]);
    match write_answer_line(Answer::Refused(refusal), line.as_mut_slice()) {
        Ok(length) => line.truncate(length),
        Err(_) => unreachable(),
    }
    line
}
