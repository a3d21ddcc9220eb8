// A request in words, as a listing shows it.
ghost use Rattle.std.specs.Prelude.{◌≡◌, ◌+◌, ◌≤◌, ◌++◌, length, decimal, Some};
ghost use Rattle.arrayvec.specs.ArrayString.{array_string_len};
ghost use Rattle.protocol.specs.Words.{words};

use crate::request::Request;
use arrayvec::ArrayString;
use itoa::Buffer;
use std::fmt;

// Room for the words of any request: the longest have 31 letters and spaces, and three numbers of at most ten digits.
const WORDS: usize = 61;

/// A number in decimal.
pub fn decimal_text(number: u32) -> ArrayString<10>
    ensures { result.bytes ≡ decimal number }
{
    let mut buffer = Buffer::new();
    let mut text = ArrayString::new();
    text.push_str(buffer.format(number));
    text
}

// The words so far, and behind them a number with its name.
fn numbered(mut words: ArrayString<WORDS>, name: &str, number: u32) -> ArrayString<WORDS>
    requires { array_string_len words + length name.now + 10 ≤ 61 }
    ensures bytes { result.bytes ≡ words.bytes ++ name.now ++ decimal number }
    ensures short { array_string_len result ≤ array_string_len words + length name.now + 10 }
{
    words.push_str(name);
    words.push_str(decimal_text(number).as_str());
    words
}

impl Request {
    /// The request in words, as `read transaction 1 cell 0`.
    pub fn words(self) -> ArrayString<WORDS>
        ensures { result.bytes ≡ words self }
    {
        let words = ArrayString::new();
        match self {
            Request::Open { subject } => numbered(words, "open subject ", u32::from(subject)),
            Request::Deploy {
                transaction,
                policy,
            } => {
                let words = numbered(words, "deploy transaction ", u32::from(transaction));
                numbered(words, " policy ", u32::from(policy))
            }
            Request::Read { transaction, cell } => {
                let words = numbered(words, "read transaction ", u32::from(transaction));
                numbered(words, " cell ", u32::from(cell))
            }
            Request::Write {
                transaction,
                cell,
                value,
            } => {
                let words = numbered(words, "write transaction ", u32::from(transaction));
                let words = numbered(words, " cell ", u32::from(cell));
                numbered(words, " value ", value)
            }
            Request::Show {
                transaction,
                policy,
            } => {
                let words = numbered(words, "show transaction ", u32::from(transaction));
                numbered(words, " policy ", u32::from(policy))
            }
            Request::Set {
                transaction,
                policy,
                right,
            } => {
                let words = numbered(words, "set transaction ", u32::from(transaction));
                let words = numbered(words, " policy ", u32::from(policy));
                numbered(words, " right ", right)
            }
            Request::Commit { transaction } => numbered(
                words,
                "commit transaction ",
                u32::from(transaction),
            ),
            Request::GiveUp { transaction } => numbered(
                words,
                "give up transaction ",
                u32::from(transaction),
            ),
        }
    }
}

impl fmt::Display for Request {
    ghost output = { λ request. Some (words request) };

    fn fmt<W: fmt::Write>(&self, f: &mut fmt::Formatter<W>) -> fmt::Result {
        f.write_str(self.words().as_str())
    }
}
