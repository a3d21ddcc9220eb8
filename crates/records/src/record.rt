// The record of a request: one tagged field, whose content is the numbers of the request.
ghost use Rattle.std.specs.Prelude.{◌≡◌, ℕ, List, ◌++◌, length, IfOk, MatchResult};
ghost use Rattle.records.specs.Buffers.{put_answer, put_front};
ghost use Rattle.protocol.specs.Bytes.{two_bytes, four_bytes, two_at, four_at, field_bytes};
ghost use Rattle.records.specs.Faults.{record_number};
ghost use Rattle.records.specs.Records.{record_bytes, request_of, record_of};
ghost use Rattle.protocol.specs.Refusals.{outcome, outcome_by, answered, refused};

use crate::fault::RecordFault;
use crate::field::{put_field, take_field};
use crate::tag::Tag;
use protocol::{Refusal, Request};

// Contents of two lengths, read as one would say them: a function over the length would have to be told what they hold.
fn two_numbers(bytes: [u8; 4]) -> (u16, u16)
    ensures says { result ≡ (two_at bytes 0, two_at bytes 2) }
    ensures whole { bytes ≡ two_bytes result.0 ++ two_bytes result.1 }
{
    let [a, b, c, d] = bytes;
    (u16::from_be_bytes([a, b]), u16::from_be_bytes([c, d]))
}

// Two numbers and then one of four bytes, a value or a right.
fn two_and_long(bytes: [u8; 8]) -> (u16, u16, u32)
    ensures says { result ≡ (two_at bytes 0, two_at bytes 2, four_at bytes 4) }
    ensures whole { bytes ≡ two_bytes result.0 ++ two_bytes result.1 ++ four_bytes result.2 }
{
    let [a, b, c, d, e, f, g, h] = bytes;
    (
        u16::from_be_bytes([a, b]),
        u16::from_be_bytes([c, d]),
        u32::from_be_bytes([e, f, g, h]),
    )
}

// The request that a content says under a tag. One arm for each, as each request has a content of its own.
#[inline(always)]
fn request_of(tag: u8, content: &[u8]) -> Result<Request, RecordFault>
    ensures says { outcome_by record_number result ≡ request_of tag content.now }
    ensures whole { IfOk result (λ request. field_bytes tag content.now ≡ record_bytes request) }
{
    match Tag::try_from(tag)? {
        Tag::Open => {
            let subject = u16::from_be_bytes(<[u8; 2]>::try_from(content)?);
            Ok(Request::Open { subject })
        }
        Tag::Deploy => {
            let (transaction, policy) = two_numbers(<[u8; 4]>::try_from(content)?);
            Ok(Request::Deploy {
                transaction,
                policy,
            })
        }
        Tag::Read => {
            let (transaction, cell) = two_numbers(<[u8; 4]>::try_from(content)?);
            Ok(Request::Read { transaction, cell })
        }
        Tag::Write => {
            let (transaction, cell, value) = two_and_long(<[u8; 8]>::try_from(content)?);
            Ok(Request::Write {
                transaction,
                cell,
                value,
            })
        }
        Tag::Show => {
            let (transaction, policy) = two_numbers(<[u8; 4]>::try_from(content)?);
            Ok(Request::Show {
                transaction,
                policy,
            })
        }
        Tag::Set => {
            let (transaction, policy, right) = two_and_long(<[u8; 8]>::try_from(content)?);
            Ok(Request::Set {
                transaction,
                policy,
                right,
            })
        }
        Tag::Commit => {
            let transaction = u16::from_be_bytes(<[u8; 2]>::try_from(content)?);
            Ok(Request::Commit { transaction })
        }
        Tag::GiveUp => {
            let transaction = u16::from_be_bytes(<[u8; 2]>::try_from(content)?);
            Ok(Request::GiveUp { transaction })
        }
    }
}

/// The request at the front of the bytes, and the bytes behind its record; or why it cannot be read.
#[inline(always)]
pub fn read_record(bytes: &[u8]) -> Result<(Request, &[u8]), RecordFault>
    ensures reads { MatchResult result (λ p. record_of bytes.now ≡ answered (p.0, p.1.now)) (λ e. record_of bytes.now ≡ refused (record_number e)) }
    ensures one_record { IfOk result (λ p. bytes.now ≡ record_bytes p.0 ++ p.1.now) }
{
    let (field, rest) = take_field(bytes)?;
    let request = request_of(field.tag, field.content)?;
    Ok((request, rest))
}

fn two_contents(a: u16, b: u16) -> [u8; 4]
    ensures { result ≡ two_bytes a ++ two_bytes b }
{
    let [a_high, a_low] = a.to_be_bytes();
    let [b_high, b_low] = b.to_be_bytes();
    [a_high, a_low, b_high, b_low]
}

fn long_contents(a: u16, b: u16, long: u32) -> [u8; 8]
    ensures { result ≡ two_bytes a ++ two_bytes b ++ four_bytes long }
{
    let [a_high, a_low, b_high, b_low] = two_contents(a, b);
    let [first, second, third, fourth] = long.to_be_bytes();
    [a_high, a_low, b_high, b_low, first, second, third, fourth]
}

/// How many bytes the record of a request has.
pub fn record_len(request: Request) -> usize
    ensures { result ≡ length (record_bytes request) }
{
    match request {
        Request::Open { .. } | Request::Commit { .. } | Request::GiveUp { .. } => 5,
        Request::Deploy { .. } | Request::Read { .. } | Request::Show { .. } => 7,
        Request::Write { .. } | Request::Set { .. } => 11,
    }
}

/// Writes the record of a request to the front of the buffer, and answers its length.
/// Where it exceeds the buffer, it is refused, and nothing is written.
// One arm for each, as when it is read.
#[tactic(auto, using(crate::proofs::Records::record_back))]
pub fn write_record(request: Request, buffer: &mut [u8]) -> Result<usize, Refusal>
    ensures answer { outcome result ≡ put_answer (record_bytes request) buffer.old }
    ensures after { buffer.new ≡ put_front (record_bytes request) buffer.old }
    ensures reads_back { (rest : List ℕ) → record_of (record_bytes request ++ rest) ≡ answered (request, rest) }
{
    match request {
        Request::Open { subject } => put_field(buffer, Tag::Open as u8, &subject.to_be_bytes()),
        Request::Deploy {
            transaction,
            policy,
        } => put_field(
            buffer,
            Tag::Deploy as u8,
            &two_contents(transaction, policy),
        ),
        Request::Read { transaction, cell } => put_field(
            buffer,
            Tag::Read as u8,
            &two_contents(transaction, cell),
        ),
        Request::Write {
            transaction,
            cell,
            value,
        } => put_field(
            buffer,
            Tag::Write as u8,
            &long_contents(transaction, cell, value),
        ),
        Request::Show {
            transaction,
            policy,
        } => put_field(buffer, Tag::Show as u8, &two_contents(transaction, policy)),
        Request::Set {
            transaction,
            policy,
            right,
        } => put_field(
            buffer,
            Tag::Set as u8,
            &long_contents(transaction, policy, right),
        ),
        Request::Commit { transaction } => put_field(
            buffer,
            Tag::Commit as u8,
            &transaction.to_be_bytes(),
        ),
        Request::GiveUp { transaction } => put_field(
            buffer,
            Tag::GiveUp as u8,
            &transaction.to_be_bytes(),
        ),
    }
}
