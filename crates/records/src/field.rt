// One tagged field: a tag of one byte, the length of the content in two bytes with the high one first, the content.
ghost use Rattle.std.specs.Prelude.{◌≡◌, ◌≤◌, ◌++◌, length, IfOk, Some, None, MatchResult};
ghost use Rattle.records.specs.Buffers.{put_answer, put_front};
ghost use Rattle.protocol.specs.Bytes.{field_bytes};
ghost use Rattle.records.specs.Records.{field_of, Parsed};
ghost use Rattle.protocol.specs.Refusals.{outcome};

use crate::fault::FieldFault;
use protocol::Refusal;

#[derive(Clone, Copy)]
pub(crate) struct Field<'a> {
    pub(crate) tag: u8,
    pub(crate) content: &'a [u8],
}

// The field at the front of the bytes, and the bytes behind it.
#[inline(always)]
pub(crate) fn take_field(bytes: &[u8]) -> Result<(Field<'_>, &[u8]), FieldFault>
    ensures parses { MatchResult result (λ p. field_of bytes.now ≡ Some (record { tag = p.0.tag; content = p.0.content.now; rest = p.1.now })) (λ e. (e ≡ FieldFault.Cut) × (field_of bytes.now ≡ None)) }
    ensures one_field { IfOk result (λ p. bytes.now ≡ field_bytes p.0.tag p.0.content.now ++ p.1.now) }
{
    let [tag, high, low, after @ ..] = bytes else {
        return Err(FieldFault::Cut);
    };
    let len = u16::from_be_bytes([*high, *low]) as usize;
    let Some((content, rest)) = after.split_at_checked(len) else {
        return Err(FieldFault::Cut);
    };
    Ok((Field { tag: *tag, content }, rest))
}

// Writes a field to the front of the buffer, and answers its length.
pub(crate) fn put_field(buffer: &mut [u8], tag: u8, content: &[u8]) -> Result<usize, Refusal>
    requires { length content.now ≤ 8 }
    ensures answer { outcome result ≡ put_answer (field_bytes tag content.now) buffer.old }
    ensures after { buffer.new ≡ put_front (field_bytes tag content.now) buffer.old }
{
    let len = 3 + content.len();
    if len > buffer.len() {
        return Err(Refusal::ExceedsBuffer);
    }
    let [high, low] = (content.len() as u16).to_be_bytes();
    buffer[..3].copy_from_slice(&[tag, high, low]);
    buffer[3..len].copy_from_slice(content);
    Ok(len)
}
