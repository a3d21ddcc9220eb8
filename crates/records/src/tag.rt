// The tag of a record, which says what is requested.
ghost use Rattle.std.specs.Prelude.{◌≡◌, ◌<◌, ◌⊎◌, MatchResult};
ghost use Rattle.records.specs.Tags.{tag_number};
ghost use Rattle.records.specs.declared.fault.RecordFault.TheVariants.{UnknownTag};

use crate::fault::RecordFault;

#[derive(Clone, Copy, PartialEq, Eq, Debug)]
pub(crate) enum Tag {
    Open = 1,
    Deploy = 2,
    Read = 3,
    Write = 4,
    Show = 5,
    Set = 6,
    Commit = 7,
    GiveUp = 8,
}

impl TryFrom<u8> for Tag {
    type Error = RecordFault;

    ghost try_from_gives = { λ byte r. MatchResult r (λ tag. byte ≡ tag_number tag) (λ fault. (fault ≡ UnknownTag) × ((byte ≡ 0) ⊎ (8 < byte))) };

    fn try_from(byte: u8) -> Result<Tag, RecordFault> {
        match byte {
            1 => Ok(Tag::Open),
            2 => Ok(Tag::Deploy),
            3 => Ok(Tag::Read),
            4 => Ok(Tag::Write),
            5 => Ok(Tag::Show),
            6 => Ok(Tag::Set),
            7 => Ok(Tag::Commit),
            8 => Ok(Tag::GiveUp),
            _ => Err(RecordFault::UnknownTag),
        }
    }
}
