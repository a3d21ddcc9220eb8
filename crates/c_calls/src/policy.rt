// Policies as C has them.
ghost use Rattle.std.specs.Prelude.{◌≡◌, ◌<◌, ◌≤◌, length, map, take, MatchResult};
ghost use Rattle.protocol.specs.declared.refusal.Refusal.TheVariants.{TooMany};
ghost use Rattle.c_calls.specs.Policies.{policy_of, policies_of};

use protocol::{Object, Policy, Refusal};

/// A policy in three numbers: of kind 0 its object is the cell of that number, of kind 1 the policy. Any other kind names no object.
#[repr(C)]
#[derive(Clone, Copy, PartialEq, Eq, Debug)]
pub struct PolicyEntry {
    /// Who may use the policy.
    pub subject: u16,
    pub kind: u16,
    pub number: u16,
}

// The header's struct setxulda_policy: three numbers of two bytes, with nothing between or behind them.
const _: () = prove!(size_of::<PolicyEntry>() == 6);

const _: () = prove!(align_of::<PolicyEntry>() == 2);

// What any other kind names: there are never so many policies.
const NOTHING: Object = Object::OfPolicy(65_535);

impl From<PolicyEntry> for Policy {
    ghost from_gives = { λ entry policy. policy ≡ policy_of entry };

    fn from(entry: PolicyEntry) -> Policy {
        let object = match entry.kind {
            0 => Object::OfCell(entry.number),
            1 => Object::OfPolicy(entry.number),
            _ => NOTHING,
        };
        Policy {
            subject: entry.subject,
            object,
        }
    }
}

// Writes the policies of the entries to the first places.
fn fill(places: &mut [Policy], entries: &[PolicyEntry])
    requires { length entries.now ≤ length places.old }
    ensures { take (length entries.now) places.new ≡ policies_of entries.now }
{
    for (at, entry) in entries.iter().enumerate() {
        places[at] = Policy::from(*entry);
    }
}

// The first policies of the places. They need no heap, and set-up refuses any more.
#[derive(Drop)]
pub(crate) struct PolicyList {
    places: [Policy; 64],
    count: usize,
    ghost within: { count ≤ 64 },
}

impl PolicyList {
    pub(crate) fn new(entries: &[PolicyEntry]) -> Result<PolicyList, Refusal>
        ensures { MatchResult result (λ list. take list.count list.places ≡ policies_of entries.now) (λ e. (e ≡ TooMany) × (64 < length entries.now)) }
    {
        let count = entries.len();
        if count > 64 {
            return Err(Refusal::TooMany);
        }
        let nobody = Policy {
            subject: 0,
            object: NOTHING,
        };
        let mut places = [nobody; 64];
        fill(&mut places, entries);
        Ok(PolicyList { places, count })
    }

    pub(crate) fn as_slice(&self) -> &[Policy]
        ensures { result.now ≡ take self.now.count self.now.places }
    {
        &self.places[..self.count]
    }
}
