// The calls of a workspace, promised by the model's words about its list of changes.
ghost use Rattle.std.specs.Prelude.{◌≡◌, [], length, if◌then◌else◌};
ghost use Rattle.std.specs.List.{slice_get};
ghost use Rattle.protocol.specs.Refusals.{outcome, answered, refused};
ghost use Rattle.serial.specs.Changes.{latest, put, room};
ghost use Rattle.workspace.specs.Workspaces.{changes_of};

use super::Workspace;
use crate::search::{change_of, place_of};
use protocol::{Change, Object, Refusal};

impl Workspace {
    pub fn new() -> Workspace
        ensures { changes_of result ≡ [] }
    {
        let unused = Change {
            object: Object::OfCell(0),
            value: 0,
        };
        Workspace {
            changes: [unused; 16],
            count: 0,
        }
    }

    // In the order in which their objects were first changed.
    pub fn as_slice(&self) -> &[Change]
        ensures { result.now ≡ changes_of self.now }
    {
        &self.changes[..self.count]
    }

    pub fn len(&self) -> usize
        ensures { result ≡ length (changes_of self.now) }
    {
        self.as_slice().len()
    }

    pub fn get(&self, index: usize) -> Option<Change>
        ensures { result ≡ slice_get (changes_of self.now) index }
    {
        self.as_slice().get(index).copied()
    }

    pub fn value_of(&self, object: Object) -> Option<u32>
        ensures { result ≡ latest (changes_of self.now) object }
    {
        change_of(self.as_slice(), object).map(|change| change.value)
    }

    // A change that is there already takes no more room.
    #[tactic(auto, unfolding(serial::specs::Changes::room))]
    pub fn has_room(&self, object: Object) -> bool
        ensures { result ≡ room (changes_of self.now) object }
    {
        self.value_of(object).is_some() || self.len() < 16
    }

    // Where there is no room, nothing changes. The two are taken apart, as the machine's `put` takes them.
    pub fn put(&mut self, object: Object, value: u32) -> Result<(), Refusal>
        ensures answer { outcome result ≡ (if room (changes_of self.old) object then answered tt else refused 7) }
        ensures after { changes_of self.new ≡ (if room (changes_of self.old) object then put object value (changes_of self.old) else changes_of self.old) }
    {
        let change = Change { object, value };
        match place_of(self.as_slice(), object) {
            Some(place) => self.changes[place] = change,
            None if self.count < 16 => {
                self.changes[self.count] = change;
                self.count += 1;
            }
            None => return Err(Refusal::TooManyChanges),
        }
        Ok(())
    }
}
