// A slot for a transaction, by its number.
ghost use Rattle.std.specs.Prelude.{◌≡◌, ◌<◌, ◌≤◌, MatchOption};

// The bound is part of the type, so that no call has to ask for it.
#[derive(Clone, Copy, PartialEq, Eq, Debug)]
pub struct SlotIndex {
    at: u8,
    ghost below: { at < 16 },
}

impl SlotIndex {
    // An Option and no TryFrom, whose error would have nothing to say.
    pub fn new(at: usize) -> Option<SlotIndex>
        ensures { MatchOption result (16 ≤ at) (λ slot. slot.at ≡ at) }
    {
        if at < 16 {
            Some(SlotIndex { at: at as u8 })
        } else {
            None
        }
    }

    // A name and no From: `1 << usize::from(slot)` would read no plainer.
    pub fn get(self) -> usize
        ensures { result ≡ self.at }
    {
        self.at as usize
    }
}
