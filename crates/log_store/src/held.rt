// The bytes of a store on a log.
ghost use Rattle.std.specs.Prelude.{◌≡◌, true, ◌||◌, ◌==◌};
ghost use Rattle.log_store.specs.Log.{holds_log};

// The lent bytes hold a log of the count, or the count is 0: by a rule, bytes that hold no log make an empty store. How many numbers there are, no byte
// says, so the count stands beside.
#[derive(Drop)]
pub struct LogStore<'a> {
    pub(crate) bytes: &'a mut [u8],
    pub(crate) count: usize,
    ghost sound: { (count == 0 || holds_log count bytes.now) ≡ true },
}
