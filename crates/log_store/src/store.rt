// The log as a store.
ghost use Rattle.std.specs.Prelude.{◌≡◌, true, if◌then◌else◌, length, slice_set, OnOk};
ghost use Rattle.protocol.specs.Refusals.{outcome};
ghost use Rattle.stores.specs.Lists.{write_at};
ghost use Rattle.log_store.specs.Held.{IsWritten, bytes_of, lent_of, list_of};
ghost use Rattle.log_store.specs.Log.{format_bytes, format_check, holds_log, log_check, log_of, log_read};

use crate::held::LogStore;
use crate::log::{Log, fits, holds_log};
use crate::writes::format;
use protocol::Refusal;
use stores::Store;

impl<'a> LogStore<'a> {
    // Refuses bytes that hold no log of `count` numbers.
    pub fn check(bytes: &[u8], count: usize) -> Result<(), Refusal>
        ensures { outcome result ≡ log_check count bytes.now }
    {
        if !holds_log(bytes, count) {
            return Err(Refusal::BadLog);
        }
        Ok(())
    }

    // Writes the numbers as the base of an empty log. Bytes that have no room for that are refused, and stay.
    pub fn format(bytes: &mut [u8], numbers: &[u32]) -> Result<(), Refusal>
        ensures answer { outcome result ≡ format_check numbers.now bytes.old }
        ensures after { bytes.new ≡ format_bytes numbers.now bytes.old }
        ensures list { OnOk result (log_of (length numbers.now) bytes.new ≡ numbers.now) }
    {
        if !fits(bytes, numbers.len()) {
            return Err(Refusal::BadLog);
        }
        format(bytes, numbers);
        Ok(())
    }

    // Bytes that `check` refuses make an empty store.
    pub fn new(bytes: &'a mut [u8], count: usize) -> LogStore<'a>
        ensures list { list_of result ≡ log_of count bytes.old }
        ensures count { result.count ≡ (if holds_log count bytes.old then count else 0) }
        ensures holds { result.bytes.now ≡ bytes.old }
        ensures lent { result.bytes.ghost_name ≡ bytes.entry.ghost_name }
    {
        let count = if holds_log(bytes, count) { count } else { 0 };
        LogStore { bytes, count }
    }

    // The number at a position of the log that the bytes hold: for bytes that are lent for reading only.
    #[tactic(auto, using(crate::proofs::LogLaws::length_log))]
    pub fn number_at(bytes: &[u8], count: usize, at: usize) -> Result<u32, Refusal>
        ensures { outcome result ≡ log_read count bytes.now at }
    {
        LogStore::check(bytes, count)?;
        if at >= count {
            return Err(Refusal::Absent);
        }
        Ok(Log::new(bytes, count).number(at))
    }

    pub(crate) fn log(&self) -> Log<'_>
        ensures bytes { result.bytes.now ≡ bytes_of self.now }
        ensures count { result.count ≡ self.now.count }
    {
        Log::new(self.bytes, self.count)
    }
}

impl Store for LogStore<'_> {
    ghost list = { list_of };

    ghost lent = { lent_of };

    ghost written = { IsWritten };

    #[tactic(auto, using(crate::proofs::LogLaws::length_log))]
    fn size(&self) -> usize {
        self.count
    }

    #[tactic(auto, using(crate::proofs::LogLaws::length_log))]
    fn read(&self, at: usize) -> Result<u32, Refusal> {
        if at >= self.count {
            return Err(Refusal::Absent);
        }
        Ok(self.log().number(at))
    }

    // It promises more than any store does: that where the bytes held a log of its count, they still do.
    #[tactic(auto, using(crate::proofs::LogLaws::length_log))]
    fn write(&mut self, at: usize, value: u32) -> Result<(), Refusal>
        ensures answer { outcome result ≡ write_at (list_of self.old) at }
        ensures after { list_of self.new ≡ slice_set (list_of self.old) at value }
        ensures kept { lent_of self.new ≡ lent_of self.old }
        ensures itself { IsWritten self.old at value self.new }
        ensures sound { holds_log self.old.count (bytes_of self.old) ≡ true → holds_log self.new.count (bytes_of self.new) ≡ true }
    {
        if at >= self.count {
            return Err(Refusal::Absent);
        }
        self.set(at as u16, value);
        Ok(())
    }
}
