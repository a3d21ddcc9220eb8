// What a write makes of the bytes.
ghost use Rattle.std.specs.Prelude.{◌≡◌, ◌+◌, ◌*◌, ◌<◌, ◌≤◌, length, slice_set};
ghost use Rattle.log_store.specs.Held.{bytes_of, lent_of, list_of};
ghost use Rattle.log_store.specs.Log.{appended, checkpoint, formatted, log_end, log_field, log_list, with_room, written};

use crate::bytes::put;
use crate::held::LogStore;
use crate::log::{Log, Place, TAG};

fn field(position: u16, value: u32) -> Place
    ensures { result ≡ log_field position value }
{
    let [p0, p1] = position.to_be_bytes();
    let [v0, v1, v2, v3] = value.to_be_bytes();
    [TAG, 0, 6, p0, p1, v0, v1, v2, v3]
}

// Fills the place at the log's end. What stood in the next place, if there is one, must not count as a field, so its tag becomes 0.
fn append(bytes: &mut [u8], end: usize, position: u16, value: u32)
    requires { end + 9 ≤ length bytes.old }
    ensures { bytes.new ≡ appended bytes.old end position value }
{
    put(bytes, end, &field(position, value));
    let next = end + 9;
    if bytes.len() - next >= 9 {
        bytes[next] = 0;
    }
}

// Writes the numbers as the base, and empties the log.
pub(crate) fn format(bytes: &mut [u8], numbers: &[u32])
    requires { 4 * length numbers.now < length bytes.old }
    ensures { bytes.new ≡ formatted (length numbers.now) numbers.now bytes.old }
{
    for (i, number) in numbers.iter().enumerate() {
        put(bytes, 4 * i, &number.to_be_bytes());
    }
    bytes[4 * numbers.len()] = 0;
}

// Copies every listed number into the base, and empties the log.
fn checkpoint(bytes: &mut [u8], count: usize)
    requires { 4 * count < length bytes.old }
    ensures bytes { bytes.new ≡ checkpoint count bytes.old }
    ensures list { log_list count bytes.new ≡ log_list count bytes.old }
{
    // Counted once, since the used places stay while the base is written.
    let fields = Log::new(bytes, count).used();
    // By index, since each number is read from the bytes that the loop writes.
    for i in 0..count {
        let number = Log::new(bytes, count).number_after(fields, i);
        put(bytes, 4 * i, &number.to_be_bytes());
    }
    bytes[4 * count] = 0;
}

impl LogStore<'_> {
    // Where the log ends, with a free place there: after a checkpoint where there was none.
    fn make_room(&mut self) -> usize
        requires { 0 < self.old.count }
        ensures bytes { bytes_of self.new ≡ with_room self.old.count (bytes_of self.old) }
        ensures list { list_of self.new ≡ list_of self.old }
        ensures kept { lent_of self.new ≡ lent_of self.old }
        ensures count { self.new.count ≡ self.old.count }
        ensures end { result ≡ log_end self.old.count (bytes_of self.new) }
        ensures free { result + 9 ≤ length (bytes_of self.new) }
    {
        let end = self.log().end();
        if self.bytes.len() - end >= 9 {
            return end;
        }
        checkpoint(self.bytes, self.count);
        4 * self.count
    }

    pub(crate) fn set(&mut self, position: u16, value: u32)
        requires { position < self.old.count }
        ensures bytes { bytes_of self.new ≡ written self.old.count (bytes_of self.old) position value }
        ensures list { list_of self.new ≡ slice_set (list_of self.old) position value }
        ensures kept { lent_of self.new ≡ lent_of self.old }
        ensures count { self.new.count ≡ self.old.count }
    {
        let end = self.make_room();
        append(self.bytes, end, position, value);
    }
}
