// What the bytes of a log mean, and whether they hold one.
ghost use Rattle.std.specs.Prelude.{◌≡◌, ◌*◌, ◌<◌, ◌≤◌, ◌==◌, not, length, reverse, slice_index, take};
ghost use Rattle.std.specs.List.{find, list_all, prefix_len};
ghost use Rattle.std.specs.Option.{option_map};
ghost use Rattle.log_store.specs.Log.{all_fields, field_at, fits, holds_log, listed, log_end, log_list, place_list, places, used};
ghost use Rattle.protocol.specs.Bytes.{two_at, four_at};

use crate::bytes::number32;

pub(crate) const TAG: u8 = 0x43;

// A place of the log, or a field where it is used.
pub(crate) type Place = [u8; 9];

// A place has nine bytes by its type, so that its numbers are read with no bound to ask for; `number32` is for the base.
fn position_of(field: &Place) -> u16
    ensures { result ≡ two_at field.now 3 }
{
    u16::from_be_bytes([field[3], field[4]])
}

fn value_of(field: &Place) -> u32
    ensures { result ≡ four_at field.now 5 }
{
    u32::from_be_bytes([field[5], field[6], field[7], field[8]])
}

fn is_field(place: &Place, count: usize) -> bool
    ensures { result ≡ field_at count place.now 0 }
{
    place[0] == TAG
        && u16::from_be_bytes([place[1], place[2]]) == 6
        && (position_of(place) as usize) < count
}

// How many places stand before the first whose tag is 0.
fn count_used(places: &[Place]) -> usize
    ensures { result ≡ prefix_len (λ x. not (slice_index x 0 == 0)) places.now }
{
    places.iter().take_while(|place| place[0] != 0).count()
}

fn all_fields(places: &[Place], count: usize) -> bool
    ensures { result ≡ list_all (λ x. field_at count x 0) places.now }
{
    places.iter().all(|place| is_field(place, count))
}

fn last_of(fields: &[Place], position: usize) -> Option<&Place>
    ensures { option_map (λ x. x.now) result ≡ find (λ x. two_at x 3 == position) (reverse fields.now) }
{
    fields
        .iter()
        .rev()
        .find(|field| position_of(field) as usize == position)
}

// Bytes with room for `count` base numbers.
#[derive(Clone, Copy)]
pub(crate) struct Log<'a> {
    bytes: &'a [u8],
    count: usize,
    ghost in_bytes: { 4 * count ≤ length bytes.now },
}

impl<'a> Log<'a> {
    pub(crate) fn new(bytes: &'a [u8], count: usize) -> Log<'a>
        requires { 4 * count ≤ length bytes.now }
        ensures bytes { result.bytes.now ≡ bytes.now }
        ensures count { result.count ≡ count }
    {
        Log { bytes, count }
    }

    fn places(&self) -> &'a [Place]
        ensures { result.now ≡ place_list self.now.count self.now.bytes.now }
    {
        let (places, _) = self.bytes[4 * self.count..].as_chunks();
        places
    }

    // How many places are used.
    pub(crate) fn used(&self) -> usize
        ensures within { result ≤ places self.now.count self.now.bytes.now }
        ensures used { result ≡ used self.now.count self.now.bytes.now }
    {
        count_used(self.places())
    }

    // The used places.
    fn fields(&self) -> &'a [Place]
        ensures { result.now ≡ take (used self.now.count self.now.bytes.now) (place_list self.now.count self.now.bytes.now) }
    {
        let places = self.places();
        &places[..count_used(places)]
    }

    // Where the log ends.
    pub(crate) fn end(&self) -> usize
        ensures end { result ≡ log_end self.now.count self.now.bytes.now }
        ensures within { result ≤ length self.now.bytes.now }
    {
        4 * self.count + 9 * self.used()
    }

    // The number at a position after the first `fields` places: the value of the last field of the position, else its
    // base number.
    pub(crate) fn number_after(&self, fields: usize, position: usize) -> u32
        requires counted { position < self.now.count }
        requires within { fields ≤ places self.now.count self.now.bytes.now }
        ensures { result ≡ slice_index (listed self.now.count self.now.bytes.now fields) position }
    {
        match last_of(&self.places()[..fields], position) {
            Some(field) => value_of(field),
            None => number32(self.bytes, 4 * position),
        }
    }

    // The number at a position of the log's list.
    pub(crate) fn number(&self, position: usize) -> u32
        requires { position < self.now.count }
        ensures { result ≡ slice_index (log_list self.now.count self.now.bytes.now) position }
    {
        self.number_after(self.used(), position)
    }

    fn is_sound(&self) -> bool
        ensures { result ≡ all_fields self.now.count self.now.bytes.now (used self.now.count self.now.bytes.now) }
    {
        all_fields(self.fields(), self.count)
    }
}

// At most 256 numbers, with bytes for them and for one place.
pub(crate) fn fits(bytes: &[u8], count: usize) -> bool
    ensures { result ≡ fits count bytes.now }
{
    count <= 256 && bytes.len() >= 4 * count + 9
}

pub(crate) fn holds_log(bytes: &[u8], count: usize) -> bool
    ensures { result ≡ holds_log count bytes.now }
{
    fits(bytes, count) && Log::new(bytes, count).is_sound()
}
