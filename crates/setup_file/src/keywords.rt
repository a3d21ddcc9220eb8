// The words with a meaning of their own.

pub(crate) const ORDER: &[u8] = b"order";

pub(crate) const CELLS: &[u8] = b"cells";

pub(crate) const RIGHTS: &[u8] = b"rights";

// An item, and an object of one.
pub(crate) const POLICY: &[u8] = b"policy";

pub(crate) const CELL: &[u8] = b"cell";

pub(crate) const VECTOR: &[u8] = b"vector";

pub(crate) const LADDER: &[u8] = b"ladder";

pub(crate) const SLICE: &[u8] = b"slice";

pub(crate) const TABLE: &[u8] = b"table";

pub(crate) const LOG: &[u8] = b"log";
