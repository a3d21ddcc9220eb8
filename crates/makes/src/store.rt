// A store of any of the three makes.
ghost use Rattle.makes.specs.Stores.{IsWritten, list_of, lent_of};

use log_store::LogStore;
use protocol::Refusal;
use stores::{SliceStore, Store, TableStore};

#[derive(Drop)]
pub enum AnyStore<'a> {
    Slice(SliceStore<'a>),
    Table(TableStore),
    Log(LogStore<'a>),
}

impl Store for AnyStore<'_> {
    ghost list = { list_of };

    ghost lent = { lent_of };

    ghost written = { IsWritten };

    fn size(&self) -> usize {
        match self {
            AnyStore::Slice(store) => store.size(),
            AnyStore::Table(store) => store.size(),
            AnyStore::Log(store) => store.size(),
        }
    }

    fn read(&self, at: usize) -> Result<u32, Refusal> {
        match self {
            AnyStore::Slice(store) => store.read(at),
            AnyStore::Table(store) => store.read(at),
            AnyStore::Log(store) => store.read(at),
        }
    }

    fn write(&mut self, at: usize, value: u32) -> Result<(), Refusal> {
        match self {
            AnyStore::Slice(store) => store.write(at, value),
            AnyStore::Table(store) => store.write(at, value),
            AnyStore::Log(store) => store.write(at, value),
        }
    }
}
