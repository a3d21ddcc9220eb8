// The order and the stores of a set-up file: what is refused of them, and then their making, on memory that is taken only when nothing is refused.
ghost use Rattle.std.specs.Prelude.{◌≡◌, ◌+◌, ◌*◌, IfOk, length};
ghost use Rattle.protocol.specs.Refusals.{answered, outcome};
ghost use Rattle.rights.specs.Orders.{verdict};
ghost use Rattle.setup.specs.Admission.{setup_check};
ghost use Rattle.makes.specs.Orders.{right_of};
ghost use Rattle.makes.specs.Stores.{list_of};
ghost use Rattle.depot_day.specs.Making.{order_check, make_check, IsOrderOf, IsMake, bytes_of};

use log_store::LogStore;
use makes::{AnyOrder, AnyStore};
use protocol::{Policy, Refusal};
use rights::{LadderOrder, VectorOrder};
use setup::check_setup;
use setup_file::{Make, OrderLine};
use std::alloc::{AllocError, Global};
use stores::{SliceStore, TableStore};

pub(crate) fn make_order(line: OrderLine) -> Result<AnyOrder, Refusal>
    ensures answer { verdict (outcome result) ≡ order_check line }
    ensures order { IfOk result (IsOrderOf line) }
{
    match line {
        OrderLine::Vector => Ok(AnyOrder::Vector(VectorOrder)),
        OrderLine::Ladder {
            read,
            write,
            restrict,
        } => {
            let order = LadderOrder::new(read, write, restrict)?;
            Ok(AnyOrder::Ladder(order))
        }
    }
}

// Refuses numbers of which no such store can be made.
pub(crate) fn check_make(make: Make, numbers: &[u32]) -> Result<(), Refusal>
    ensures { outcome result ≡ make_check make numbers.now }
{
    match make {
        Make::Slice => Ok(()),
        Make::Table => TableStore::check(numbers),
        Make::Log { places } if numbers.len() <= 256 && places >= 1 => Ok(()),
        Make::Log { .. } => Err(Refusal::BadLog),
    }
}

// Set-up's check. It speaks of the numbers alone, so stores on the file's own serve for it, whatever the make.
pub(crate) fn check_numbers(
    cells: &mut [u32],
    rights: &mut [u32],
    order: &AnyOrder,
    policies: &[Policy],
) -> Result<(), Refusal>
    ensures answer { outcome result ≡ setup_check (right_of order.now) cells.old rights.old policies.now }
    ensures cells { cells.new ≡ cells.old }
    ensures rights { rights.new ≡ rights.old }
{
    let cells = SliceStore::new(cells);
    let rights = SliceStore::new(rights);
    check_setup(&cells, &rights, order, policies)
}

// The bytes that a log of the numbers takes with its places; none for other makes.
pub(crate) fn bytes_for(heap: Global, make: Make, numbers: &[u32]) -> Result<Vec<u8>, AllocError>
    requires { make_check make numbers.now ≡ answered tt }
    ensures { IfOk result (λ bytes. length bytes.items ≡ bytes_of make numbers.now) }
{
    match make {
        Make::Log { places } => vec![in heap; 0; 4 * numbers.len() + 9 * places as usize],
        Make::Slice | Make::Table => Ok(Vec::new(heap)),
    }
}

// A store of the make that holds the numbers, on memory that is lent for it.
pub(crate) fn make_store<'a>(
    make: Make,
    numbers: &'a mut [u32],
    bytes: &'a mut [u8],
) -> AnyStore<'a>
    requires checked { make_check make numbers.old ≡ answered tt }
    requires room { length bytes.old ≡ bytes_of make numbers.old }
    ensures make { IsMake make result }
    ensures numbers { list_of result ≡ numbers.old }
{
    match make {
        Make::Slice => AnyStore::Slice(SliceStore::new(numbers)),
        Make::Table => AnyStore::Table(TableStore::new(numbers)),
        Make::Log { .. } => match LogStore::format(bytes, numbers) {
            Ok(()) => AnyStore::Log(LogStore::new(bytes, numbers.len())),
            Err(_) => unreachable(),
        },
    }
}
