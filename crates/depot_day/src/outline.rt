// What is refused of a set-up file, by its outline: before any memory is taken.
ghost use Rattle.std.specs.Prelude.{◌≡◌, ◌<◌, List, ℕ, length};
ghost use Rattle.protocol.specs.Refusals.{outcome};
ghost use Rattle.protocol.specs.declared.policy.Policy.{Policy as Item};
ghost use Rattle.setup.specs.Admission.{setup_check};
ghost use Rattle.makes.specs.Orders.{right_of};
ghost use Rattle.setup_file.specs.Items.{StoreContent};
ghost use Rattle.setup_file.specs.Outlines.{IsFew, few_policies, Outlines, OutlinesStore};
ghost use Rattle.setup_file.specs.SetupFiles.{SetupContent};
ghost use Rattle.depot_day.specs.Making.{make_check, store_check, making_check};

use crate::making::{check_make, check_numbers, make_order};
use arrayvec::ArrayVec;
use makes::AnyOrder;
use protocol::Refusal;
use setup_file::{FewPolicies, Make, NUMBERS_MAX, Outline, StoreOutline};

type Numbers = ArrayVec<u32, NUMBERS_MAX>;

// Refuses more numbers than an outline keeps.
fn check_long(make: Make) -> Result<(), Refusal>
    ensures { (numbers : List ℕ) → 256 < length numbers → outcome result ≡ make_check make numbers }
{
    match make {
        Make::Slice => Ok(()),
        Make::Table => Err(Refusal::TooMany),
        Make::Log { .. } => Err(Refusal::BadLog),
    }
}

fn check_store(store: &StoreOutline) -> Result<(), Refusal>
    ensures { (content : StoreContent) → OutlinesStore store.now content → outcome result ≡ store_check content }
{
    match &store.numbers {
        Some(numbers) => check_make(store.make, numbers.as_slice()),
        None => check_long(store.make),
    }
}

// Set-up's check. It refuses every list that an outline does not keep.
fn check_few(
    cells: Option<Numbers>,
    rights: Option<Numbers>,
    order: &AnyOrder,
    policies: Option<FewPolicies>,
) -> Result<(), Refusal>
    ensures { (all_cells all_rights : List ℕ) (all_policies : List Item)
        → IsFew (λ few. few.items) 256 cells all_cells
        → IsFew (λ few. few.items) 256 rights all_rights
        → IsFew few_policies 64 policies all_policies
        → outcome result ≡ setup_check (right_of order.now) all_cells all_rights all_policies }
{
    let Some(mut cells) = cells else {
        return Err(Refusal::TooMany);
    };
    let Some(policies) = policies else {
        return Err(Refusal::TooMany);
    };
    let Some(mut rights) = rights else {
        return Err(Refusal::BadPolicies);
    };
    check_numbers(
        cells.as_mut_slice(),
        rights.as_mut_slice(),
        order,
        policies.as_slice(),
    )
}

// Refuses the file as making all of it does.
pub(crate) fn check_outline(outline: Outline) -> Result<(), Refusal>
    ensures { (file : SetupContent) → Outlines outline file → outcome result ≡ making_check file }
{
    let Outline {
        order,
        cells,
        rights,
        policies,
    } = outline;
    let order = make_order(order)?;
    check_store(&cells)?;
    check_store(&rights)?;
    check_few(cells.numbers, rights.numbers, &order, policies)
}
