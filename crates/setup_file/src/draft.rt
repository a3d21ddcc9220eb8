// What the lines of a set-up file have said so far.
ghost use Rattle.std.specs.Prelude.{◌≡◌, MatchResult, OnOk, IfErr, IsSome, Some, None, Ok, Err};
ghost use Rattle.setup_file.specs.declared.error.Problem.TheVariants.{Repeated};
ghost use Rattle.setup_file.specs.Reading.{with_item};
ghost use Rattle.setup_file.specs.SetupFiles.{ReadsLine, draft_content, setup_content, no_items, with_words, finished};
ghost use Rattle.setup_file.specs.Words.{words_of};

use crate::error::{LineError, Problem};
use crate::item::{Item, read_item, store};
use crate::setup::{OrderLine, SetupFile, StoreLine};
use protocol::Policy;
use std::alloc::{AllocError, Global};

#[derive(Drop)]
pub(crate) struct Draft {
    order: Option<OrderLine>,
    cells: Option<StoreLine>,
    rights: Option<StoreLine>,
    policies: Vec<Policy>,
}

// Puts an item that may stand once into its place.
pub(crate) fn put_once<T: Drop>(place: &mut Option<T>, item: T) -> Result<(), Problem>
    ensures free { OnOk result ((place.old ≡ None) × (place.new ≡ Some item)) }
    ensures taken { IfErr result (λ problem. IsSome place.old × (place.new ≡ place.old) × (problem ≡ Repeated)) }
{
    if place.is_some() {
        return Err(Problem::Repeated);
    }
    *place = Some(item);
    Ok(())
}

impl Draft {
    pub(crate) fn new(heap: Global) -> Self
        ensures { draft_content result ≡ no_items }
    {
        Draft {
            order: None,
            cells: None,
            rights: None,
            policies: Vec::new(heap),
        }
    }

    fn take(&mut self, heap: Global, item: Item) -> Result<(), LineError>
        ensures { ReadsLine (with_item item.entry (draft_content self.old)) self.new result }
    {
        match item {
            Item::Order(order) => Ok(put_once(&mut self.order, order)?),
            Item::Cells(make, words) => {
                let cells = store(heap, make, words)?.ok_or(Problem::BadStore)?;
                Ok(put_once(&mut self.cells, cells)?)
            }
            Item::Rights(make, words) => {
                let rights = store(heap, make, words)?.ok_or(Problem::BadStore)?;
                Ok(put_once(&mut self.rights, rights)?)
            }
            Item::Policy(policy) => {
                self.policies.push(policy).map_err(AllocError::from)?;
                Ok(())
            }
        }
    }

    // One more line.
    pub(crate) fn take_line(&mut self, heap: Global, line: &[u8]) -> Result<(), LineError>
        ensures { ReadsLine (with_words (words_of line.now) (draft_content self.old)) self.new result }
    {
        match read_item(line)? {
            None => Ok(()),
            Some(item) => self.take(heap, item),
        }
    }

    // The set-up, behind the last line.
    pub(crate) fn finish(self) -> Result<SetupFile, Problem>
        ensures { MatchResult result (λ file. finished (draft_content self) ≡ Ok (setup_content file)) (λ problem. finished (draft_content self) ≡ Err problem) }
    {
        let Draft {
            order,
            cells,
            rights,
            policies,
        } = self;
        Ok(SetupFile {
            order: order.ok_or(Problem::NoOrder)?,
            cells: cells.ok_or(Problem::NoCells)?,
            rights: rights.ok_or(Problem::NoRights)?,
            policies,
        })
    }
}
