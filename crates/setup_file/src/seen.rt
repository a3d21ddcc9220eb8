// The outline of what the lines of a set-up file have said so far.
ghost use Rattle.setup_file.specs.Reading.{with_item};
ghost use Rattle.setup_file.specs.SetupFiles.{DraftContent, no_items, with_words, finished};
ghost use Rattle.setup_file.specs.Words.{words_of};

use crate::draft::put_once;
use crate::error::Problem;
use crate::item::{Item, read_item};
use crate::outline::{FewPolicies, Outline, StoreOutline, one_more, store_outline};
use crate::setup::OrderLine;

#[derive(Drop)]
pub(crate) struct Seen {
    order: Option<OrderLine>,
    cells: Option<StoreOutline>,
    rights: Option<StoreOutline>,
    policies: Option<FewPolicies>,
}

impl Seen {
    ghost use Rattle.setup_file.specs.Checks.{Stands, ChecksLine, ChecksEnd};

    pub(crate) fn new() -> Self
        ensures { Stands result no_items }
    {
        Seen {
            order: None,
            cells: None,
            rights: None,
            policies: Some(FewPolicies::new()),
        }
    }

    fn take(&mut self, item: Item) -> Result<(), Problem>
        ensures { (draft : DraftContent) → Stands self.old draft
            → ChecksLine (with_item item.entry draft) self.new result }
    {
        match item {
            Item::Order(order) => put_once(&mut self.order, order),
            Item::Cells(make, words) => {
                let cells = store_outline(make, words).ok_or(Problem::BadStore)?;
                put_once(&mut self.cells, cells)
            }
            Item::Rights(make, words) => {
                let rights = store_outline(make, words).ok_or(Problem::BadStore)?;
                put_once(&mut self.rights, rights)
            }
            Item::Policy(policy) => {
                self.policies = one_more(self.policies, policy);
                Ok(())
            }
        }
    }

    // One more line. No memory is taken.
    pub(crate) fn take_line(&mut self, line: &[u8]) -> Result<(), Problem>
        ensures { (draft : DraftContent) → Stands self.old draft
            → ChecksLine (with_words (words_of line.now) draft) self.new result }
    {
        match read_item(line)? {
            None => Ok(()),
            Some(item) => self.take(item),
        }
    }

    // The outline, behind the last line.
    pub(crate) fn finish(self) -> Result<Outline, Problem>
        ensures { (draft : DraftContent) → Stands self draft → ChecksEnd (finished draft) result }
    {
        let Seen {
            order,
            cells,
            rights,
            policies,
        } = self;
        Ok(Outline {
            order: order.ok_or(Problem::NoOrder)?,
            cells: cells.ok_or(Problem::NoCells)?,
            rights: rights.ok_or(Problem::NoRights)?,
            policies,
        })
    }
}
