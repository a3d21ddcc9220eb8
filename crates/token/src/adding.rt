// How a program uses a token: it opens, goes on as long as it is granted what it asks, and ends the transaction either way.
ghost use Rattle.std.specs.Prelude.{◌≡◌, []};
ghost use Rattle.engine.specs.Engines.{state_of, setup_of, Keeps, Writes, Goes};
ghost use Rattle.token.specs.Adding.{adds, Added};

use crate::token::Token;
use engine::Engine;
use protocol::{Answer, Refusal};
use rights::RightsOrder;
use stores::Store;

// Adds to a cell under one policy, in a transaction of its own; the sum wraps. The answer is the commit's, or the one that kept
// it from committing.
pub fn add_to_cell<C: Store, R: Store, O: RightsOrder>(
    engine: &mut Engine<'_, '_, '_, C, R, O>,
    subject: u16,
    policy: u16,
    cell: u16,
    amount: u32,
) -> Result<Answer, Refusal>
    ensures added { Added (setup_of O.RightsOrder engine.old) (state_of C.Store R.Store engine.old) subject policy cell amount
        (Writes C.Store R.Store engine.old engine.new) result (state_of C.Store R.Store engine.new) }
    ensures same_setup { setup_of O.RightsOrder engine.new ≡ setup_of O.RightsOrder engine.old }
    ensures keeps_stores { Keeps C.Store R.Store engine.old engine.new }
{
    let token = Token::open(engine, subject)?;
    let added = add(&token, engine, policy, cell, amount);
    if let Answer::Granted(_) = added {
        return Ok(token.commit(engine));
    }
    let _ = token.give_up(engine);
    Ok(added)
}

// The calls of the open transaction, up to the first that is not granted.
fn add<C: Store, R: Store, O: RightsOrder>(
    token: &Token,
    engine: &mut Engine<'_, '_, '_, C, R, O>,
    policy: u16,
    cell: u16,
    amount: u32,
) -> Answer
    ensures { Goes C.Store R.Store O.RightsOrder engine.old (result, engine.new) (adds token.now.id policy cell amount (setup_of O.RightsOrder engine.old) (state_of C.Store R.Store engine.old)) [] }
{
    let deployed = token.deploy(engine, policy);
    let Answer::Granted(_) = deployed else {
        return deployed;
    };
    let read = token.read(engine, cell);
    let Answer::Granted(value) = read else {
        return read;
    };
    token.write(engine, cell, value.wrapping_add(amount))
}
