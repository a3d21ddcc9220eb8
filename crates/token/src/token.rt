// The token, and the calls that a program makes by it.
ghost use Rattle.std.specs.Prelude.{◌≡◌};
ghost use Rattle.protocol.specs.declared.request.Request.TheVariants.{Open, Deploy, Read, Write, Show, Set, Commit, GiveUp};
ghost use Rattle.engine.specs.Engines.{Steps};
ghost use Rattle.token.specs.Openings.{opening};

use engine::Engine;
use protocol::{Answer, Refusal, TransactionId};
use rights::RightsOrder;
use stores::Store;

// The one right to end a transaction. It is not Drop: it has to be spent by commit or give_up, and no program can spend it twice.
pub struct Token {
    id: TransactionId,
}

// Each call is the engine's own, for the token's number. Nothing ties a token to its engine: in another one it acts for that engine's
// transaction of the same number. And whoever holds the engine may still call it by number, past every token.
impl Token {
    pub fn open<C: Store, R: Store, O: RightsOrder>(
        engine: &mut Engine<'_, '_, '_, C, R, O>,
        subject: u16,
    ) -> Result<Token, Refusal>
        ensures { Steps C.Store R.Store O.RightsOrder engine.old (Open subject) (opening result) engine.new }
    {
        match engine.open(subject) {
            Answer::Granted(number) => Ok(Token {
                // It fits: numbers end at 50,000.
                id: number as TransactionId,
            }),
            Answer::Refused(refusal) => Err(refusal),
            // An open waits for nobody, and nobody can have struck it.
            Answer::Wait(_) | Answer::Aborted { .. } => unreachable(),
        }
    }

    pub fn number(&self) -> TransactionId
        ensures { result ≡ self.now.id }
    {
        self.id
    }

    pub fn deploy<C: Store, R: Store, O: RightsOrder>(
        &self,
        engine: &mut Engine<'_, '_, '_, C, R, O>,
        policy: u16,
    ) -> Answer
        ensures { Steps C.Store R.Store O.RightsOrder engine.old (Deploy self.now.id policy) result engine.new }
    {
        engine.deploy(self.id, policy)
    }

    pub fn read<C: Store, R: Store, O: RightsOrder>(
        &self,
        engine: &mut Engine<'_, '_, '_, C, R, O>,
        cell: u16,
    ) -> Answer
        ensures { Steps C.Store R.Store O.RightsOrder engine.old (Read self.now.id cell) result engine.new }
    {
        engine.read(self.id, cell)
    }

    pub fn write<C: Store, R: Store, O: RightsOrder>(
        &self,
        engine: &mut Engine<'_, '_, '_, C, R, O>,
        cell: u16,
        value: u32,
    ) -> Answer
        ensures { Steps C.Store R.Store O.RightsOrder engine.old (Write self.now.id cell value) result engine.new }
    {
        engine.write(self.id, cell, value)
    }

    pub fn show<C: Store, R: Store, O: RightsOrder>(
        &self,
        engine: &mut Engine<'_, '_, '_, C, R, O>,
        policy: u16,
    ) -> Answer
        ensures { Steps C.Store R.Store O.RightsOrder engine.old (Show self.now.id policy) result engine.new }
    {
        engine.show(self.id, policy)
    }

    pub fn set<C: Store, R: Store, O: RightsOrder>(
        &self,
        engine: &mut Engine<'_, '_, '_, C, R, O>,
        policy: u16,
        right: u32,
    ) -> Answer
        ensures { Steps C.Store R.Store O.RightsOrder engine.old (Set self.now.id policy right) result engine.new }
    {
        engine.set(self.id, policy, right)
    }

    // Commit and give_up take the token whatever they answer: after either, that engine has nothing of its number left to end.
    pub fn commit<C: Store, R: Store, O: RightsOrder>(
        self,
        engine: &mut Engine<'_, '_, '_, C, R, O>,
    ) -> Answer
        ensures { Steps C.Store R.Store O.RightsOrder engine.old (Commit self.id) result engine.new }
    {
        engine.commit(self.spend())
    }

    pub fn give_up<C: Store, R: Store, O: RightsOrder>(
        self,
        engine: &mut Engine<'_, '_, '_, C, R, O>,
    ) -> Answer
        ensures { Steps C.Store R.Store O.RightsOrder engine.old (GiveUp self.id) result engine.new }
    {
        engine.give_up(self.spend())
    }

    fn spend(self) -> TransactionId
        ensures { result ≡ self.id }
    {
        let Token { id } = self;
        id
    }
}
