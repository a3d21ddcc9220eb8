// Requests in few words, and engines and days on given stores.
use crate::check::check_eq;
use day::run_day;
use engine::Engine;
use protocol::{Answer, Object, Policy, Refusal, Request, TransactionId};
use rights::{RightsOrder, VectorOrder};
use std::process::Abort;
use stores::{SliceStore, Store};

// A request in few words. A table of these is a static, of which nothing is proved where it is used.
#[derive(Clone, Copy)]
pub(crate) enum Call {
    Open(u16),
    Deploy(TransactionId, u16),
    Read(TransactionId, u16),
    Write(TransactionId, u16, u32),
    Show(TransactionId, u16),
    Set(TransactionId, u16, u32),
    Commit(TransactionId),
    GiveUp(TransactionId),
}

impl Call {
    pub(crate) fn request(self) -> Request {
        match self {
            Call::Open(subject) => Request::Open { subject },
            Call::Deploy(transaction, policy) => Request::Deploy {
                transaction,
                policy,
            },
            Call::Read(transaction, cell) => Request::Read { transaction, cell },
            Call::Write(transaction, cell, value) => Request::Write {
                transaction,
                cell,
                value,
            },
            Call::Show(transaction, policy) => Request::Show {
                transaction,
                policy,
            },
            Call::Set(transaction, policy, right) => Request::Set {
                transaction,
                policy,
                right,
            },
            Call::Commit(transaction) => Request::Commit { transaction },
            Call::GiveUp(transaction) => Request::GiveUp { transaction },
        }
    }
}

// A request beside the answer that it is to get.
pub(crate) type Step = (Call, Answer);

pub(crate) fn on_cell(subject: u16, cell: u16) -> Policy {
    let object = Object::OfCell(cell);
    Policy { subject, object }
}

pub(crate) fn on_policy(subject: u16, policy: u16) -> Policy {
    let object = Object::OfPolicy(policy);
    Policy { subject, object }
}

// Makes the requests in turn. Steps are numbered from 0.
pub(crate) fn follow<C: Store, R: Store, O: RightsOrder>(
    rt: &impl Abort,
    engine: &mut Engine<'_, '_, '_, C, R, O>,
    steps: &[Step],
) {
    for (at, (call, expected)) in steps.iter().enumerate() {
        check_eq(rt, (at, engine.call(call.request())), (at, *expected));
    }
}

// The same on a new engine.
pub(crate) fn work_on<C: Store, R: Store, O: RightsOrder>(
    rt: &impl Abort,
    cells: &mut C,
    rights: &mut R,
    order: &O,
    policies: &[Policy],
    steps: &[Step],
) {
    let mut engine = Engine::new(cells, rights, order, policies);
    follow(rt, &mut engine, steps);
}

// With the vector order, and the two buffers as stores.
pub(crate) fn work(
    rt: &impl Abort,
    cells: &mut [u32],
    rights: &mut [u32],
    policies: &[Policy],
    steps: &[Step],
) {
    let mut cells = SliceStore::new(cells);
    let mut rights = SliceStore::new(rights);
    work_on(rt, &mut cells, &mut rights, &VectorOrder, policies, steps);
}

// A whole day, with the vector order and the two buffers as stores.
pub(crate) fn day_on(
    cells: &mut [u32],
    rights: &mut [u32],
    policies: &[Policy],
    requests: &[Request],
    answers: &mut [Answer],
) -> Result<usize, Refusal> {
    let mut cells = SliceStore::new(cells);
    let mut rights = SliceStore::new(rights);
    run_day(
        &mut cells,
        &mut rights,
        &VectorOrder,
        policies,
        requests,
        answers,
    )
}

// Holds a store to its numbers.
pub(crate) fn check_store<S: Store>(rt: &impl Abort, store: &S, numbers: &[u32]) {
    check_eq(rt, store.size(), numbers.len());
    for (at, number) in numbers.iter().enumerate() {
        check_eq(rt, (at, store.read(at)), (at, Ok(*number)));
    }
}
