// What a request asks of a transaction. An enum and no closure, since it is matched together with how the transaction stands, in one place.
use protocol::Call;

#[derive(Clone, Copy)]
pub enum Action {
    Calls(Call),
    Commits,
    GivesUp,
}
