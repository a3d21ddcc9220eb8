// The words that every layer shares: what is asked, what is answered, and why it is refused.
#![tactic(auto)]

mod answer;
mod call;
mod policy;
mod refusal;
mod request;
mod words;

pub use answer::Answer;
pub use call::Call;
pub use policy::{Change, Object, Policy};
pub use refusal::Refusal;
pub use request::{Request, TransactionId};
pub use words::decimal_text;
