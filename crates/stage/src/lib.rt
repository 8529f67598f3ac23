// The stage: composes one rectangle of an image from frames and patches, over any store.
// Promise: every call ensures the relation that the laws speak of, `Start` and `Step` of crate `views`: its answer is the definition's, and what
// the stage keeps and every place of the store is known afterwards, taken or refused. So every run follows the definition, and crop, shift and
// exchange hold of any two runs: `Laws`, on `start`. The definition is crate `machine`, and in prose docs/STAGE.md.
#![tactic(auto)]

mod admits;
mod calls;
pub mod stage;
pub mod ticket;

pub use stage::Stage;
pub use ticket::Ticket;
