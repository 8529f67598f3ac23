// What a stage looks at before it takes a call: the first condition that the arguments break, in the order of the refusals.
// Promise: each function answers exactly the definition's refusal for its arguments, and none where no condition is broken.
// The definition is specs/Checks.antt of crate `machine`, and in prose docs/STAGE.md and docs/REFUSALS.md.
#![tactic(auto)]

pub mod arguments;
pub mod starts;
