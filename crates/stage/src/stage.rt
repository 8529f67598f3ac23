// A stage over a store.
use canvas::{OpenFrame, Terms};

// What start took, the open frame, which slots are filled and the last blended number; the samples lie in the store. There are four
// slots, so that no length stands beside their flags.
#[derive(Drop)]
pub struct Stage<S> {
    pub(crate) store: S,
    pub(crate) terms: Option<Terms>,
    pub(crate) opened: Option<OpenFrame>,
    pub(crate) filled: [bool; 4],
    pub(crate) last: u32,
}
