// The ticket of an open frame.
use machine::Stamp;

// It is no Drop, so it must be spent: by `blend` or by `abandon`, which hand it back where they refuse.
pub struct Ticket {
    pub(crate) stamp: Stamp,
}
