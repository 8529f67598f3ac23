// Where a run of one channel is read, and from what.

// A store and a picture.
#[derive(Drop)]
pub(crate) struct Source<'a, S, P> {
    pub store: &'a S,
    pub picture: &'a P,
}

// A channel, and the column and the row where its run begins.
#[derive(Clone, Copy)]
pub(crate) struct Place {
    pub channel: usize,
    pub column: usize,
    pub row: usize,
}
