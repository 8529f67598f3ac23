// Whether two stages show the same.
use machine::Shown;
use region::Region;
use stage::Stage;
use std::process::Abort;
use store::Store;

fn same(one: Shown, other: Shown) -> bool {
    match (one, other) {
        (Shown::Outside, Shown::Outside) | (Shown::Empty, Shown::Empty) => true,
        (Shown::Sample(x), Shown::Sample(y)) => x == y,
        _ => false,
    }
}

// Every slot and channel, and one of each past the last, at every position of the region; the other stage's are moved by (x, y).
// Answers how many samples were compared.
pub(crate) fn shown_alike<S: Store, T: Store>(
    rt: &impl Abort,
    one: &Stage<S>,
    other: &Stage<T>,
    region: Region,
    by: (i32, i32),
) -> u32 {
    let mut samples = 0u32;
    for slot in 0..5u32 {
        for channel in 0..6u32 {
            for y in region.top()..region.bottom() {
                for x in region.left()..region.right() {
                    let shown = one.show(slot, channel, x, y);
                    let moved = other.show(
                        slot,
                        channel,
                        x.wrapping_add(by.0),
                        y.wrapping_add(by.1),
                    );
                    assert!(rt; same(shown, moved));
                    if matches!(shown, Shown::Sample(_)) {
                        samples = samples.saturating_add(1);
                    }
                }
            }
        }
    }
    samples
}
