// An example of lending: a caller hands a slice of its own to a store, generic code writes to it, and the caller knows its slice again.
// Promise: after the write the caller's own array holds the value, proved from the store's meaning alone.
#![tactic(auto)]

ghost use Rattle.std.specs.Prelude.{◌≡◌};
ghost use Rattle.sample.specs.Samples.{one};
ghost use Rattle.store.specs.Held.{in_run, Changed};

use planar::Planar;
use store::Store;

// Writes 1.0 at plane 0, column 1, row 0 of any store.
pub fn write_one<S: Store>(store: &mut S)
    ensures { Changed (S.Store.held store.old) (S.Store.held store.new) (in_run 0 1 0 1) (λ _ _ _. one) }
{
    store.put(0, 1, 0, 1.0);
}

// What the caller's array of two columns and two rows, with one sample to spare, holds at its second place once it was lent.
pub fn own_samples() -> f32
    ensures { result ≡ one }
{
    let mut samples = [0.0; 5];
    {
        let mut store = Planar::new(&mut samples, 2, 2);
        write_one(&mut store);
    }
    samples[1]
}
