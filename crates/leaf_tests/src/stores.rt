// Both stores over leftover samples, with a rest that fills no plane.
use interleaved::Interleaved;
use planar::Planar;
use std::process::Abort;
use store::Store;

// Two planes of 3 columns and 2 rows, and a rest of 1.
const LEFTOVER: [f32; 13] = [
    0.0, 1.0, 2.0, 3.0, 4.0, 5.0, 6.0, 7.0, 8.0, 9.0, 10.0, 11.0, 12.0,
];

fn sizes<S: Store>(rt: &impl Abort, store: &S) {
    assert_eq!(rt; store.columns(), 3);
    assert_eq!(rt; store.rows(), 2);
    assert_eq!(rt; store.planes(), 2);
}

// what is outside says no and reads 0.0
fn outside<S: Store>(rt: &impl Abort, store: &mut S) {
    assert!(rt; !store.put(2, 0, 0, 9.5) && !store.put(0, 3, 0, 9.5) && !store.put(0, 0, 2, 9.5));
    assert!(rt; !store.save(0, 2, 0, &[9.5, 9.5]) && !store.save(2, 0, 0, &[]));
    assert!(rt;
        store.get(2, 0, 0) == 0.0 && store.get(0, 3, 0) == 0.0 && store.get(0, 0, 2) == 0.0
    );
}

// one put and one run, read back with a column past the end
fn writes<S: Store>(rt: &impl Abort, store: &mut S) {
    assert!(rt; store.put(1, 2, 1, -1.0));
    assert!(rt; store.save(0, 1, 1, &[-2.0, -3.0]));
    let mut run = [7.0; 4];
    store.load(0, 0, 1, &mut run);
    assert!(rt; run[1] == -2.0 && run[2] == -3.0 && run[3] == 0.0);
    store.load(1, 2, 1, &mut run);
    assert!(rt; run[0] == -1.0 && run[1] == 0.0);
}

fn changed(rt: &impl Abort, samples: &[f32; 13], places: [usize; 3]) {
    for (i, sample) in samples.iter().enumerate() {
        let written = i == places[0] || i == places[1] || i == places[2];
        assert!(rt; written == (*sample < 0.0));
    }
    assert!(rt; samples[12] == 12.0);
}

#[test]
fn planar_over_leftover_samples(rt: HostRuntime) {
    let mut samples = LEFTOVER;
    let mut store = Planar::new(&mut samples, 3, 2);
    sizes(&rt, &store);
    assert!(rt; store.get(1, 2, 1) == 11.0 && store.get(0, 1, 1) == 4.0);
    assert!(rt; store.lend(0, 0, 1, 3).is_some() && store.lend(0, 0, 1, 4).is_none());
    outside(&rt, &mut store);
    writes(&rt, &mut store);
    changed(&rt, &samples, [11, 4, 5]);
}

#[test]
fn interleaved_over_leftover_samples(rt: HostRuntime) {
    let mut samples = LEFTOVER;
    let mut store = Interleaved::new(&mut samples, 3, 2);
    sizes(&rt, &store);
    assert!(rt; store.get(1, 2, 1) == 11.0 && store.get(0, 1, 1) == 8.0);
    outside(&rt, &mut store);
    writes(&rt, &mut store);
    changed(&rt, &samples, [11, 8, 10]);
}

#[test]
fn sides_that_give_no_plane(rt: HostRuntime) {
    let mut samples = LEFTOVER;
    assert_eq!(rt; Planar::new(&mut samples, 0, 2).planes(), 0);
    assert_eq!(rt; Planar::new(&mut samples, 16_385, 1).planes(), 0);
    assert_eq!(rt; Interleaved::new(&mut samples, 1, 16_385).planes(), 0);
    assert_eq!(rt; Interleaved::new(&mut samples, 1, 1).planes(), 13);
}
