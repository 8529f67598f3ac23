// Rooms for the samples of a run.
use walk::RUN;

// The run of each channel as it is made, and the operands of the channel that is being made.
#[derive(Drop)]
pub struct Room {
    pub(crate) made: [[f32; RUN]; 11],
    pub(crate) operands: Operands,
}

// The new samples of a run, and the old and the new alpha.
#[derive(Drop)]
pub(crate) struct Operands {
    pub fresh: [f32; RUN],
    pub old_alpha: [f32; RUN],
    pub new_alpha: [f32; RUN],
}

impl Room {
    pub(crate) fn new() -> Room {
        Room {
            made: [[0.0; RUN]; 11],
            operands: Operands {
                fresh: [0.0; RUN],
                old_alpha: [0.0; RUN],
                new_alpha: [0.0; RUN],
            },
        }
    }
}
