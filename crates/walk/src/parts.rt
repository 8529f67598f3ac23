// Parts of a plane: rectangles, and runs of a row.
ghost use Rattle.std.specs.Prelude.{◌≡◌, ◌≤◌};
ghost use Rattle.walk.specs.declared.parts.TheConstants.{RUN};

// The longest run that is painted at once.
pub const RUN: usize = 128;

// The columns from `left` up to `right`, in the rows from `top` up to `bottom`.
#[derive(Clone, Copy)]
pub struct Area {
    pub left: usize,
    pub right: usize,
    pub top: usize,
    pub bottom: usize,
}

impl Area {
    pub fn new(left: usize, right: usize, top: usize, bottom: usize) -> Area
        ensures { result ≡ record { left = left; right = right; top = top; bottom = bottom } }
    {
        Area {
            left,
            right,
            top,
            bottom,
        }
    }
}

// So many columns of a row, from one on.
#[derive(Clone, Copy)]
pub struct Run {
    pub column: usize,
    pub row: usize,
    pub count: usize,
    ghost short: { count ≤ RUN },
}
