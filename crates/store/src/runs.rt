// Runs of columns in a row.
ghost use Rattle.std.specs.Prelude.{◌≡◌, ◌+◌, nat_le};

// Whether a row of so many columns has `count` of them from a column on.
pub fn row_has(columns: usize, column: usize, count: usize) -> bool
    ensures { result ≡ nat_le (column + count) columns }
{
    column <= columns && count <= columns - column
}
