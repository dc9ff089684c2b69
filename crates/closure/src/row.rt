//! Rows of a table.
ghost use Rattle.std.specs.Prelude.{◌≡◌, ◌<◌, ◌++◌, ◌∷◌, [], length, Some, slice_get, slice_index_or, OnOk};
ghost use Rattle.closure.specs.Rows.{value_at};

use std::alloc::{AllocError, Global};
use std::marker::Model;

/// A row of a table: a value for each event of a line. A contract sees the list.
#[derive(Drop)]
pub struct Row<T> {
    values: Vec<T>,
}

impl<T> Model for Row<T> {
    ghost use Rattle.std.specs.Prelude.{List};

    ghost Value = { List T };

    ghost view = { λ r. r.values.items };
}

impl<T: Copy> Row<T> {
    /// A row with no values yet. It takes no memory.
    pub fn new(alloc: Global) -> Row<T>
        ensures { result ≡ [] }
    {
        Row {
            values: Vec::new(alloc),
        }
    }

    /// Adds a value at the end.
    pub fn push(&mut self, value: T) -> Result<(), AllocError>
        ensures { OnOk result (self.new ≡ self.old ++ value ∷ []) }
    {
        self.values.push(value)?;
        Ok(())
    }

    /// The value at a place.
    #[inline(always)]
    fn at(&self, place: usize) -> T
        requires { place < length self.now }
        ensures { slice_get self.now place ≡ Some result }
    {
        self.values[place]
    }
}

/// The value that rows have for the event at a place of a line.
#[inline(always)]
pub fn value_at<T: Copy>(rows: &[Row<T>], line: usize, place: usize) -> T
    requires line { line < length rows.now }
    requires place { place < length (slice_index_or rows.now line []) }
    ensures { value_at rows.now line place ≡ Some result }
{
    rows[line].at(place)
}
