//! The rows of a job, which all replicas share.
ghost use Rattle.std.specs.Prelude.{◌≡◌, ◌==◌, IfOk, length};

use crate::config::Row;
use std::alloc::{AllocError, Global};
use std::marker::Model;
use std::sync::ArcSlice;

/// The rows of a job, in the order of the file: made once, then only read, and shared by all that
/// know them. Contracts see the list.
#[derive(Drop)]
pub struct Rows {
    items: ArcSlice<Row, Global>,
}

impl Model for Rows {
    ghost use Rattle.std.specs.Prelude.{List};
    ghost use Rattle.mu_model.specs.declared.config.Row.{Row};
    ghost use Rattle.std.specs.Arc.{arc_slice_items};

    ghost Value = { List Row };

    ghost view = { λ s. arc_slice_items s.items };
}

impl Rows {
    /// These rows.
    ///
    /// # Errors
    ///
    /// `AllocError` for want of memory.
    pub fn from_vec(rows: Vec<Row>) -> Result<Rows, AllocError>
        ensures { IfOk result (λ made. made ≡ rows.items) }
    {
        Ok(Rows {
            items: ArcSlice::from_vec(rows)?,
        })
    }

    /// The same rows, in the same memory.
    ///
    /// # Errors
    ///
    /// `AllocError` if they are shared more often than a word can count.
    pub fn try_clone(&self) -> Result<Rows, AllocError>
        ensures { IfOk result (λ same. same ≡ self.now) }
    {
        Ok(Rows {
            items: self.items.clone()?,
        })
    }

    /// How many rows there are.
    pub fn len(&self) -> usize
        ensures { result ≡ length self.now }
    {
        self.items.len()
    }

    /// Whether there is no row.
    pub fn is_empty(&self) -> bool
        ensures { result ≡ (length self.now == 0) }
    {
        self.items.len() == 0
    }

    /// The rows in order.
    pub fn as_slice(&self) -> &[Row]
        ensures { result.now ≡ self.now }
    {
        self.items.as_slice()
    }
}
