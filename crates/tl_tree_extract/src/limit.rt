//! How many bytes may be written.
ghost use Rattle.std.specs.Prelude.{Err, OnOk, ◌+◌, ◌<◌, ◌≡◌, ◌≤◌};
ghost use Rattle.tl_tree_extract.specs.declared.table_error.TableError.TheVariants.{TooLong};

use crate::table_error::TableError;

/// So many bytes at most behind those that a vector has.
#[derive(Clone, Copy)]
pub(crate) struct Limit {
    pub(crate) start: usize,
    pub(crate) most: usize,
}

impl Limit {
    /// Refuses what ends behind the last byte that may be written.
    pub(crate) fn check(self, end: usize) -> Result<(), TableError>
        ensures within { OnOk result (end ≤ self.start + self.most) }
        ensures long { result ≡ Err TooLong → self.start + self.most < end }
    {
        if end.saturating_sub(self.start) > self.most {
            return Err(TableError::TooLong);
        }
        Ok(())
    }
}
