//! Lists of rows.

ghost use Rattle.std.specs.Prelude.{◌≡◌, IfOk, MatchResult, string_bytes};
ghost use Rattle.scripts.specs.Rows.{NotRead, RowsWritten, rows_text};

use crate::answers::Fault;
use crate::rows::Rows;
use std::alloc::{AllocError, Global};

/// The rows that the words write; not read where one of them cannot be.
pub fn rows_read<T: Rows>(heap: Global, words: &[&str]) -> Result<Vec<T::Row>, Fault>
    ensures { let Written = RowsWritten T.Rows.scripted.written words.now in
        MatchResult result (λ rows. Written rows.items) (NotRead Written) }
{
    let mut rows = Vec::new(heap);
    // A loop: of a `try_collect` a proof does not know enough to say what was read.
    for part in words.chunks(T::parts()) {
        let row = T::read(part).ok_or(Fault::Unknown)?;
        rows.push(row).map_err(AllocError::from)?;
    }
    Ok(rows)
}

/// The numbers of the rows, each after a space.
pub fn rows_shown<T: Rows>(heap: Global, rows: &[T::Row]) -> Result<String, AllocError>
    ensures { IfOk result (λ text. string_bytes text ≡ rows_text T.Rows.scripted.shown rows.now) }
{
    let mut text = String::new(heap);
    for row in rows {
        T::show(*row, &mut text)?;
    }
    Ok(text)
}
