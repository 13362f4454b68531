//! Lists of lists, turned about their diagonal.

ghost use Rattle.std.specs.Prelude.{◌≡◌, ◌<◌, ◌≤◌, [], ◌∷◌, ◌++◌, length, vec_len, vec_capacity, map, IfOk, OnOk};
ghost use Rattle.std.specs.Prelude.{get_or, slice_set};
ghost use Rattle.std.specs.List.{All};
ghost use Rattle.lmtp_threads.specs.Grid.{IsTransposed, lists, zip_push};

use std::alloc::{AllocError, Global};

/// Lists with nothing in them, each with room for that many.
pub fn empty_rows<T: Drop>(
    alloc: Global,
    rows: usize,
    room: usize,
) -> Result<Vec<Vec<T>>, AllocError>
    ensures len { IfOk result (λ v. vec_len v ≡ rows) }
    ensures empty { IfOk result (λ v. All (λ r. r ≡ []) (lists v.items)) }
    ensures room { IfOk result (λ v. All (λ n. room ≤ n) (map vec_capacity v.items)) }
{
    let mut all = Vec::with_capacity(alloc, rows)?;
    for _ in 0..rows {
        all.push(Vec::with_capacity(alloc, room)?)?;
    }
    Ok(all)
}

/// One more element for the row at that place.
pub fn push_at<T: Drop>(rows: &mut Vec<Vec<T>>, at: usize, x: T) -> Result<(), AllocError>
    requires { at < vec_len rows.old }
    ensures len { vec_len rows.new ≡ vec_len rows.old }
    ensures items { OnOk result (lists rows.new.items
        ≡ slice_set (lists rows.old.items) at (get_or (lists rows.old.items) at [] ++ x ∷ [])) }
{
    let row = &mut rows[at];
    row.push(x)?;
    Ok(())
}

// Each element goes to the end of its row.
fn push_column<T: Drop>(rows: &mut Vec<Vec<T>>, column: Vec<T>)
    requires len { vec_len column ≡ vec_len rows.old }
    requires room { All (λ r. vec_len r < vec_capacity r) rows.old.items }
    ensures items { lists rows.new.items ≡ zip_push (lists rows.old.items) column.items }
    ensures capacity { map vec_capacity rows.new.items ≡ map vec_capacity rows.old.items }
{
    let mut k = 0;
    for x in column {
        let row = &mut rows[k];
        row.push_reserved(x);
        k += 1;
    }
}

/// The columns become the rows. There is room for them.
pub fn transpose<T: Drop>(columns: Vec<Vec<T>>, rows: Vec<Vec<T>>) -> Vec<Vec<T>>
    requires widths { All (λ c. length c ≡ vec_len rows) (lists columns.items) }
    requires empty { All (λ r. r ≡ []) (lists rows.items) }
    requires room { All (λ n. vec_len columns ≤ n) (map vec_capacity rows.items) }
    ensures len { vec_len result ≡ vec_len rows }
    ensures turned { IsTransposed (lists columns.items) (lists result.items) }
{
    let mut rows = rows;
    for column in columns {
        push_column(&mut rows, column);
    }
    rows
}
