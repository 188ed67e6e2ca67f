//! Rows that come in: looked through first, then written.
ghost use Rattle.std.specs.Prelude.{◌≡◌, ℕ, ◌*◌, ◌/◌, ◌==◌, List, length, slice_index, MatchResult, OnOk};
ghost use Rattle.std.specs.List.{list_any, list_all, range_with_len};
ghost use Rattle.motion.specs.Refusals.{told, refused, number_of, place_of};
ghost use Rattle.shares.specs.Rows.{rows_in, rows_of};
ghost use Rattle.shares.specs.Taking.{ending, checking, Distinct, EachOnce, RowTaken, RowsTaken};

use crate::rows::ROW;
use motion::Refusal;
use words::number_in;

/// Tells whether one of these rows is that of a body.
fn seen_in(rows: &[[u8; ROW]], body: usize) -> bool
    ensures { result ≡ list_any (λ row. slice_index row 0 == body) rows.now }
{
    rows.iter().any(|row| usize::from(row[0]) == body)
}

/// Tells whether each of the first `bodies` has one of these rows.
fn all_seen_in(rows: &[[u8; ROW]], bodies: usize) -> bool
    ensures { result ≡ list_all (λ body. list_any (λ row. slice_index row 0 == body) rows.now) (range_with_len 0 bodies) }
{
    (0..bodies).all(|body| seen_in(rows, body))
}

/// Looks for a row of a body that does not exist or had a row before.
fn check_bodies(rows: &[[u8; ROW]], count: usize) -> Result<(), Refusal>
    ensures { (bytes : List ℕ) → rows.now ≡ rows_of bytes → MatchResult result (λ _. (checking count bytes ≡ ending count bytes) × Distinct count bytes (rows_in bytes)) (λ e. refused (number_of e) (place_of e) ≡ checking count bytes) }
{
    for (k, row) in rows.iter().enumerate() {
        let body = usize::from(row[0]);
        if body >= count || seen_in(&rows[..k], body) {
            return Err(Refusal::Row(k));
        }
    }
    Ok(())
}

/// Looks whether each of the first `count` bodies has exactly one row.
pub(crate) fn check_rows(bytes: &[u8], count: usize) -> Result<(), Refusal>
    ensures answer { told result ≡ checking count bytes.now }
    ensures once { OnOk result (EachOnce count bytes.now) }
{
    let (rows, rest) = bytes.as_chunks::<ROW>();
    check_bodies(rows, count)?;
    if !rest.is_empty() {
        return Err(Refusal::Length(bytes.len()));
    }
    if !all_seen_in(rows, count) {
        return Err(Refusal::Row(rows.len()));
    }
    Ok(())
}

/// Writes a row into a body's six words.
// A slice of six, and no array: a part that is lent to be written is a slice.
fn take_row(row: &[u8; ROW], words: &mut [u64])
    requires { length words.old ≡ 6 }
    ensures { RowTaken row.now words.new }
{
    // The axis is counted: after writes through `as_chunks_mut` a proof knows no word of `words`.
    for a in 0..3 {
        words[2 * a + 1] = number_in(&row[1 + 8 * a..9 + 8 * a]);
        words[2 * a] = number_in(&row[25 + 8 * a..33 + 8 * a]);
    }
}

/// Writes rows into the words of their bodies.
pub(crate) fn take_rows(bytes: &[u8], state: &mut [u64])
    requires { EachOnce (length state.old / 6) bytes.now }
    ensures { RowsTaken bytes.now (rows_in bytes.now) state.new }
{
    for row in bytes.as_chunks::<ROW>().0 {
        let body = usize::from(row[0]);
        take_row(row, &mut state[6 * body..6 * body + 6]);
    }
}
