//! Rows of a share in bytes: for each body its number, three momenta and three positions.
ghost use Rattle.std.specs.Prelude.{◌≡◌, ℕ, ◌*◌, ◌/◌, ◌<◌, ◌≤◌, false, not, length, slice_index_or};
ghost use Rattle.motion.specs.Changes.{member};
ghost use Rattle.shares.specs.Rows.{RowWritten, RowsWritten, members};

use motion::in_share;
use words::write_number;

/// The bytes of a row.
pub(crate) const ROW: usize = 49;

/// Writes the row of a body, by its six words.
// The row is a slice of 49, and no array: a part that is lent to be written is a slice.
fn write_row(words: &[u64; 6], body: u8, row: &mut [u8])
    requires { length row.old ≡ 49 }
    ensures { RowWritten words.now body row.new }
{
    row[0] = body;
    for (a, axis) in words.as_chunks::<2>().0.iter().enumerate() {
        let [position, momentum] = *axis;
        write_number(&mut row[1 + 8 * a..9 + 8 * a], momentum);
        write_number(&mut row[25 + 8 * a..33 + 8 * a], position);
    }
}

/// Counts the bodies of a share among the first `count`.
pub(crate) fn count_members(share: &[bool], count: usize) -> usize
    ensures value { result ≡ members share.now count }
    ensures bound { result ≤ count }
{
    share.iter().take(count).filter(|member| **member).count()
}

/// Writes the rows of a share's bodies, by the words of a state.
pub(crate) fn write_rows(share: &[bool], words: &[u64], rows: &mut [u8])
    requires words { length words.now ≤ 6 * 64 }
    requires rows { length rows.old ≡ 49 * members share.now (length words.now / 6) }
    ensures { RowsWritten share.now words.now (length words.now / 6) rows.new }
{
    // Each row is lent by its place: after writes through `chunks_exact_mut` a proof knows no byte of `rows`.
    let mut at = 0;
    for (b, body) in words.as_chunks::<6>().0.iter().enumerate() {
        if in_share(share, b) {
            // There are at most 64 bodies, so nothing is cut off, and `u8::try_from` would add an error that never comes.
            write_row(body, b as u8, &mut rows[at..at + ROW]);
            at += ROW;
        }
    }
}

/// Writes the bodies that are not in a share.
// A loop, since `map` of an array collects anew: a shared step of one body took 1.4 times as long, and twice the instructions.
pub(crate) fn complement(share: &[bool], others: &mut [bool])
    ensures { (b : ℕ) → b < length others.new → slice_index_or others.new b false ≡ not (member share.now b) }
{
    for (body, other) in others.iter_mut().enumerate() {
        *other = !in_share(share, body);
    }
}
