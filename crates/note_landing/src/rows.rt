//! Rows that take exceptions.

ghost use Rattle.std.specs.Prelude.{◌≡◌, ◌&&◌, ℕ, IfSome};
ghost use Rattle.tx_code.specs.Meaning.{find, covers, takes};

use tx_code::Row;

// Whether a row covers an index.
fn covers(row: &Row, index: u32) -> bool
    ensures { result ≡ covers row.now index }
{
    row.from <= index && index < row.to
}

// Whether a row covers an index and takes a type.
fn is_taken(row: &Row, index: u32, number: usize) -> bool
    ensures { result ≡ (covers row.now index && takes row.now number) }
{
    row.from <= index && index < row.to && (row.what != 1 || row.ty as usize == number)
}

/// The first row that covers the index and takes the type with this number.
pub(crate) fn find_row(rows: &[Row], index: u32, number: usize) -> Option<Row>
    ensures { result ≡ find rows.now index number }
{
    for row in rows {
        if is_taken(row, index, number) {
            return Some(*row);
        }
    }
    None
}

/// The first row that covers the index, or none; but nothing where that row takes one type.
pub(crate) fn find_for_all(rows: &[Row], index: u32) -> Option<Option<Row>>
    ensures { IfSome result (λ o. (number : ℕ) → find rows.now index number ≡ o) }
{
    for row in rows {
        if covers(row, index) {
            if row.what == 1 {
                return None;
            }
            return Some(Some(*row));
        }
    }
    Some(None)
}
