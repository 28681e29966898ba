//! Whether what was read are certain items.

ghost use Rattle.std.specs.Prelude.{◌≡◌, ℕ, None, IsTrue, IfSome, IsNone};
ghost use Rattle.item_rows.specs.Changes.{with_change};
ghost use Rattle.shelf.specs.Rows.{row_of_change};
ghost use Rattle.shelf.specs.Found.{rows_found};
ghost use Rattle.shelf.specs.WaitingView.{changed_rows};

use crate::reading::FoundItems;
use item_rows::RowItems;
use item_tree::are_same;

/// Takes the last row that has items, with its items. `None`: no row has any.
fn pop_filled(found: &mut FoundItems) -> Option<RowItems>
    ensures some { IfSome result (λ row_items. (p : ℕ) → rows_found found.old p ≡ with_change (rows_found found.new) (row_of_change row_items) p) }
    ensures none { result ≡ None → (p : ℕ) → rows_found found.old p ≡ None }
{
    while let Some(row_items) = found.pop_last() {
        if !row_items.1.as_slice().is_empty() {
            return Some(row_items);
        }
    }
    None
}

/// Takes the last row that has items: whether it is this row, and they are these items.
fn pops_same(found: &mut FoundItems, row_items: &RowItems) -> bool
    ensures { IsTrue result → (p : ℕ) → rows_found found.old p ≡ with_change (rows_found found.new) (row_of_change row_items.now) p }
{
    match pop_filled(found) {
        Some(last) => last.0 == row_items.0 && are_same(last.1.as_slice(), row_items.1.as_slice()),
        None => false,
    }
}

/// Whether what was read are these items, in these rows, and no others. They have to be in the order of their numbers. It
/// takes what was read.
pub fn are_all(found: &mut FoundItems, row_items: &[RowItems]) -> bool
    ensures { IsTrue result → (p : ℕ) → rows_found found.old p ≡ changed_rows (λ _. None) row_items.now p }
{
    for index in 0..row_items.len() {
        if !pops_same(found, &row_items[row_items.len() - 1 - index]) {
            return false;
        }
    }
    pop_filled(found).is_none()
}
