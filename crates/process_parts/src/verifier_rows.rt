//! The rows of verifiers, and back.

ghost use Rattle.std.specs.Prelude.{◌≡◌, map, IfOk};
ghost use Rattle.process_parts.specs.Parts.{verifier_of_row};

use base::Text;
use keeper::{Keeper, MemKeeper};
use process_text::{LongText, VerifierRow};
use std::alloc::{AllocError, Global};

/// What is stored of a verifier's record. Its pieces are shared.
fn stored_text(keeper: &MemKeeper<Text>) -> Result<Option<LongText>, AllocError>
    ensures { IfOk result (λ stored. stored ≡ keeper.now.saved) }
{
    match keeper.load() {
        None => Ok(None),
        Some(text) => Ok(Some(LongText::new(text.clone()?))),
    }
}

/// The row of a verifier.
fn row_of_verifier(keeper: &MemKeeper<Text>) -> Result<VerifierRow, AllocError>
    ensures { IfOk result (λ row. verifier_of_row row ≡ keeper.now) }
{
    let stored = stored_text(keeper)?;
    Ok(VerifierRow {
        stored,
        failures: keeper.failures(),
        fails_next: keeper.is_set_to_fail(),
    })
}

/// A row for each verifier.
pub(crate) fn rows_of_verifiers(
    alloc: Global,
    keepers: &[MemKeeper<Text>],
) -> Result<Vec<VerifierRow>, AllocError>
    ensures { IfOk result (λ rows. map verifier_of_row rows.items ≡ keepers.now) }
{
    let mut rows = Vec::with_capacity(alloc, keepers.len())?;
    for keeper in keepers {
        rows.push(row_of_verifier(keeper)?)?;
    }
    Ok(rows)
}

/// The record of the row. Its pieces are shared.
fn text_in(row: &VerifierRow) -> Result<Option<Text>, AllocError>
    ensures { IfOk result (λ text. text ≡ row.now.stored) }
{
    match &row.stored {
        None => Ok(None),
        Some(stored) => Ok(Some(stored.as_text().clone()?)),
    }
}

/// The keeper of a row.
fn verifier_of(row: &VerifierRow) -> Result<MemKeeper<Text>, AllocError>
    ensures { IfOk result (λ keeper. keeper ≡ verifier_of_row row.now) }
{
    let mut keeper = MemKeeper::of(text_in(row)?, row.failures);
    if row.fails_next {
        keeper.fail_next();
    }
    Ok(keeper)
}

/// The keeper of each row.
pub(crate) fn verifiers_of(
    alloc: Global,
    rows: &[VerifierRow],
) -> Result<Vec<MemKeeper<Text>>, AllocError>
    ensures { IfOk result (λ keepers. keepers.items ≡ map verifier_of_row rows.now) }
{
    let mut keepers = Vec::with_capacity(alloc, rows.len())?;
    for row in rows {
        keepers.push(verifier_of(row)?)?;
    }
    Ok(keepers)
}
