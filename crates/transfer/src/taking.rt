//! A state out of a parcel and the own pages.

ghost use Rattle.std.specs.Prelude.{◌≡◌, [], Some, None, IfOk, IfErr};
ghost use Rattle.wire.specs.Record.{Refused};
ghost use Rattle.pages.specs.Form.{layout_of};
ghost use Rattle.pages.specs.Page.{of_each};
ghost use Rattle.pages.specs.Joined.{ArePages, items_of, joined_pages};
ghost use Rattle.transfer.specs.Parcel.{page_from, joined_with, take_of};

use crate::numbered_page::NumberedPage;
use crate::parcel::Parcel;
use executor::Committed;
use pages::{Layout, Page, Pages, Snapshot};
use proto::Fault;
use states::{Parts, fits_form, layout_of};
use std::alloc::{AllocError, Global};
use token::{HashedSessions, Token};

/// Puts each page that came in the place of the own one of its number.
fn put_all(own: Vec<Page>, came: Vec<NumberedPage>) -> Vec<Page>
    requires { ArePages (items_of own.items) }
    ensures are { ArePages (items_of result.items) }
    ensures is { items_of result.items ≡ of_each (page_from (joined_pages (items_of own.items)) came.items) }
{
    let mut pages = own;
    let mut came = came;
    while let Some(page) = came.pop() {
        let number = page.number();
        pages[number] = page.into_page();
    }
    pages
}

/// The own pages, shared, with those that came in their places. A page is laid out anew only if it is in
/// another layout, and its digest is computed only then or if it came without one.
fn joined_pages(
    own: &Snapshot,
    came: Vec<NumberedPage>,
    layout: Layout,
) -> Result<Snapshot, AllocError>
    ensures { IfOk result (λ pages. pages ≡ record { items = joined_with own.now.items came.items; layout = layout }) }
{
    let shared = own.open()?.part()?;
    Pages::join(put_all(shared, came)).seal(layout)
}

/// The parts of the state that a parcel makes over the own pages.
fn parts_over(own: &Snapshot, parcel: Parcel) -> Result<Parts, AllocError>
    ensures { IfOk result (λ parts. parts ≡ record { origin = parcel.origin; sessions = parcel.sessions; pages = record { items = joined_with own.now.items parcel.pages; layout = layout_of parcel.origin.form } }) }
{
    let Parcel {
        origin,
        sessions,
        pages,
    } = parcel;
    Ok(Parts {
        origin,
        sessions: HashedSessions::new(sessions),
        pages: joined_pages(own, pages, layout_of(origin.form))?,
    })
}

/// The state of this number and this token, which a parcel makes over the own pages: those that came
/// are put in the places of the own ones. The token is that of the items and sessions that this makes,
/// whatever the sender said. No reply comes with it.
///
/// A page that is in the layout of the parcel's form and keeps its digest is taken without a walk over
/// its items. Form 1 alone walks all of them, for its limits and its root.
///
/// `BadRecord`: the parcel makes a state of another number or token, or one that its form may not
/// have. `NoMemory` is the only other error. The own pages stay as they are, and are shared with the state that was taken.
pub fn take(
    alloc: Global,
    own: &Snapshot,
    parcel: Parcel,
    n: u64,
    token: &Token,
) -> Result<Committed, Fault>
    ensures taken { IfOk result (λ committed. (take_of own.now.items parcel n token.now ≡ Some committed.state) × (committed.replies ≡ [])) }
    ensures refused { IfErr result (λ fault. Refused fault (take_of own.now.items parcel n token.now ≡ None)) }
{
    if parcel.number() != n {
        return Err(Fault::BadRecord);
    }
    parcel.is_parcel();
    let parts = parts_over(own, parcel)?;
    if !fits_form(parts.origin.form, &parts.pages) {
        return Err(Fault::BadRecord);
    }
    let committed = Committed::of_parts(alloc, parts);
    if committed.state().token() != *token {
        return Err(Fault::BadRecord);
    }
    Ok(committed)
}
