//! The answer to a node that tells what it has.

ghost use Rattle.std.specs.Prelude.{◌≡◌, ◌<◌, ◌++◌, IfOk, OnOk};
ghost use Rattle.pages.specs.Page.{page_items, page_count};
ghost use Rattle.transfer.specs.Parcel.{answer_of, differing, differing_pages};

use crate::need::Need;
use crate::numbered_page::NumberedPage;
use crate::parcel::Parcel;
use pages::{PAGES, Page};
use states::State;
use std::alloc::{AllocError, Global};

/// Adds a page of the state, if it has another digest than the need tells of.
fn add_differing(
    pages: &mut Vec<NumberedPage>,
    state: &State,
    need: &Need,
    number: usize,
    page: &Page,
) -> Result<(), AllocError>
    requires within { number < page_count }
    requires is { page.now.items ≡ page_items state.now.items number }
    ensures { OnOk result (pages.new.items ≡ pages.old.items ++ differing state.now need.now number) }
{
    if state.pages().digest(number) != need.digests.as_slice()[number] {
        let layout = state.pages().layout();
        pages.push(NumberedPage::new(number, layout, page.clone()?)?)?;
    }
    Ok(())
}

/// The pages of the state that have other digests than the need tells of.
fn differing_from(
    alloc: Global,
    state: &State,
    need: &Need,
) -> Result<Vec<NumberedPage>, AllocError>
    ensures { IfOk result (λ pages. pages.items ≡ differing_pages state.now need.now) }
{
    let shared = state.pages().open()?.part()?;
    let mut pages = Vec::new(alloc);
    for number in 0..PAGES {
        add_differing(&mut pages, state, need, number, &shared[number])?;
    }
    Ok(pages)
}

/// What the node that said this needs of the state: its fields and its sessions, and of its pages those
/// that have other digests. All is shared with the state: no entry is copied, and no digest is computed.
/// The only error is a failed allocation.
pub fn answer(alloc: Global, state: &State, need: &Need) -> Result<Parcel, AllocError>
    requires { 0 < state.now.number }
    ensures { IfOk result (λ parcel. parcel ≡ answer_of state.now need.now) }
{
    state.is_state();
    Ok(Parcel {
        origin: state.origin(),
        sessions: state.sessions().clone()?,
        pages: differing_from(alloc, state, need)?,
    })
}
