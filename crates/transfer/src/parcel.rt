//! What a node sends of its state, and its record.

ghost use Rattle.std.specs.Prelude.{◌≡◌, ◌↔◌, IsTrue, IfOk};
ghost use Rattle.std.specs.Ordering.{nat_cmp, is_lt};
ghost use Rattle.std.specs.FinMap.{is_sorted};
ghost use Rattle.transfer.specs.Parcel.{AreLaid, IsParcel, parcel_text};
ghost use Rattle.transfer.specs.ParcelProofs.{parcel_prefix_free};

use crate::numbered_page::NumberedPage;
use batches::GREATEST_NUMBER;
use pages::Layout;
use proto::Fault;
use sessions::Sessions;
use states::{Origin, layout_of};
use std::alloc::{AllocError, Global};
use std::marker::Model;
use wire::{Counted, Record, Sink, put_list};

/// What a node sends of its state to one that has another: all but its token, and of its pages some.
/// The pages and the sessions are shared with the state that it was made of, and with its clones; the
/// pages are in the layout of the state's form, with the digests that they keep.
#[derive(Drop)]
pub struct Parcel {
    pub(crate) origin: Origin,
    pub(crate) sessions: Sessions,
    pub(crate) pages: Vec<NumberedPage>,
}

impl Model for Parcel {
    ghost use Rattle.std.specs.Coded.{coded_list, coded_ℕ};
    ghost use Rattle.std.specs.FinMap as map;
    ghost use Rattle.items.specs.contracts.item.Item as item;
    ghost use Rattle.sessions.specs.contracts.sessions.LastReply as last;
    ghost use Rattle.states.specs.contracts.origin.Origin as fields;
    ghost use Rattle.pages.specs.contracts.layout.Layout as kind;
    ghost use Rattle.pages.specs.Page.{laid_code};
    ghost use Rattle.transfer.specs.Parcel.{ParcelView, IsParcel, parcel_code};

    ghost Value = { ParcelView };

    ghost coded = { parcel_code fields.the_row.coded (map.code coded_ℕ last.the_row.coded) (laid_code (map.code (coded_list coded_ℕ) item.the_row.coded) kind.the_row.coded) };

    ghost view = { λ p. record { origin = p.origin; sessions = p.sessions; pages = p.pages.items } };

    ghost invariant = { λ p. IsParcel (record { origin = p.origin; sessions = p.sessions; pages = p.pages.items }) };
}

/// Whether the numbers of the pages strictly rise.
fn is_rising(pages: &[NumberedPage]) -> bool
    ensures { result ≡ is_sorted nat_cmp pages.now }
{
    pages.is_sorted_by(
        |a: &NumberedPage, b: &NumberedPage| -> bool
            ensures { result ≡ is_lt (nat_cmp a.now.0 b.now.0) }
        { a.number().cmp(&b.number()).is_lt() },
    )
}

/// Whether all pages are in this layout.
fn are_laid(pages: &[NumberedPage], layout: Layout) -> bool
    ensures { IsTrue result ↔ AreLaid layout pages.now }
{
    pages.iter().all(|page| page.is_laid(layout))
}

impl Parcel {
    /// How many batches led to the state that it was made of.
    pub fn number(&self) -> u64
        ensures { result ≡ self.now.origin.number }
    {
        self.origin.number
    }

    /// What is true of every parcel: see `IsParcel`. It does nothing.
    pub fn is_parcel(&self)
        ensures { IsParcel self.now }
    {
        let _pages = &self.pages;
    }
}

fn copied(pages: &Vec<NumberedPage>) -> Result<Vec<NumberedPage>, AllocError>
    ensures { IfOk result (λ copy. copy.items ≡ pages.now.items) }
{
    pages.clone()
}

impl Clone for Parcel {
    ghost is_clone = { λ parcel copy. copy ≡ parcel };

    fn clone(&self) -> Result<Parcel, AllocError> {
        Ok(Parcel {
            origin: self.origin,
            sessions: self.sessions.clone()?,
            pages: copied(&self.pages)?,
        })
    }
}

impl Record for Parcel {
    ghost fits = { IsParcel };

    ghost encoding = { parcel_text };

    fn put<S: Sink>(&self, sink: &mut S) -> Result<(), S::Refusal> {
        self.origin.put(sink)?;
        self.sessions.put(sink)?;
        put_list(self.pages.as_slice(), sink)
    }

    fn take<'b>(alloc: Global, bytes: &'b [u8]) -> Result<(Parcel, &'b [u8]), Fault> {
        let (row, rest) = <((Origin, Sessions), Counted<NumberedPage>)>::take(alloc, bytes)?;
        let ((origin, sessions), listed) = row;
        let pages = listed.into_vec();
        if origin.number == 0 {
            return Err(Fault::BadRecord);
        }
        if GREATEST_NUMBER < origin.number {
            return Err(Fault::BadRecord);
        }
        if !is_rising(pages.as_slice()) {
            return Err(Fault::BadRecord);
        }
        if !are_laid(pages.as_slice(), layout_of(origin.form)) {
            return Err(Fault::BadRecord);
        }
        let parcel = Parcel {
            origin,
            sessions,
            pages,
        };
        Ok((parcel, rest))
    }

    ghost prefix_free = { parcel_prefix_free };
}
