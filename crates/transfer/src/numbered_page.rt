//! A page with its number.

ghost use Rattle.std.specs.Prelude.{◌≡◌, ◌<◌, ◌↔◌, IsTrue, IfOk};
ghost use Rattle.pages.specs.Page.{page_count};
ghost use Rattle.pages.specs.Joined.{IsOwn};
ghost use Rattle.transfer.specs.Parcel.{PageOf, numbered_text};
ghost use Rattle.transfer.specs.ParcelProofs.{numbered_prefix_free};

use pages::{Layout, Page};
use proto::Fault;
use std::alloc::{AllocError, Global};
use std::marker::Model;
use wire::{Record, Sink};

/// A page with its number, of which alone its keys are. Clones share the page, and the digest that it
/// keeps.
#[derive(Drop)]
pub struct NumberedPage {
    number: u8,
    page: Page,
}

impl Model for NumberedPage {
    ghost use Rattle.std.specs.Prelude.{ℕ};
    ghost use Rattle.std.specs.Coded.{coded×, coded_list, coded_ℕ};
    ghost use Rattle.std.specs.FinMap as map;
    ghost use Rattle.items.specs.contracts.item.Item as item;
    ghost use Rattle.pages.specs.contracts.layout.Layout as kind;
    ghost use Rattle.pages.specs.Page.{Laid, laid_code};
    ghost use Rattle.transfer.specs.Parcel.{PageOf};

    ghost Value = { ℕ × Laid };

    ghost coded = { coded× coded_ℕ (laid_code (map.code (coded_list coded_ℕ) item.the_row.coded) kind.the_row.coded) };

    ghost view = { λ n. (n.number, record { items = n.page.items; layout = n.page.layout }) };

    ghost invariant = { λ n. PageOf (n.number, record { items = n.page.items; layout = n.page.layout }) };
}

impl NumberedPage {
    /// The page with its number, in this layout. A page that is in it stays as it is. The only error is a
    /// failed allocation.
    pub fn new(number: usize, layout: Layout, page: Page) -> Result<NumberedPage, AllocError>
        requires within { number < page_count }
        requires own { IsOwn number page.items }
        ensures { IfOk result (λ numbered. numbered ≡ (number, record { items = page.items; layout = layout })) }
    {
        let mut page = page;
        page.lay_out(layout)?;
        Ok(NumberedPage {
            number: number as u8,
            page,
        })
    }

    /// Its number.
    pub fn number(&self) -> usize
        ensures number { result ≡ self.now.0 }
        ensures within { result < page_count }
    {
        usize::from(self.number)
    }

    /// Whether the page is in this layout.
    pub fn is_laid(&self, layout: Layout) -> bool
        ensures { IsTrue result ↔ (self.now.1.layout ≡ layout) }
    {
        self.page.layout() == layout
    }

    /// The page, without its number.
    pub fn into_page(self) -> Page
        ensures page { result.items ≡ self.1.items }
        ensures own { IsOwn self.0 self.1.items }
    {
        self.page
    }
}

impl Clone for NumberedPage {
    ghost is_clone = { λ page copy. copy ≡ page };

    fn clone(&self) -> Result<NumberedPage, AllocError> {
        Ok(NumberedPage {
            number: self.number,
            page: self.page.clone()?,
        })
    }
}

/// The number, and the text of the page, by its layout.
impl Record for NumberedPage {
    ghost fits = { PageOf };

    ghost encoding = { numbered_text };

    fn put<S: Sink>(&self, sink: &mut S) -> Result<(), S::Refusal> {
        self.number.put(sink)?;
        self.page.put_text(sink)
    }

    fn take<'b>(alloc: Global, bytes: &'b [u8]) -> Result<(NumberedPage, &'b [u8]), Fault> {
        let (number, page_bytes) = u8::take(alloc, bytes)?;
        let (page, rest) = Page::take(alloc, page_bytes)?;
        if !page.is_own(alloc, usize::from(number))? {
            return Err(Fault::BadRecord);
        }
        Ok((NumberedPage { number, page }, rest))
    }

    ghost prefix_free = { numbered_prefix_free };
}
