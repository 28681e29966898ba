//! States to be handed over.

ghost use Rattle.std.specs.Prelude.{◌≡◌, IfOk};
ghost use Rattle.items.specs.Map.{Items};
ghost use Rattle.pages.specs.Form.{FitForm, layout_of};

use items::{Item, Store};
use pages::{Layout, Pages, Snapshot};
use proto::{Block, Fault, Key, is_key_text};
use sessions::Sessions;
use states::{Origin, Parts, State};
use std::alloc::{AllocError, Global};
use token::{Form, HashedSessions, Token};
use transfer::{Need, Parcel, answer, take};
use wire::read;

/// The key of this byte, or else `k`.
fn key(alloc: Global, byte: u8) -> Result<Key, AllocError> {
    if is_key_text(&[byte]) {
        return Ok(Key::from_slice(alloc, &[byte])?);
    }
    Ok(Key::from_slice(alloc, &[b'k'])?)
}

/// Puts an item of one byte at the key of this byte.
fn put(alloc: Global, pages: &mut Pages, at: u8, data: u8) -> Result<(), AllocError> {
    let item = Item {
        block: Block::from_slice(alloc, &[data])?,
        flags: 0,
        due: None,
        unique: 64,
    };
    pages.put(key(alloc, at)?, item)
}

/// Pages with an item of each of these pairs of a key and its data, in this layout.
fn snapshot(alloc: Global, layout: Layout, rows: &[(u8, u8)]) -> Result<Snapshot, AllocError>
    ensures { IfOk result (λ pages. pages.layout ≡ layout) }
{
    let mut pages = Pages::new(alloc)?;
    for row in rows {
        put(alloc, &mut pages, row.0, row.1)?;
    }
    pages.seal(layout)
}

/// Client 1 was answered `STORED` to its request 1.
pub const ONE_SESSION: &[u8] = &[3, 0, 0, 0, 1, 0, 1, 0, 0, 0, 0, 0, 0, 0, 1, 0];

/// The form of today of states whose pages have this layout.
fn form_of(layout: Layout) -> Form
    ensures laid { layout_of result ≡ layout }
    ensures fit { (m : Items) → FitForm result m }
{
    match layout {
        Layout::Sorted => Form::Current,
        Layout::Tree => Form::Tree,
    }
}

/// What a state of this number is made of.
fn parts(number: u64, sessions: Sessions, pages: Snapshot) -> Parts
    ensures number { result.origin.number ≡ number }
    ensures form { FitForm result.origin.form result.pages.items }
    ensures laid { result.pages.layout ≡ layout_of result.origin.form }
{
    Parts {
        origin: Origin {
            form: form_of(pages.layout()),
            number,
            previous: Token([7; 32]),
            epoch: 4,
            batch: [9; 32],
            moment: 1000,
        },
        sessions: HashedSessions::new(sessions),
        pages,
    }
}

/// The state of number 2 whose pages have this layout, without sessions.
pub fn second_in(alloc: Global, layout: Layout, rows: &[(u8, u8)]) -> Result<State, Fault> {
    let pages = snapshot(alloc, layout, rows)?;
    let sessions = Sessions::new(alloc)?;
    Ok(State::of_parts(alloc, parts(2, sessions, pages)))
}

pub fn second(alloc: Global, rows: &[(u8, u8)]) -> Result<State, Fault> {
    second_in(alloc, Layout::Sorted, rows)
}

/// The state of number 3 whose pages have this layout: client 1 was answered `STORED` to its request 1.
pub fn third_in(alloc: Global, layout: Layout, rows: &[(u8, u8)]) -> Result<State, Fault> {
    let pages = snapshot(alloc, layout, rows)?;
    let sessions = read::<Sessions>(alloc, ONE_SESSION)?;
    Ok(State::of_parts(alloc, parts(3, sessions, pages)))
}

/// What the state that has more answers to the need.
fn answer_to(alloc: Global, need: &Need, more: &State) -> Result<Parcel, Fault> {
    if more.number() == 0 {
        return Err(Fault::Unfit);
    }
    Ok(answer(alloc, more, need)?)
}

/// What the state that has more answers to the need of the own one.
pub fn answered(alloc: Global, own: &State, more: &State) -> Result<Parcel, Fault> {
    let need = Need::of_state(alloc, own)?;
    answer_to(alloc, &need, more)
}

/// Whether two states are of one number and token and of the same root over their pages.
fn are_alike(a: &State, b: &State) -> bool {
    a.number() == b.number() && a.token() == b.token() && a.pages().root() == b.pages().root()
}

/// Whether the parcel makes the state that has more over the own pages, and is taken as that.
pub fn is_taken(alloc: Global, own: &State, parcel: Parcel, more: &State) -> Result<bool, Fault> {
    match take(alloc, own.pages(), parcel, more.number(), &more.token()) {
        Ok(taken) => Ok(taken.replies().is_empty() && are_alike(taken.state(), more)),
        Err(Fault::BadRecord) => Ok(false),
        Err(fault) => Err(fault),
    }
}

/// Whether the parcel is refused if a state of this number and token is asked for.
pub fn is_refused(
    alloc: Global,
    own: &State,
    parcel: Parcel,
    n: u64,
    token: &Token,
) -> Result<bool, Fault> {
    match take(alloc, own.pages(), parcel, n, token) {
        Ok(_) => Ok(false),
        Err(Fault::BadRecord) => Ok(true),
        Err(fault) => Err(fault),
    }
}
