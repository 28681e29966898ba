ghost use Rattle.std.specs.Prelude.{◌≡◌, ℕ, IfOk, IfErr, OnOk, OnErr, ◌++◌, Some};
ghost use Rattle.std.specs.Option.{option_copied};
ghost use Rattle.item_steps.specs.Effect.{effect, changed, updated, stored, with_data, swapped, touched, recounted, counted, number_of, kept, new_item, changed_item};
ghost use Rattle.item_steps.specs.declared.step.Stamp.{Stamp};

use crate::number::{decimal_block, number_in};
use crate::step::{Answer, Stamp, Step};
use items::{Item, Store, due_at};
use proto::{Block, Key, MOST_BLOCK_BYTES, Reply, StoreVerb, Update};
use std::alloc::{AllocError, Global};

/// What an update does to the item of its key.
#[derive(Drop)]
pub enum Change {
    Leave,
    Put(Item),
    Remove,
}

/// Does one step at its place.
pub fn apply<S: Store>(
    alloc: Global,
    store: &mut S,
    step: &Step,
    place: Stamp,
) -> Result<Answer, AllocError>
    ensures contents { OnOk result (S.contents store.new ≡ (effect (S.contents store.old) step.now place).0) }
    ensures answer { IfOk result (λ answer. answer ≡ (effect (S.contents store.old) step.now place).1) }
    ensures err { OnErr result (S.contents store.new ≡ S.contents store.old) }
{
    match step {
        Step::Read(key) => Ok(Answer::Seen(copy_found(store.get(key))?)),
        Step::ReadAndTouch { key, exptime } => {
            let found = store.get(key);
            let seen = copy_found(found)?;
            let (change, _) = touch_item(*exptime, place, found)?;
            make(store, key, change)?;
            Ok(Answer::Seen(seen))
        }
        Step::Update(update) => {
            let (change, reply) = update_item(alloc, update, place, store.get(update.key()))?;
            make(store, update.key(), change)?;
            Ok(Answer::Did(reply))
        }
    }
}

/// Makes a change to the item of the key.
fn make<S: Store>(store: &mut S, key: &Key, change: Change) -> Result<(), AllocError>
    ensures ok { OnOk result (S.contents store.new ≡ changed (S.contents store.old) key.now change) }
    ensures err { OnErr result (S.contents store.new ≡ S.contents store.old) }
{
    match change {
        Change::Leave => Ok(()),
        Change::Put(item) => store.put(key.clone()?, item),
        Change::Remove => store.remove(key),
    }
}

fn copy_found(found: Option<&Item>) -> Result<Option<Item>, AllocError>
    ensures { IfOk result (λ copy. copy ≡ option_copied found.entry) }
{
    match found {
        None => Ok(None),
        Some(item) => Ok(Some(item.clone()?)),
    }
}

fn keep(item: Item, moment: u32) -> Change
    ensures { result ≡ kept moment item }
{
    if item.is_alive(moment) {
        Change::Put(item)
    } else {
        Change::Remove
    }
}

fn item_of(place: Stamp, flags: u32, exptime: i32, block: &Block) -> Result<Item, AllocError>
    ensures { IfOk result (λ item. item ≡ new_item place flags exptime block.now) }
{
    let unique = place.stamp;
    Ok(Item {
        block: block.clone()?,
        flags,
        due: due_at(exptime, place.moment),
        unique,
    })
}

/// The item with other data; flags and due time stay.
fn changed_item(old: &Item, place: Stamp, block: Block) -> Item
    ensures { result ≡ changed_item place old.now block }
{
    Item {
        block,
        flags: old.flags,
        due: old.due,
        unique: place.stamp,
    }
}

#[tactic(auto, unfolding(crate::specs::Effect::updated))]
fn update_item(
    alloc: Global,
    update: &Update,
    place: Stamp,
    old: Option<&Item>,
) -> Result<(Change, Reply), AllocError>
    ensures { IfOk result (λ done. done ≡ updated update.now place (option_copied old.entry)) }
{
    match update {
        Update::Store {
            verb,
            flags,
            exptime,
            block,
            ..
        } => store_item(alloc, *verb, *flags, *exptime, block, place, old),
        Update::Cas {
            flags,
            exptime,
            block,
            unique,
            ..
        } => swap_item(*unique, *flags, *exptime, block, place, old),
        Update::Delete { .. } => Ok(match old {
            None => (Change::Leave, Reply::NotFound),
            Some(_) => (Change::Remove, Reply::Deleted),
        }),
        Update::Touch { exptime, .. } => touch_item(*exptime, place, old),
        Update::Incr { delta, .. } => match old_number(old) {
            Err(reply) => Ok((Change::Leave, reply)),
            Ok((old, n)) => count_item(alloc, old, place, n.wrapping_add(*delta)),
        },
        Update::Decr { delta, .. } => match old_number(old) {
            Err(reply) => Ok((Change::Leave, reply)),
            Ok((old, n)) => count_item(alloc, old, place, n.saturating_sub(*delta)),
        },
    }
}

fn store_item(
    alloc: Global,
    verb: StoreVerb,
    flags: u32,
    exptime: i32,
    block: &Block,
    place: Stamp,
    old: Option<&Item>,
) -> Result<(Change, Reply), AllocError>
    ensures { IfOk result (λ done. done
        ≡ stored verb (new_item place flags exptime block.now) place block.now (option_copied old.entry)) }
{
    match (verb, old) {
        (StoreVerb::Set, _) | (StoreVerb::Add, None) | (StoreVerb::Replace, Some(_)) => {
            let item = item_of(place, flags, exptime, block)?;
            Ok((keep(item, place.moment), Reply::Stored))
        }
        (StoreVerb::Append, Some(old)) => {
            join_items(alloc, old, place, old.block.as_slice(), block.as_slice())
        }
        (StoreVerb::Prepend, Some(old)) => {
            join_items(alloc, old, place, block.as_slice(), old.block.as_slice())
        }
        (StoreVerb::Add, Some(_))
        | (StoreVerb::Replace, None)
        | (StoreVerb::Append, None)
        | (StoreVerb::Prepend, None) => Ok((Change::Leave, Reply::NotStored)),
    }
}

fn join_items(
    alloc: Global,
    old: &Item,
    place: Stamp,
    front: &[u8],
    back: &[u8],
) -> Result<(Change, Reply), AllocError>
    ensures { IfOk result (λ done. done ≡ with_data place old.now (front.now ++ back.now)) }
{
    if front.len() > MOST_BLOCK_BYTES || back.len() > MOST_BLOCK_BYTES - front.len() {
        return Ok((Change::Leave, Reply::TooLarge));
    }
    let mut block = Vec::with_capacity(alloc, front.len() + back.len())?;
    block.extend_from_slice(front)?;
    block.extend_from_slice(back)?;
    let item = changed_item(old, place, Block::new(block)?);
    Ok((Change::Put(item), Reply::Stored))
}

fn swap_item(
    unique: u64,
    flags: u32,
    exptime: i32,
    block: &Block,
    place: Stamp,
    old: Option<&Item>,
) -> Result<(Change, Reply), AllocError>
    ensures { IfOk result (λ done. done
        ≡ swapped unique (new_item place flags exptime block.now) place (option_copied old.entry)) }
{
    match old {
        None => Ok((Change::Leave, Reply::NotFound)),
        Some(old) => {
            if old.unique != unique {
                return Ok((Change::Leave, Reply::Exists));
            }
            let item = item_of(place, flags, exptime, block)?;
            Ok((keep(item, place.moment), Reply::Stored))
        }
    }
}

fn touch_item(exptime: i32, place: Stamp, old: Option<&Item>) -> Result<(Change, Reply), AllocError>
    ensures { IfOk result (λ done. done ≡ touched exptime place (option_copied old.entry)) }
{
    match old {
        None => Ok((Change::Leave, Reply::NotFound)),
        Some(old) => {
            let item = Item {
                block: old.block.clone()?,
                flags: old.flags,
                due: due_at(exptime, place.moment),
                unique: old.unique,
            };
            Ok((keep(item, place.moment), Reply::Touched))
        }
    }
}

/// The item that is a number, with that, or the reply if there is none.
fn old_number(old: Option<&Item>) -> Result<(&Item, u64), Reply>
    ensures found { IfOk result (λ r. (option_copied old.entry ≡ Some r.0.now) × (number_of r.0.now.block ≡ Some r.1)) }
    ensures missing { IfErr result (λ reply. (f : ℕ → ℕ) (place : Stamp)
        → recounted f place (option_copied old.entry) ≡ (Change.Leave, reply)) }
{
    match old {
        None => Err(Reply::NotFound),
        Some(old) => match number_in(old.block.as_slice()) {
            None => Err(Reply::NotNumber),
            Some(n) => Ok((old, n)),
        },
    }
}

fn count_item(
    alloc: Global,
    old: &Item,
    place: Stamp,
    value: u64,
) -> Result<(Change, Reply), AllocError>
    ensures { IfOk result (λ done. done ≡ counted (λ _. value) place old.now (Some value)) }
{
    let item = changed_item(old, place, decimal_block(alloc, value)?);
    Ok((Change::Put(item), Reply::Number(value)))
}
