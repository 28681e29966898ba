//! Records that a keeper keeps.

ghost use Rattle.std.specs.Prelude.{◌≡◌, ◌∷◌, [], IfOk};

use base::Text;
use keeper::{Keeper, MemKeeper, ToText, save_record};
use std::alloc::{AllocError, Global};
use std::test::Fail;

fn text(alloc: Global, bytes: &[u8]) -> Result<Text, AllocError>
    ensures { IfOk result (λ text. text ≡ bytes.now) }
{
    let mut text = Text::new(alloc);
    text.put(bytes)?;
    Ok(text)
}

/// A value that stands for one byte.
#[derive(Drop)]
struct OneByte {
    byte: u8,
}

impl ToText for OneByte {
    ghost text = { λ one. one.byte ∷ [] };

    fn to_text(&self, alloc: Global) -> Result<Text, AllocError> {
        text(alloc, &[self.byte])
    }

    fn share(&self) -> Result<OneByte, AllocError> {
        Ok(OneByte { byte: self.byte })
    }
}

/// Whether the record is found, and has these bytes.
fn finds<R: ToText>(
    alloc: Global,
    keeper: &MemKeeper<R>,
    bytes: &[u8],
) -> Result<bool, AllocError> {
    match keeper.load() {
        Some(found) => Ok(found.to_text(alloc)?.joined(alloc)?.as_slice() == bytes),
        None => Ok(false),
    }
}

/// A step of a row.
enum Step {
    /// Nothing is found.
    FindsNone,
    /// This is found, after so many saves that failed.
    Finds(&'static [u8], u64),
    /// The next save is set to fail.
    FailNext,
    /// This is saved, or its save fails.
    Save(&'static [u8], bool),
}

fn does(alloc: Global, keeper: &mut MemKeeper<Text>, step: &Step) -> Result<bool, AllocError> {
    match step {
        Step::FindsNone => Ok(keeper.load().is_none()),
        Step::Finds(bytes, failures) => {
            Ok(keeper.failures() == *failures && finds(alloc, keeper, *bytes)?)
        }
        Step::FailNext => {
            keeper.fail_next();
            Ok(true)
        }
        Step::Save(bytes, is_saved) => {
            Ok(save_record(text(alloc, *bytes)?, keeper).is_ok() == *is_saved)
        }
    }
}

/// Whether a new keeper does all steps, one after the other.
fn does_all(alloc: Global, steps: &[Step]) -> Result<bool, AllocError> {
    let mut keeper = MemKeeper::new();
    for step in steps {
        if !does(alloc, &mut keeper, step)? {
            return Ok(false);
        }
    }
    Ok(true)
}

const A_RECORD_IS_FOUND_WHOLE: &[Step] = &[
    Step::FindsNone,
    Step::Save(b"first", true),
    Step::Save(b"second", true),
    Step::Finds(b"second", 0),
];

const A_SAVE_THAT_FAILS_KEEPS_THE_OLD_RECORD: &[Step] = &[
    Step::Save(b"first", true),
    Step::FailNext,
    Step::FailNext,
    Step::Save(b"second", false),
    Step::Finds(b"first", 1),
    Step::Save(b"third", true),
    Step::Finds(b"third", 1),
];

/// Whether a record of another kind is kept as it is.
fn keeps_one_byte(alloc: Global) -> Result<bool, AllocError> {
    let mut keeper = MemKeeper::new();
    let is_saved = save_record(OneByte { byte: 7 }, &mut keeper).is_ok();
    keeper.fail_next();
    let is_refused = save_record(OneByte { byte: 8 }, &mut keeper).is_err();
    let is_kept = matches!(keeper.load(), Some(OneByte { byte: 7 }));
    Ok(is_saved && is_refused && is_kept && finds(alloc, &keeper, &[7])?)
}

#[test]
fn records(rt: HostRuntime) -> Result<(), Fail> {
    assert!(rt; does_all(rt.alloc(), A_RECORD_IS_FOUND_WHOLE)?);
    assert!(rt; does_all(rt.alloc(), A_SAVE_THAT_FAILS_KEEPS_THE_OLD_RECORD)?);
    assert!(rt; keeps_one_byte(rt.alloc())?);
    Ok(())
}
