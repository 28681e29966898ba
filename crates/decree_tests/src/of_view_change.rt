//! What a leader may propose after the promises that it has.

use decrees::Decree;
use std::alloc::{AllocError, Global};
use std::test::Fail;
use token::Token;
use view_change::{Choice, Promise, Promises};

/// A promise: whom it is from, how many decrees that one knows, and the view in which it accepted a decree,
/// by the byte of its token.
type Row = (u8, u64, Option<(u64, u8)>);

const fn commit(byte: u8) -> Decree {
    Decree::Commit {
        n: 1,
        token: Token([byte; 32]),
    }
}

fn add_all(promises: &mut Promises, added: &[Row]) -> Result<(), AllocError> {
    for (from, known, accepted) in added {
        promises.add(Promise {
            from: *from,
            known: *known,
            accepted: match accepted {
                None => None,
                Some((view, byte)) => Some((*view, commit(*byte))),
            },
        })?;
    }
    Ok(())
}

/// The choice of one that knows so many decrees, after these promises; `u` is at most 3.
fn choice(alloc: Global, added: &[Row], known: u64, u: u8) -> Result<Choice, AllocError> {
    let mut promises = Promises::new(alloc);
    add_all(&mut promises, added)?;
    Ok(promises.choice(u.min(3), known))
}

const FROM_2: Row = (2, 0, None);
/// Another one of the same, which does not count.
const FROM_2_AGAIN: Row = (2, 0, Some((9, 9)));

const FROM_1: Row = (1, 0, None);

const FROM_0: Row = (0, 0, Some((0, 5)));

const FOUR: &[Row] = &[FROM_2, FROM_2_AGAIN, FROM_1, FROM_0];

/// The highest view is 8, and its lowest sender 1: the last one knows fewer decrees.
const VIEWS: &[Row] = &[
    (4, 3, Some((7, 4))),
    (3, 3, Some((8, 3))),
    (1, 3, Some((8, 1))),
    (0, 2, Some((9, 9))),
];

#[test]
fn choices(rt: HostRuntime) -> Result<(), Fail> {
    let five = Choice::Must(commit(5));
    // The promises, what is known, and how many may fail.
    let rows: [(&[Row], u64, u8, Choice); 8] = [
        (&[], 0, 1, Choice::Wait),
        (&[FROM_2, FROM_2_AGAIN], 0, 1, Choice::Wait),
        (&[FROM_2, FROM_2_AGAIN, FROM_1], 0, 1, Choice::Free),
        (FOUR, 0, 1, five),
        (FOUR, 1, 1, Choice::Free),
        (FOUR, 0, 2, five),
        (VIEWS, 3, 2, Choice::Must(commit(1))),
        (VIEWS, 2, 2, Choice::Wait),
    ];
    for (added, known, u, wanted) in rows {
        let found = choice(rt.alloc(), added, known, u)?;
        assert!(rt; found == wanted, "{} {known} {u}", added.len());
    }
    Ok(())
}
