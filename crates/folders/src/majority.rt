ghost use Rattle.std.specs.Prelude.{◌≡◌, ◌↔◌, IsSome, IfSome, is_some, length, count_by};
ghost use Rattle.folders.specs.Folders.{IsMajority, IsNewest, IsNewestOf, later_of};

use crate::stamp::SaveStamp;

/// The later of the newest record so far and this one, if it was read, with its index. The first of equal ones stays.
fn later(
    newest: Option<(usize, SaveStamp)>,
    at: usize,
    stamp: Option<SaveStamp>,
) -> Option<(usize, SaveStamp)>
    ensures { result ≡ later_of newest at stamp }
{
    match (newest, stamp) {
        (_, None) => newest,
        (Some((_, best)), Some(stamp)) if !stamp.is_later_than(best) => newest,
        (_, Some(stamp)) => Some((at, stamp)),
    }
}

/// The newest of the records that were read, with its index: the first of equal ones.
fn newest_read(stamps: &[Option<SaveStamp>]) -> Option<(usize, SaveStamp)>
    ensures { IsNewestOf stamps.now (length stamps.now) result }
{
    let mut newest = None;
    for (at, stamp) in stamps.iter().enumerate() {
        newest = later(newest, at, *stamp);
    }
    newest
}

/// The folder whose record is the newest of those that were read, if they are more than half of all. `None` stands for
/// a folder that was not read. Folders with the same stamp have the same record: the first of them is taken.
pub fn newest(stamps: &[Option<SaveStamp>]) -> Option<usize>
    ensures majority { IsSome result ↔ IsMajority (count_by is_some stamps.now) (length stamps.now) }
    ensures newest { IfSome result (IsNewest stamps.now) }
{
    let read = stamps.iter().filter(|stamp| stamp.is_some()).count();
    if read <= stamps.len() - read {
        return None;
    }
    match newest_read(stamps) {
        Some((at, _)) => Some(at),
        None => None,
    }
}
