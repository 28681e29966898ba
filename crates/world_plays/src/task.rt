//! What a line of the input asks for.

/// Which plays are made.
#[derive(Clone, Copy)]
pub enum Task<'a> {
    /// Of kinds, from the seed `first` on.
    Kinds(Seeds),
    /// The same, with trims of verifiers' logs among the events.
    Trimmed(Seeds),
    /// Of random events, from the seed `first` on.
    Random(Seeds),
    /// Of the row that is in the file of this name.
    Restarts(&'a str),
}

/// The seeds of which plays are made, and how many events each has.
#[derive(Clone, Copy)]
pub struct Seeds {
    pub first: u32,
    pub count: u32,
    pub events: u32,
}

/// Three numbers, parted by one space.
fn seeds_of(text: &str) -> Option<Seeds> {
    let (first, rest) = text.split_once(' ')?;
    let (count, events) = rest.split_once(' ')?;
    Some(Seeds {
        first: first.parse::<u32>().ok()?,
        count: count.parse::<u32>().ok()?,
        events: events.parse::<u32>().ok()?,
    })
}

/// The task of a line, if it has one.
pub fn task_of(line: &str) -> Option<Task<'_>> {
    let (word, rest) = line.split_once(' ')?;
    match word {
        "kinds" => Some(Task::Kinds(seeds_of(rest)?)),
        "trimmed" => Some(Task::Trimmed(seeds_of(rest)?)),
        "random" => Some(Task::Random(seeds_of(rest)?)),
        "restarts" => Some(Task::Restarts(rest)),
        _ => None,
    }
}
