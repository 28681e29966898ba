//! What a line of the input asks for.

/// How keys look.
#[derive(Clone, Copy, PartialEq, Eq)]
pub enum KeyKind {
    /// `key:` and a number.
    Numbered,
    /// `sess:` and 32 hexadecimal digits.
    Session,
}

/// One run.
#[derive(Clone, Copy)]
pub struct Plan {
    pub keys: KeyKind,
    pub items: u32,
    /// How many bytes the block of an item has.
    pub bytes: u32,
    pub workers: u32,
    /// How many batches of each kind are executed.
    pub rounds: u32,
}

fn kind_of(word: &str) -> Option<KeyKind> {
    match word {
        "numbered" => Some(KeyKind::Numbered),
        "session" => Some(KeyKind::Session),
        _ => None,
    }
}

/// The run that a line asks for. `None`: it asks for none.
pub fn plan_of(line: &str) -> Option<Plan> {
    let mut words = line.split_whitespace();
    let keys = kind_of(words.next()?)?;
    let mut numbers = [0u32; 4];
    for at in 0..4usize {
        numbers[at] = words.next()?.parse::<u32>().ok()?;
    }
    let [items, bytes, workers, rounds] = numbers;
    Some(Plan {
        keys,
        items,
        bytes,
        workers,
        rounds,
    })
}
