//! Lines of one kind.

ghost use Rattle.std.specs.Prelude.{◌≡◌};
ghost use Rattle.daemon.specs.Told.{told_since, due_number, told_after};

/// How far lines of one kind have reported a count that only grows.
#[derive(Clone, Copy, Debug, PartialEq, Eq)]
pub struct Told {
    /// What was reported.
    pub count: u64,
    /// The second of the last line.
    pub second: Option<u64>,
}

impl Told {
    /// So much happened before the first line, and is not reported.
    pub fn new(count: u64) -> Told
        ensures { result ≡ told_since count }
    {
        Told {
            count,
            second: None,
        }
    }

    /// The count is so much in this second: the number that a line is to tell, if one is due. It is what came since the
    /// last line, and there is no line if nothing came or if this second had one.
    pub fn line(&mut self, count: u64, second: u64) -> Option<u64>
        ensures number { result ≡ due_number self.old count second }
        ensures after { self.new ≡ told_after self.old count second }
    {
        if count <= self.count || self.second == Some(second) {
            return None;
        }
        let number = count - self.count;
        self.count = count;
        self.second = Some(second);
        Some(number)
    }
}
