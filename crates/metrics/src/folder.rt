//! The folders of `--data`.

ghost use Rattle.std.specs.Prelude.{◌≡◌, ◌≤◌, length, take};
ghost use Rattle.metrics.specs.declared.folder.TheConstants.{MOST_FOLDERS};

/// So many folders are shown one by one.
pub const MOST_FOLDERS: usize = 9;

/// What is known of one folder.
#[derive(Clone, Copy, Debug, PartialEq, Eq)]
pub struct FolderFigures {
    /// Whether its copy is of the last save.
    pub is_current: bool,
    /// Saves since the start that were made in it.
    pub made: u64,
    /// Saves since the start that were not.
    pub failed: u64,
    /// In which second since 1970 the last save was made in it, as far as was seen. 0: none was.
    pub saved_at: u64,
    /// Bytes of its files.
    pub bytes: u64,
}

impl FolderFigures {
    /// Nothing is saved in it.
    pub const NONE: FolderFigures = FolderFigures {
        is_current: false,
        made: 0,
        failed: 0,
        saved_at: 0,
        bytes: 0,
    };
}

/// What is known of each folder.
#[derive(Clone, Copy, Debug, PartialEq, Eq)]
pub struct Folders {
    /// How many there are.
    pub count: u8,
    /// The folders, in the order in which they were given. Those from `count` on are not there.
    pub each: [FolderFigures; MOST_FOLDERS],
}

impl Folders {
    /// There is none.
    pub const NONE: Folders = Folders {
        count: 0,
        each: [FolderFigures::NONE; MOST_FOLDERS],
    };

    /// Those that are there.
    pub fn there(&self) -> &[FolderFigures]
        ensures there { result.now ≡ take self.now.count self.now.each }
        ensures most { length result.now ≤ MOST_FOLDERS }
    {
        let count = usize::from(self.count).min(MOST_FOLDERS);
        &self.each[..count]
    }
}
