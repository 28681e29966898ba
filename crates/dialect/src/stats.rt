//! What `stats` and the dumps of keys are answered.

ghost use Rattle.std.specs.Prelude.{◌≡◌, map};
ghost use Rattle.dialect.specs.Stats as spec;

use crate::turn::Notice;

/// An answer to `stats`, or to a line that wants the keys.
#[derive(Clone, Copy, PartialEq, Eq)]
pub enum Report {
    /// All figures. The text is made by the layer that knows them, so none is here.
    Figures,
    /// The settings. This text is made there too.
    Settings,
    /// `RESET`. The counts go on.
    Reset,
    /// `END`, of `items` and `conns`.
    Empty,
    Slabs,
    Sizes,
    /// `OK`, of `detail on` and `detail off`.
    Detail,
    DetailUsage,
    DumpRefused,
    MetadumpRefused,
}

impl Report {
    /// The bytes that are given.
    pub fn text(self) -> &'static [u8]
        ensures { result.now ≡ spec.report_text self }
    {
        match self {
            Report::Figures => b"",
            Report::Settings => b"",
            Report::Reset => b"RESET\r\n",
            Report::Empty => b"END\r\n",
            Report::Slabs => b"STAT active_slabs 0\r\nSTAT total_malloced 0\r\nEND\r\n",
            Report::Sizes => b"STAT sizes_status disabled\r\nEND\r\n",
            Report::Detail => b"OK\r\n",
            Report::DetailUsage => b"CLIENT_ERROR usage: stats detail on|off|dump\r\n",
            Report::DumpRefused => b"CLIENT_ERROR stats cachedump not allowed\r\n",
            Report::MetadumpRefused => b"ERROR metadump not allowed\r\n",
        }
    }
}

/// What `stats detail` is answered, by the words after it.
fn detail_notice(words: &[&[u8]]) -> Notice
    ensures { result ≡ spec.detail_notice (map (λ w. w.now) words.now) }
{
    let [first, ..] = words else {
        return Notice::Stats(Report::DetailUsage);
    };
    if *first == b"on".as_slice() || *first == b"off".as_slice() {
        Notice::Stats(Report::Detail)
    } else if *first == b"dump".as_slice() {
        Notice::Stats(Report::Empty)
    } else {
        Notice::Stats(Report::DetailUsage)
    }
}

/// What `stats` with this word is answered.
fn notice_of(word: &[u8]) -> Notice
    ensures { result ≡ spec.notice_of word.now }
{
    if word == b"settings".as_slice() {
        Notice::Stats(Report::Settings)
    } else if word == b"reset".as_slice() {
        Notice::Stats(Report::Reset)
    } else if word == b"items".as_slice() || word == b"conns".as_slice() {
        Notice::Stats(Report::Empty)
    } else if word == b"slabs".as_slice() {
        Notice::Stats(Report::Slabs)
    } else if word == b"sizes".as_slice() {
        Notice::Stats(Report::Sizes)
    } else if word == b"cachedump".as_slice() {
        Notice::Stats(Report::DumpRefused)
    } else {
        Notice::UnknownName
    }
}

/// What `stats` is answered, by the words after it.
pub fn stats_notice(words: &[&[u8]]) -> Notice
    ensures { result ≡ spec.stats_notice (map (λ w. w.now) words.now) }
{
    let [first, others @ ..] = words else {
        return Notice::Stats(Report::Figures);
    };
    if *first == b"detail".as_slice() {
        detail_notice(others)
    } else {
        notice_of(first)
    }
}

/// What `lru_crawler` is answered, by the words after it.
pub fn crawler_notice(words: &[&[u8]]) -> Notice
    ensures { result ≡ spec.crawler_notice (map (λ w. w.now) words.now) }
{
    let [first, ..] = words else {
        return Notice::UnknownName;
    };
    if *first == b"metadump".as_slice() {
        Notice::Stats(Report::MetadumpRefused)
    } else {
        Notice::UnknownName
    }
}
