//! The first words of lines.

ghost use Rattle.std.specs.Prelude.{◌≡◌};
ghost use Rattle.schedules.specs.Reading as spec;

/// The first word of a line.
#[derive(Clone, Copy)]
pub enum Keyword {
    Feed,
    Again,
    Hangup,
    Deliver,
    Cut,
    Step,
    Finish,
    Suspect,
    Crash,
    Restart,
    Lose,
    FailSave,
    Settle,
    Random,
}

/// The keyword that the word is.
pub fn keyword_of(word: &[u8]) -> Option<Keyword>
    ensures { result ≡ spec.keyword_of word.now }
{
    if word == b"feed".as_slice() {
        Some(Keyword::Feed)
    } else if word == b"again".as_slice() {
        Some(Keyword::Again)
    } else if word == b"hangup".as_slice() {
        Some(Keyword::Hangup)
    } else if word == b"deliver".as_slice() {
        Some(Keyword::Deliver)
    } else if word == b"cut".as_slice() {
        Some(Keyword::Cut)
    } else if word == b"step".as_slice() {
        Some(Keyword::Step)
    } else if word == b"finish".as_slice() {
        Some(Keyword::Finish)
    } else if word == b"suspect".as_slice() {
        Some(Keyword::Suspect)
    } else if word == b"crash".as_slice() {
        Some(Keyword::Crash)
    } else if word == b"restart".as_slice() {
        Some(Keyword::Restart)
    } else if word == b"lose".as_slice() {
        Some(Keyword::Lose)
    } else if word == b"failsave".as_slice() {
        Some(Keyword::FailSave)
    } else if word == b"settle".as_slice() {
        Some(Keyword::Settle)
    } else if word == b"random".as_slice() {
        Some(Keyword::Random)
    } else {
        None
    }
}
