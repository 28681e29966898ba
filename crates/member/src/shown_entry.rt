use decrees::Letter;
use ensemble::Answer;
use exec_lines::Body;
use sessions::Request;

/// What a member shows to others. It is made only to be noted in a `ShownLog`, which keeps nothing of it.
#[derive(Drop)]
pub enum ShownEntry {
    /// This letter came in, from another member.
    CameIn(Letter<Body>),
    /// This letter went out, to another member.
    WentOut(Letter<Body>),
    /// A proxy asked this, and whether it is quiet.
    Asks(Request, bool),
    Answers(Answer),
    /// The executor was to cut a batch at this moment, in seconds.
    Notes(u32),
}
