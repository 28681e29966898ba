//! Laws of lanes. The calls do nothing: what each says is its contract.

ghost use Rattle.links.specs.Lane.{LettersComeThrough};
ghost use Rattle.links.specs.MessageLaws.{ReadIsWritten, WrittenIsRead, PiecesCarryMessages};

/// What comes through a lane, in one life of each of its ends, over any number of connections, whatever of each is lost. The
/// letters that are given are a beginning of those that were pushed, and each letter that was pushed is given or held. The
/// premise is that what comes on a connection is a beginning of what was handed out there.
///
/// No code calls it: it is for readers.
pub fn letters_come_through()
    ensures { LettersComeThrough }
{}

/// What is read on a connection. If the bytes that come are a beginning of those of the messages that were written, so are
/// the messages that are read of them. If all of the bytes come, all of the messages are read. Both hold of messages that
/// are sent in the pieces of `seals`, since what is taken there is a beginning of what was sent.
///
/// No code calls it: it is for readers.
pub fn messages_come_through()
    ensures read { ReadIsWritten }
    ensures all { WrittenIsRead }
    ensures pieces { PiecesCarryMessages }
{}
