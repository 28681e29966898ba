use proto::Reply;

/// What a client's part of the server is given.
#[derive(Drop)]
pub enum Input {
    /// The next bytes of the client's connection.
    Feed(Vec<u8>),
    /// What is answered to its request of this number.
    Reply { number: u64, reply: Reply },
    /// What was asked and not answered yet is to be asked again.
    Again,
    /// The connection is at its end.
    Hangup,
}
