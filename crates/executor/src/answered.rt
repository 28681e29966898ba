use proto::Reply;

/// What is answered to a request that ran: its place in the batch, and its client's number for it.
#[derive(Drop)]
pub struct Answered {
    pub place: u32,
    pub client: u16,
    pub number: u64,
    pub reply: Reply,
}
