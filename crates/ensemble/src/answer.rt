use proto::Reply;

/// What is answered to a request of a proxy.
#[derive(Drop)]
pub struct Answer {
    pub proxy: u16,
    /// The number of the request.
    pub number: u64,
    pub reply: Reply,
}
