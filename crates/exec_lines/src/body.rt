use batches::Batch;
use decrees::Ballot;
use proto::Reply;
use sessions::Request;
use transfer::{Need, Parcel};

/// What clients, executors and verifiers say to one another.
#[derive(Drop)]
pub enum Body {
    /// A client asks.
    Want(Request),
    /// The primary orders a batch.
    Order(Batch),
    /// What is answered to the client's request of this number.
    Reply { number: u64, reply: Reply },
    /// The sender has this state, and another one stands.
    Need(Need),
    /// The state of the sender, by the pages that differ from those of a need.
    Parcel(Parcel),
    /// What is said to come to a decree, and the decrees.
    Ballot(Ballot),
}
