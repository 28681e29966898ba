use crate::decree::Decree;
use crate::standing::Standing;
use token::Token;

/// What executors and verifiers say to come to a decree. A view is a turn of one verifier to lead,
/// a place is the number of a decree.
#[derive(Clone, Copy, PartialEq, Eq)]
pub enum Ballot {
    /// An executor's state after batch `n` of this epoch has this token; `previous` is the token of
    /// the state before.
    Token {
        epoch: u64,
        n: u64,
        previous: Token,
        token: Token,
    },
    /// The leader of the view proposes the decree for the place.
    Accept {
        view: u64,
        place: u64,
        decree: Decree,
    },
    /// The sender has accepted the decree for the place in this view.
    Accepted {
        view: u64,
        place: u64,
        decree: Decree,
    },
    /// The decree is decided.
    Decided {
        place: u64,
        decree: Decree,
    },
    /// The sender asks for the decided decrees from this place on.
    Ask {
        place: u64,
    },
    /// The sender leads this view from now on, and asks for promises.
    Change {
        view: u64,
    },
    /// The sender takes no part in lower views any more. It knows this many decrees, and has
    /// accepted this decree, in that view, for the place after them.
    Promise {
        view: u64,
        known: u64,
        accepted: Option<(u64, Decree)>,
    },
    /// After the decrees up to this place this stands. It is the answer to who asks for decrees
    /// that the sender has forgotten.
    Stands {
        place: u64,
        standing: Standing,
    },
}
