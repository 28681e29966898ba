use crate::body::Body;
use decrees::Letter;
use executor::Tentative;

/// What an executor is given. It cannot be dropped, since a tentative state cannot: `spend` lets it go.
pub enum Input {
    /// A letter to it.
    Letter(Letter<Body>),
    /// The primary is to cut a batch, at this moment, in seconds.
    Cut(u32),
    /// The next step of the request at this place of the batch.
    Step(u32),
    /// The end of a group.
    Finish,
    /// What was made of its work, from before the first step.
    Adopt(Tentative),
}

impl Input {
    /// Lets it go; a tentative state is undone.
    pub fn spend(self) {
        match self {
            Input::Letter(letter) => drop(letter),
            Input::Adopt(tentative) => drop(tentative.undo()),
            Input::Cut(_) | Input::Step(_) | Input::Finish => {}
        }
    }
}
