/// What the order of an ensemble has.
#[derive(Clone, Copy)]
pub enum Noted {
    /// A request was asked.
    Asked,
    /// A request was answered.
    Answered,
    /// Batches were to be of this moment from then on.
    Moment,
}
