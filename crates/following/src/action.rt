/// What is to be done next. A letter is named by its index among those that are held, and is not held any more then.
#[derive(Clone, Copy, Debug, PartialEq, Eq)]
pub enum Action {
    /// To hand this order in.
    HandInOrder(usize),
    /// To hand this decree in.
    HandInDecree(usize),
    /// To hand this parcel in.
    HandInParcel(usize),
    /// To let this parcel go.
    DropParcel(usize),
    /// To let an Ask for the decree of this place leave.
    Ask(u64),
    /// To let a Need leave, to the executor of this number.
    Need(u8),
    /// To wait for a letter, a tick, or the end of the batch that is executed.
    Wait,
}
