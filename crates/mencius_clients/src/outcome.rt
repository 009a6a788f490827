/// The effect of a line on a search.
#[derive(Clone, Copy, Debug)]
pub enum Outcome {
    /// The search goes on.
    Goes,
    /// No order is a linearization of the log.
    Unexplained,
    /// Too many commands of a key wait for their replies.
    Waiting,
    /// A reply makes too many configurations of its key.
    Configurations,
}
