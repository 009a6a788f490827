//! A command of an order, and its moment.

use mencius_base::CommandId;

/// A command, and a line of the log at which it may have taken effect. Lines count from 0.
#[derive(Clone, Copy, Debug)]
pub struct TimedCommand {
    pub moment: usize,
    pub id: CommandId,
}
