use mencius_base::Event;

/// The choice that three words of a worker pick.
#[derive(Debug, Drop)]
pub enum Pick {
    /// The worker submits its next command.
    NextCommand,
    /// The worker takes this event.
    Is(Event),
}
