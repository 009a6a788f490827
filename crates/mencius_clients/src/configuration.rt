use crate::slot_set::SlotSet;

/// One possible state of a key.
#[derive(Clone, Copy, Debug)]
pub struct Configuration {
    // The slots of the waiting commands that have taken effect.
    pub done: SlotSet,
    // The number of the text that the key holds. It is 1 higher than the line of the command that wrote it, or 0 if the
    // key holds none.
    pub text: usize,
    // Whether a command that is never acknowledged wrote the text, and no acknowledged one has seen it.
    pub unseen: bool,
    // The number of the last step, from 1, or 0 if there is none.
    pub trail: usize,
}
