//! The kinds of words in the text of an event or a command.

ghost use Rattle.std.specs.Prelude.{◌≡◌};
ghost use Rattle.mencius_format.specs.Parts.{part_name};

/// The kind of a word after the first word of an event, or after the operation of a command.
#[derive(Clone, Copy, Debug)]
pub enum Part {
    /// A server, 0 to 255.
    Server,
    /// The suspected server, 0 to 255.
    Suspected,
    /// A message, 0 to 4,294,967,295.
    Message,
    /// The identity of a command.
    Id,
    /// A key.
    Key,
    /// The only text of an operation.
    Text,
    /// One of several texts of an operation, with its name for a person.
    NamedText(&'static str),
}

impl Part {
    /// Returns the name of the word for a person.
    pub fn name(self) -> &'static str
        ensures { result.now ≡ part_name self }
    {
        match self {
            Part::Server => "the server",
            Part::Suspected => "the suspected server",
            Part::Message => "the message number",
            Part::Id => "the command ID",
            Part::Key => "the key",
            Part::Text => "the text",
            Part::NamedText(name) => name,
        }
    }
}
