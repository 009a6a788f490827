ghost use Rattle.std.specs.Prelude.{◌≡◌, MatchResult, None, Some, string_bytes};
ghost use Rattle.mencius_base.specs.Command.{bad_entry, bad_op, is_name};

use crate::limits::{MOST_KEY_BYTES, MOST_TEXT_BYTES};
use std::alloc::Global;
use std::marker::Model;
use thiserror::Error;

/// The identity of a command. It is the client that submits the command, and the client's own number for it. Each
/// identity is submitted at most once.
#[derive(Clone, Copy, Debug, PartialEq, Eq, Hash)]
pub struct CommandId {
    pub client: u32,
    pub number: u32,
}

/// The key of a map's entry, as its bytes. [`Command::new`] tests whether they make a valid key.
#[derive(Clone, Debug, Drop)]
pub struct Key {
    name: String,
}

impl Model for Key {
    ghost use Rattle.std.specs.Prelude.{ℕ, List};
    ghost use Rattle.std.specs.String.{string_bytes};

    ghost Value = { List ℕ };

    ghost view = { λ x. string_bytes x.name };
}

impl Key {
    /// Returns a key with this text, which is not tested.
    pub fn new(name: String) -> Key
        ensures { result ≡ string_bytes name }
    {
        Key { name }
    }

    /// Returns the text of the key.
    pub fn as_str(&self) -> &str
        ensures { result.now ≡ self.now }
    {
        self.name.as_str()
    }
}

/// The text of a map's entry, as its bytes. [`Command::new`] tests whether they make a valid text.
#[derive(Clone, Debug, Drop)]
pub struct Text {
    text: String,
}

impl Model for Text {
    ghost use Rattle.std.specs.Prelude.{ℕ, List};
    ghost use Rattle.std.specs.String.{string_bytes};

    ghost Value = { List ℕ };

    ghost view = { λ x. string_bytes x.text };
}

impl Text {
    /// Returns a text with these bytes, which are not tested.
    pub fn new(text: String) -> Text
        ensures { result ≡ string_bytes text }
    {
        Text { text }
    }

    /// Returns the text as a string.
    pub fn as_str(&self) -> &str
        ensures { result.now ≡ self.now }
    {
        self.text.as_str()
    }
}

/// The operation of a command on the map.
#[derive(Clone, Debug, Drop)]
pub enum Op {
    /// Binds the key to the text. The reply is the former text of the key.
    Set { key: Key, text: Text },
    /// Leaves the map unchanged. The reply is the present text of the key.
    Get { key: Key },
    /// Removes the key. The reply is its former text.
    Del { key: Key },
    /// Compares and sets. It binds the key to `text` only if the former text of the key is exactly `held`. A key that
    /// is absent stays absent, even if `held` is empty. The reply is the former text.
    Cas { key: Key, held: Text, text: Text },
}

/// The reason why an operation does not make a command.
#[derive(Clone, Copy, Debug, PartialEq, Eq, Error)]
pub enum BadCommand {
    #[error("a key has a byte that is no ASCII letter, digit, `_`, `-` or `.`")]
    KeyByte,
    #[error("a text has a byte that is no ASCII letter, digit, `_`, `-` or `.`")]
    TextByte,
    #[error("a key has no byte, or more than 64")]
    KeyLength,
    #[error("a text has more than 256 bytes")]
    TextLength,
}

/// A client's command, which is submitted only once. Its key has 1 to 64 bytes, and each of its texts has at most 256.
/// Each byte is an ASCII letter, a digit, `_`, `-` or `.`.
#[derive(Clone, Debug, Drop)]
pub struct Command {
    id: CommandId,
    op: Op,
}

impl Model for Command {
    ghost use Rattle.std.specs.Prelude.{◌≡◌, None};
    ghost use Rattle.mencius_base.specs.CommandState.{CommandState};

    ghost Value = { CommandState };

    ghost use Rattle.mencius_base.specs.Command.{bad_op};

    ghost view = { λ x. record { id = x.id; op = x.op } };

    ghost invariant = { λ x. bad_op x.op ≡ None };
}

impl Command {
    /// Returns the command with this identity and operation, or the first fault of the operation. A bad byte in the key
    /// comes first, then a bad byte in a text. A bad length of the key comes next, then a bad length of a text.
    pub fn new(id: CommandId, op: Op) -> Result<Command, BadCommand>
        ensures command { MatchResult result (λ x. x ≡ record { id = id; op = op })
            (λ e. bad_op op ≡ Some e) }
        ensures good { MatchResult result (λ _. bad_op op ≡ None) (λ e. bad_op op ≡ Some e) }
    {
        match find_fault(&op) {
            Some(fault) => Err(fault),
            None => Ok(Command { id, op }),
        }
    }

    /// Returns the identity of the command.
    pub fn id(&self) -> CommandId
        ensures { result ≡ self.now.id }
    {
        self.id
    }

    /// Returns the operation of the command on the map.
    pub fn op(&self) -> &Op
        ensures op { result.now ≡ self.now.op }
        ensures good { bad_op result.now ≡ None }
    {
        &self.op
    }
}

// Returns the first fault of an operation, if it has one.
fn find_fault(op: &Op) -> Option<BadCommand>
    ensures { result ≡ bad_op op.now }
{
    match op {
        Op::Set { key, text } => find_fault_of_entry(key.as_str(), "", text.as_str()),
        Op::Get { key } | Op::Del { key } => find_fault_of_entry(key.as_str(), "", ""),
        Op::Cas { key, held, text } => {
            find_fault_of_entry(key.as_str(), held.as_str(), text.as_str())
        }
    }
}

// Returns the first fault of a key and two texts, if they have one. An empty text has no fault.
fn find_fault_of_entry(key: &str, held: &str, text: &str) -> Option<BadCommand>
    ensures { result ≡ bad_entry key.now held.now text.now }
{
    if !is_name(key) {
        return Some(BadCommand::KeyByte);
    }
    if !is_name(held) || !is_name(text) {
        return Some(BadCommand::TextByte);
    }
    if key.is_empty() || key.len() > MOST_KEY_BYTES {
        return Some(BadCommand::KeyLength);
    }
    if held.len() > MOST_TEXT_BYTES || text.len() > MOST_TEXT_BYTES {
        return Some(BadCommand::TextLength);
    }
    None
}

/// Returns whether a word has only bytes that keys and texts may have, which are ASCII letters, digits, `_`, `-` and
/// `.`. The length of the word does not matter.
#[tactic(auto, unfolding(crate::specs::Command::is_name))]
pub fn is_name(word: &str) -> bool
    ensures { result ≡ is_name word.now }
{
    word.bytes().all(|b| b.is_ascii_alphanumeric() || b == b'_' || b == b'-' || b == b'.')
}
