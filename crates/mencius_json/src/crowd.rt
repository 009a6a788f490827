//! Finds the texts that have too many signs for a tree.

ghost use Rattle.std.specs.Prelude.{◌≡◌};
ghost use Rattle.mencius_json.specs.Crowds.{braces_in, brackets_in, crowd_in, separators_in};

use crate::count::count_of;

/// A sign that is so frequent in a text that we build no tree from it. The reason is the memory that the tree would
/// use.
#[derive(Clone, Copy, Debug, PartialEq, Eq)]
pub enum Crowd {
    /// The `{` of an object.
    Braces,
    /// The `[` of a list.
    Brackets,
    /// The commas between items and fields, and the colons after names.
    Separators,
}

// The greatest number of each sign in a text that we build a tree from. A tree takes about 900 bytes for an object with
// one field, and 160 for each further field. It takes 180 bytes for a list with one item, and 70 for a short text.
// Within these limits, a text of 16 MiB and its tree together take less than 250 MiB.
const MOST_BRACES: usize = 65_536;

const MOST_BRACKETS: usize = 65_536;

const MOST_SEPARATORS: usize = 1_700_000;

// Counts the `{` in a text. At most this number of objects begin in it.
fn braces_in(bytes: &[u8]) -> usize
    ensures { result ≡ braces_in bytes.now }
{
    count_of(bytes, b'{')
}

// Counts the `[` in a text. At most this number of lists begin in it.
fn brackets_in(bytes: &[u8]) -> usize
    ensures { result ≡ brackets_in bytes.now }
{
    count_of(bytes, b'[')
}

// Counts the commas and colons in a text. A comma may separate items or fields, and a colon may follow a name.
#[tactic(auto, using(crate::proofs::Counts::of_either, crate::proofs::Counts::either_within))]
fn separators_in(bytes: &[u8]) -> usize
    ensures { result ≡ separators_in bytes.now }
{
    count_of(bytes, b',') + count_of(bytes, b':')
}

/// Returns the first of the three signs that a text has too often for a tree, or `None` if no sign is too frequent.
pub fn crowd_in(bytes: &[u8]) -> Option<Crowd>
    ensures { result ≡ crowd_in bytes.now }
{
    if braces_in(bytes) > MOST_BRACES {
        return Some(Crowd::Braces);
    }
    if brackets_in(bytes) > MOST_BRACKETS {
        return Some(Crowd::Brackets);
    }
    if separators_in(bytes) > MOST_SEPARATORS {
        return Some(Crowd::Separators);
    }
    None
}
