//! Takes the words of a text one by one, for an explanation of what is wrong in the text.

ghost use Rattle.std.specs.Prelude.{◌≡◌, ◌∷◌, [], MatchOption, option_map};
ghost use Rattle.mencius_format.specs.Words.{words_left};

use crate::shown_text::shown;
use crate::words::cut_at_space;
use mencius_base::NoMemory;
use std::alloc::Global;

/// Takes the next word from the text that is left, or returns `None` if nothing is left.
pub fn next_word<'a>(left: &mut Option<&'a str>) -> Option<&'a str>
    ensures { MatchOption result (words_left (option_map (λ text. text.now) left.old) ≡ [])
        (λ word. words_left (option_map (λ text. text.now) left.old)
        ≡ word.now ∷ words_left (option_map (λ text. text.now) left.new)) }
{
    let text = (*left)?;
    match cut_at_space(text) {
        Ok((word, behind)) => {
            *left = Some(behind);
            Some(word)
        }
        Err(_) => {
            *left = None;
            Some(text)
        }
    }
}

/// Describes the problem with the words that are left after the last word that a text may have.
pub fn left_over(alloc: Global, left: &mut Option<&str>) -> Result<String, NoMemory> {
    match next_word(left) {
        Some("") => Ok(String::from_str(alloc, "there is a space too many")?),
        Some(word) => {
            let word = shown(alloc, word)?;
            Ok(format!(in alloc; "there is a word too many: {word}")?)
        }
        None => Ok(String::from_str(alloc, "a word of it is wrong")?),
    }
}
