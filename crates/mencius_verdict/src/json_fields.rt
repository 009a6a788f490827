//! Appends the fields of the JSON object that reports a verdict. No text in it needs an escape.

ghost use Rattle.std.specs.Prelude.{◌≡◌, ◌++◌, ◌∷◌, OnOk, codes, flat_map, string_bytes};
ghost use Rattle.mencius_verdict.specs.VerdictJson.{lines_field, number_field, quote_json, quotes_json, text_field, verdict_field};

use mencius_judge::Quote;
use mencius_log::push_observation;
use std::alloc::AllocError;

/// Appends the start of the object of a verdict.
pub fn push_verdict_field(text: &mut String, word: &str) -> Result<(), AllocError>
    ensures { OnOk result (string_bytes text.new
        ≡ string_bytes text.old ++ verdict_field word.now) }
{
    write!(text, "{{\"verdict\":\"{word}\"")
}

/// Appends a field with a number, after a comma.
pub fn push_number_field(text: &mut String, name: &str, number: u64) -> Result<(), AllocError>
    ensures { OnOk result (string_bytes text.new
        ≡ string_bytes text.old ++ number_field name.now number) }
{
    write!(text, ",\"{name}\":{number}")
}

/// Appends a field with a size or a place, after a comma.
pub fn push_size_field(text: &mut String, name: &str, size: usize) -> Result<(), AllocError>
    ensures { OnOk result (string_bytes text.new
        ≡ string_bytes text.old ++ number_field name.now size) }
{
    write!(text, ",\"{name}\":{size}")
}

/// Appends a field with a key, after a comma.
pub fn push_key_field(text: &mut String, key: &str) -> Result<(), AllocError>
    ensures { OnOk result (string_bytes text.new
        ≡ string_bytes text.old ++ text_field (codes "key") key.now) }
{
    text.push_str(",\"key\":\"")?;
    text.push_str(key)?;
    text.push('"')
}

/// Appends the field with the quoted lines.
pub fn push_lines_field(text: &mut String, quotes: &[Quote]) -> Result<(), AllocError>
    ensures { OnOk result (string_bytes text.new
        ≡ string_bytes text.old ++ lines_field quotes.now) }
{
    text.push_str(",\"lines\":[")?;
    push_quotes(text, quotes)?;
    text.push(']')
}

// Appends the objects of quoted lines, with commas between them.
fn push_quotes(text: &mut String, quotes: &[Quote]) -> Result<(), AllocError>
    ensures { OnOk result (string_bytes text.new
        ≡ string_bytes text.old ++ quotes_json quotes.now) }
{
    let Some((first, others)) = quotes.split_first() else {
        return Ok(());
    };
    push_quote(text, first)?;
    push_others(text, others)
}

// Appends the objects of quoted lines, each after a comma.
fn push_others(text: &mut String, quotes: &[Quote]) -> Result<(), AllocError>
    ensures { OnOk result (string_bytes text.new
        ≡ string_bytes text.old ++ flat_map (λ q. 44 ∷ quote_json q) quotes.now) }
{
    for quote in quotes {
        text.push(',')?;
        push_quote(text, quote)?;
    }
    Ok(())
}

// Appends the object of a quoted line.
fn push_quote(text: &mut String, quote: &Quote) -> Result<(), AllocError>
    ensures { OnOk result (string_bytes text.new ≡ string_bytes text.old ++ quote_json quote.now) }
{
    let number = quote.number;
    write!(text, "{{\"line\":{number}")?;
    text.push_str(",\"text\":\"")?;
    push_observation(text, &quote.observation)?;
    text.push_str("\"}")
}
