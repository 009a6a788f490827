ghost use Rattle.std.specs.Prelude.{OnOk};
ghost use Rattle.mencius_judge.specs.Added.{Inserts};

use mencius_base::NoMemory;
use mencius_log::Observation;

/// A line of a log that has an observation.
#[derive(Debug, Drop)]
pub struct Quote {
    /// The number of the line.
    pub number: u64,
    pub observation: Observation,
}

/// Adds a quote to quotes in the order of their numbers. Does nothing if they already have a line with this number.
pub(crate) fn insert_quote(quotes: &mut Vec<Quote>, quote: Quote) -> Result<(), NoMemory>
    ensures { OnOk result (Inserts quote quotes.old.items quotes.new.items) }
{
    let place = quotes
        .as_slice()
        .partition_point(|other| other.number < quote.number);
    if let Some(other) = quotes.get(place) {
        if other.number == quote.number {
            return Ok(());
        }
    }
    quotes.insert(place, quote)?;
    Ok(())
}
