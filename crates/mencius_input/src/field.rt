//! The table of the fields of scenarios, with their names, their ranges and their defaults. `specs/FieldsOf.antt`
//! defines the same table.

ghost use Rattle.std.specs.Prelude.{◌≡◌, position};
ghost use Rattle.std.specs.Str.{bytes_eq};
ghost use Rattle.mencius_input.specs.FieldsOf.{default_of, field_name, is_field_within, list_field, row, run_fields, whole_fields};

use crate::kind::Kind;
use mencius_base::{GREATEST_BETA, GREATEST_LOSS, MOST_SERVERS, MOST_TURNS, MOST_WORKERS};
use mencius_format::{FIRST_VERSION, NEWEST_VERSION};

/// A field of a scenario of `replay`, of a scenario of `run`, or of both.
#[derive(Clone, Copy, Debug, PartialEq, Eq)]
pub enum Field {
    Version,
    Servers,
    Beta,
    Workers,
    Seed,
    Turns,
    Loss,
    Events,
    Commands,
}

/// The shape of a field's value.
#[derive(Clone, Copy)]
pub(crate) enum Shape {
    /// A whole number from `least` to `greatest`. `default` is the number of a missing field, or `None` if the field
    /// must not be missing.
    Whole {
        least: u64,
        greatest: u64,
        default: Option<u64>,
    },
    /// A list.
    List,
}

// A row of the table, with the name of a field and the shape of its value.
#[derive(Clone, Copy)]
pub(crate) struct Row {
    pub name: &'static str,
    pub shape: Shape,
}

// The fields that are whole numbers. The fields of both kinds come first.
const WHOLE_FIELDS: [Field; 7] = [
    Field::Version,
    Field::Servers,
    Field::Beta,
    Field::Workers,
    Field::Seed,
    Field::Turns,
    Field::Loss,
];

// The number of whole numbers that both kinds have.
const SHARED: usize = 3;

// Returns the row of a field that is a whole number.
fn whole_row(name: &'static str, least: u64, greatest: u64, default: Option<u64>) -> Row
    ensures name { result.name.now ≡ name.now }
    ensures shape { result.shape ≡ Shape.Whole least greatest default }
{
    let shape = Shape::Whole {
        least,
        greatest,
        default,
    };
    Row { name, shape }
}

// Returns the row of a field that is a list.
fn list_row(name: &'static str) -> Row
    ensures name { result.name.now ≡ name.now }
    ensures shape { result.shape ≡ Shape.List }
{
    let shape = Shape::List;
    Row { name, shape }
}

impl Field {
    // Returns the row of the field.
    fn row(self) -> Row
        ensures name { result.name.now ≡ field_name self }
        ensures shape { result.shape ≡ (row self).shape }
    {
        match self {
            Field::Version => whole_row("version", FIRST_VERSION, NEWEST_VERSION, None),
            Field::Servers => whole_row("servers", 1, MOST_SERVERS as u64, None),
            Field::Beta => whole_row("beta", 0, GREATEST_BETA as u64, Some(0)),
            Field::Workers => whole_row("workers", 1, MOST_WORKERS as u64, None),
            Field::Seed => whole_row("seed", 0, u64::MAX, None),
            Field::Turns => whole_row("turns", 0, MOST_TURNS as u64, None),
            Field::Loss => whole_row("loss", 0, GREATEST_LOSS as u64, None),
            Field::Events => list_row("events"),
            Field::Commands => list_row("commands"),
        }
    }

    /// Returns the name of the field.
    pub(crate) fn name(self) -> &'static str
        ensures { result.now ≡ field_name self }
    {
        self.row().name
    }

    /// Returns the shape of the field's value.
    pub(crate) fn shape(self) -> Shape
        ensures { result ≡ (row self).shape }
    {
        self.row().shape
    }

    /// Returns the number of the field if it is missing, or `None` if it must not be missing.
    pub(crate) fn default(self) -> Option<u64>
        ensures { result ≡ default_of self }
    {
        match self.shape() {
            Shape::Whole { default, .. } => default,
            Shape::List => None,
        }
    }

    /// Returns whether a whole number is within the limits of the field.
    #[tactic(auto, unfolding(crate::specs::FieldsOf::is_field_within))]
    pub(crate) fn is_within(self, number: u64) -> bool
        ensures { result ≡ is_field_within self number }
    {
        match self.shape() {
            Shape::Whole {
                least,
                greatest,
                ..
            } => least <= number && number <= greatest,
            Shape::List => false,
        }
    }
}

/// Returns the fields of a kind that are whole numbers.
pub(crate) fn whole_fields(kind: Kind) -> &'static [Field]
    ensures { result.now ≡ whole_fields kind }
{
    match kind {
        Kind::Replay => &WHOLE_FIELDS[..SHARED],
        Kind::Run => &WHOLE_FIELDS,
    }
}

/// Returns the fields that are whole numbers and belong only to `run`.
pub(crate) fn run_fields() -> &'static [Field]
    ensures { result.now ≡ run_fields }
{
    &WHOLE_FIELDS[SHARED..]
}

/// Returns the field of a kind that is a list.
pub(crate) fn list_field(kind: Kind) -> Field
    ensures { result ≡ list_field kind }
{
    match kind {
        Kind::Replay => Field::Events,
        Kind::Run => Field::Commands,
    }
}

/// Returns the index of the field with this name among the fields of a kind that are whole numbers.
pub(crate) fn index_of_name(kind: Kind, name: &str) -> Option<usize>
    ensures { result ≡ position (λ field. bytes_eq name.now (field_name field)) (whole_fields kind) }
{
    whole_fields(kind)
        .iter()
        .position(|field| name == field.name())
}
