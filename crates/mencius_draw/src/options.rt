//! The options of a picture, and its greatest size.

/// The colour scheme of a picture.
#[derive(Clone, Copy, Debug, PartialEq, Eq, Drop)]
pub enum Scheme {
    /// The colours that the reader's system prefers, or light ones if the viewing program knows no preference.
    Both,
    /// Dark on light.
    Light,
    /// Light on dark.
    Dark,
}

/// The part of a schedule that is drawn, and its colours.
#[derive(Clone, Copy, Debug, PartialEq, Eq, Drop)]
pub struct Options {
    /// The place of the first event that is drawn, counted from 0.
    pub first: u32,
    /// The place of the last event that is drawn.
    pub last: u32,
    pub scheme: Scheme,
}

/// The selected part needs more levels than a picture may have.
#[derive(Clone, Copy, Debug, PartialEq, Eq, Drop)]
pub struct TooLarge {
    /// The number of levels that the part needs.
    pub levels: usize,
}

/// The greatest number of levels in a picture. An event takes one level, and another for each outcome after the first.
pub const MOST_LEVELS: usize = 50_000;
