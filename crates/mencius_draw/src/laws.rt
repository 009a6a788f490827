//! Laws that hold for all pictures. The functions do nothing when they run. Their contracts are theorems.

ghost use Rattle.mencius_draw.specs.Laws.{KeepsApart, ReservesNothing};

/// No text of a trace begins or ends an element of a picture. A picture shows plain text in place of the bytes of a
/// trace. For all bytes, this text contains no `<`, no `>`, no `&` and no quote.
pub fn texts_stay_texts()
    ensures { ReservesNothing }
{}

/// For every trace, no two drawn events share a level, and no two labels do. Each event is below the event before it,
/// and each label is below the label before it. All are above the level where the picture's levels end.
pub fn levels_stay_apart()
    ensures { KeepsApart }
{}
