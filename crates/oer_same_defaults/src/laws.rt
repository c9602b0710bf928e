//! A function does nothing but cite other laws; its contract is the law.
ghost use Rattle.oer_same_defaults.specs.Laws.{SameDefault};

use oer_same_items::laws::{named_items_are_the_same, named_items_are_there};

/// A value after DEFAULT is the same in a module: for its tokens the reader of modules gives the value of the notation, or it rejects
/// them for one of its limits (`IsLimit`), as white space among bits, a control character in a text (`IsTame`), or numbers of items
/// that don't rise behind the marker (`AreOrdinary` of `oer_same_items`).
pub fn defaults_are_the_same()
    ensures { SameDefault }
{
    named_items_are_there();
    named_items_are_the_same();
}
