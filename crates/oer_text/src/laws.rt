//! What holds of the notation. Each function does nothing; its contract is the law.
ghost use Rattle.oer_text.specs.Laws.{PrintedIsRead};

pub use oer_notation::laws::{what_is_parsed_is_spelled, what_is_spelled_is_parsed};
use oer_types::laws::defaults_fit;

/// What is printed of a well-formed type is read as the same type.
pub fn printing()
    ensures { PrintedIsRead }
{
    what_is_spelled_is_parsed();
    defaults_fit();
}
