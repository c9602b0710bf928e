//! The way to the octets in hand: the parts on it, from the whole on, and its texts. There is always one
//! part: the whole.
ghost use Rattle.std.specs.Prelude.{◌≤◌, vec_len};

use crate::frame::Frame;

/// The parts from the whole to the one in hand, and its texts.
#[derive(Drop)]
pub(crate) struct Way<'a> {
    pub frames: Vec<Frame<'a>>,
    /// The path to the last part, in the spelling of `oer part`. That of the whole is empty.
    pub path: String,
    /// The names on that path. The whole has none.
    pub names: String,
    /// All octets.
    pub octets: &'a [u8],
    /// Where those end that were read.
    pub end: usize,
    /// Whether a row was read.
    pub is_begun: bool,
    ghost has_whole: { 1 ≤ vec_len frames },
}
