//! The text of a type as it grows, and how many parts the type may still have.
ghost use Rattle.std.specs.Prelude.{◌≡◌, [], OnOk};
ghost use Rattle.oer_module_text.specs.Errors.{Gives};
ghost use Rattle.oer_module_text.specs.Room.{new, put, put_number, room_of, take_part};

use crate::error::{Error, Why};
use oer_module_names::Place;
use std::alloc::{AllocError, Global};

/// How many parts a type may have.
const MOST_PARTS: u16 = 4096;

/// How many octets of text may stand before a type that is yet to be written.
pub const MOST_OCTETS: usize = 1_048_576;

/// The text of a type as it grows, and how many parts the type may still have.
#[derive(Drop)]
pub struct Room {
    pub text: String,
    pub parts: u16,
}

impl Room {
    /// No text yet, and room for all the parts that a type may have.
    pub fn new(alloc: Global) -> Room
        ensures { room_of result ≡ new }
    {
        Room {
            text: String::new(alloc),
            parts: MOST_PARTS,
        }
    }

    /// Adds these words.
    pub fn put(&mut self, words: &str) -> Result<(), AllocError>
        ensures { OnOk result (room_of self.new ≡ put words.now (room_of self.old)) }
    {
        self.text.push_str(words)
    }

    /// Adds a number, in decimal digits.
    pub fn put_number(&mut self, number: i128) -> Result<(), AllocError>
        ensures { OnOk result (room_of self.new ≡ put_number number (room_of self.old)) }
    {
        write!(self.text, "{number}")
    }

    /// Takes the room of one part, at the place of the type or the item that it is.
    ///
    /// # Errors
    /// TooManyParts, if none is left. TooLong, if more than 1,048,576 octets of text stand before it.
    #[tactic(auto, unfolding(crate::specs::Room::take_part))]
    pub fn take_part<'n>(&mut self, place: Place) -> Result<(), Error<'n>>
        ensures { Gives (λ _. room_of self.new) result (take_part place (room_of self.old)) }
    {
        if self.parts == 0 {
            return Err(Error {
                place,
                why: Why::TooManyParts,
            });
        }
        if self.text.len() > MOST_OCTETS {
            return Err(Error {
                place,
                why: Why::TooLong,
            });
        }
        self.parts -= 1;
        Ok(())
    }
}
