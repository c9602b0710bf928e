//! The positions of some bytes of a text, so that no line is counted from the start.
ghost use Rattle.std.specs.Prelude.{◌≡◌, IfOk, map};
ghost use Rattle.oer_modules.specs.Marks.{AreMarked, AreMarks};
ghost use Rattle.oer_modules.specs.Places.{position_at};

use crate::place::{FIRST, Position, behind, front, past, position_at};
use std::alloc::{AllocError, Global};

/// How many bytes lie from one mark to the next.
const STRIDE: usize = 4096;

/// The positions of the bytes 0, 4,096, 8,192 and so on of a text.
#[derive(Drop)]
pub struct Marks {
    pub positions: Vec<Position>,
}

impl Marks {
    /// Those of this text.
    fn new(alloc: Global, text: &str) -> Result<Marks, AllocError>
        ensures { IfOk result (λ m. AreMarks text.now m.positions.items) }
    {
        let mut positions = Vec::new(alloc);
        let mut position = FIRST;
        let mut rest = text.as_bytes();
        while !rest.is_empty() {
            positions.push(position)?;
            let passed = front(rest, STRIDE);
            position = behind(passed, position);
            rest = past(rest, STRIDE);
        }
        Ok(Marks { positions })
    }

    /// The line and the column of a byte of the text.
    pub fn position_at(&self, at: usize, text: &str) -> Position
        requires { AreMarks text.now self.now.positions.items }
        ensures { result ≡ position_at at text.now }
    {
        let mark = at / STRIDE;
        if mark >= self.positions.len() {
            return position_at(at, text);
        }
        let before = front(text.as_bytes(), at);
        behind(past(before, mark * STRIDE), self.positions[mark])
    }
}

/// The marks of each text.
pub fn mark_each(alloc: Global, texts: &[&str]) -> Result<Vec<Marks>, AllocError>
    ensures { IfOk result (λ v. AreMarked (map (λ t. t.now) texts.now) v.items) }
{
    let mut found = Vec::new(alloc);
    for text in texts {
        let marks = Marks::new(alloc, text)?;
        found.push(marks)?;
    }
    Ok(found)
}
