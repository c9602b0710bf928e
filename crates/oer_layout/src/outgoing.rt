//! Text that goes out a block at a time.
ghost use Rattle.std.specs.Prelude.{◌≡◌, ◌++◌, [], IfOk, OnOk, string_bytes};
ghost use Rattle.std.specs.Io.KnownBytes.{Appends};
ghost use Rattle.oer_layout.specs.Outgoing.{Begins, Grows, Sends};

use oer_entries::Stopped;
use oer_units::Metered;
use std::alloc::{AllocError, Global};
use std::io::Write;

/// How many octets are kept at most until they are written, but for the last text.
const BLOCK: usize = 8192;

/// A text with room for a block, which begins so.
pub(crate) fn block_text(alloc: Global, front: &str) -> Result<String, AllocError>
    ensures { IfOk result (λ text. string_bytes text ≡ front.now) }
{
    let mut text = String::with_capacity(alloc, BLOCK)?;
    text.push_str(front)?;
    Ok(text)
}

// Writes the octets, in one call.
fn put<W: Write>(octets: &[u8], output: &mut W) -> Result<(), Stopped>
    ensures { OnOk result (Appends (W.contents output.old) (W.contents output.new) octets.now) }
{
    match Metered::new(output).put(octets) {
        Ok(()) => Ok(()),
        Err(_) => Err(Stopped::Output),
    }
}

/// Text on its way out. It is kept until there is a block of it, and then written in one call.
#[derive(Drop)]
pub(crate) struct Outgoing<'o, W: Write> {
    pub text: String,
    pub output: &'o mut W,
}

impl<'o, W: Write> Outgoing<'o, W> {
    /// With this text in front, which has room for a block.
    pub(crate) fn new(text: String, output: &'o mut W) -> Self
        ensures loan { result.output.ghost_name ≡ output.entry.ghost_name }
        ensures begins { Begins W.contents (string_bytes text) output.entry result }
    {
        Outgoing { text, output }
    }

    // Writes what is kept.
    fn send(&mut self) -> Result<(), Stopped>
        ensures loan { self.new.output.ghost_name ≡ self.old.output.ghost_name }
        ensures sends { OnOk result (Sends W.contents self.old self.new) }
    {
        put(self.text.as_bytes(), self.output)?;
        self.text.clear();
        Ok(())
    }

    /// Writes what is kept if it is a block or more.
    pub(crate) fn send_block(&mut self) -> Result<(), Stopped>
        ensures { OnOk result (Grows W.contents self.old [] self.new) }
    {
        if self.text.len() < BLOCK {
            return Ok(());
        }
        self.send()
    }
}

/// Writes what was kept, with this text behind it, and flushes.
pub(crate) fn write_last<W: Write>(
    mut text: String,
    end: &str,
    output: &mut W,
) -> Result<(), Stopped>
    ensures { OnOk result (Appends (W.contents output.old) (W.contents output.new) (string_bytes text ++ end.now)) }
{
    text.push_str(end)?;
    put(text.as_bytes(), output)?;
    if output.flush().is_err() {
        return Err(Stopped::Output);
    }
    Ok(())
}
