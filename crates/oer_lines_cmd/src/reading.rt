//! The lines of the input.
ghost use Rattle.std.specs.Prelude.{◌≡◌, ◌≢◌, ◌∷◌, ◌++◌, [], All, OnOk, true, false};
ghost use Rattle.std.specs.Io.{StopsAt};
ghost use Rattle.std.specs.Io.BufRead.{ends_with_byte, strip_last};
ghost use Rattle.oer_lines_cmd.specs.Lines.{TakesLine, TakesPiece, is_message};

use crate::failure::Failure;
use std::io::BufRead;

// Removes the last octet where it is this one. Whether it did.
fn drop_last(octets: &mut Vec<u8>, octet: u8) -> bool
    ensures front { octets.new.items ≡ strip_last octet octets.old.items }
    ensures ended { result ≡ ends_with_byte octet octets.old.items }
    ensures dropped { result ≡ true → octets.old.items ≡ octets.new.items ++ octet ∷ [] }
    ensures kept { result ≡ false → octets.new.items ≡ octets.old.items }
    ensures gone { StopsAt octets.old.items octet → All (λ x. x ≢ octet) octets.new.items }
{
    let count = octets.len();
    if count == 0 {
        return false;
    }
    if octets[count - 1] != octet {
        return false;
    }
    octets.truncate(count - 1);
    true
}

// Reads the octets up to the first line feed, and it, or all that the input has left, in place of what `piece` had.
fn take_piece<R: BufRead>(input: &mut R, piece: &mut Vec<u8>) -> Result<(), Failure>
    ensures { OnOk result (TakesPiece (R.remaining input.old) (R.remaining input.new) piece.new.items) }
{
    piece.clear();
    match input.read_until(b'\n', piece) {
        Ok(_) => Ok(()),
        Err(error) => Err(Failure::of_read(&error)),
    }
}

/// Takes the next line of the input, without its line feed and a carriage return before that, in place of what `line` had. Whether a line
/// feed ended it; if none did, it is all that the input had left.
///
/// # Errors
/// Input, if a read failed; Memory, if an allocation did.
pub fn take_line<R: BufRead>(input: &mut R, line: &mut Vec<u8>) -> Result<bool, Failure>
    ensures { TakesLine (R.remaining input.old) (R.remaining input.new) line.new.items result }
{
    take_piece(input, line)?;
    let is_ended = drop_last(line, b'\n');
    if is_ended {
        drop_last(line, b'\r');
    }
    Ok(is_ended)
}

/// Whether a line is a message: neither empty, nor begun with `#`.
pub fn is_message(line: &[u8]) -> bool
    ensures { result ≡ is_message line.now }
{
    match line.split_first() {
        Some((first, _)) => *first != b'#',
        None => false,
    }
}
