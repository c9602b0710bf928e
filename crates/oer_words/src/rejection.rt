//! What is said where the words of a command line are rejected.
ghost use Rattle.std.specs.Prelude.{◌≡◌, ◌++◌, codes};
ghost use Rattle.oer_words.specs.Rejected.{AppendsFront, IsLost, IsRejected, line_of};

use oer_units::Metered;
use std::alloc::Global;
use std::io::Write;

/// Writes the line in one call. A failure to write it is ignored.
pub fn put<E: Write>(line: &str, errors: &mut E)
    ensures { AppendsFront (E.contents errors.old) (E.contents errors.new) line.now }
{
    let _is_whole = Metered::new(errors).put(line.as_bytes()).is_ok();
}

/// Writes the line that says why the words are rejected, with its line feed, as `put` does. Returns the status of the program, which is 2.
pub fn reject<E: Write>(line: &str, errors: &mut E) -> u8
    ensures line { AppendsFront (E.contents errors.old) (E.contents errors.new) line.now }
    ensures status { result ≡ 2 }
{
    put(line, errors);
    2
}

// Says that memory ran out. The status.
pub(crate) fn out_of_memory<E: Write>(errors: &mut E) -> u8
    ensures { IsLost result (E.contents errors.old) (E.contents errors.new) }
{
    put("oer: out of memory\n", errors);
    3
}

// Says why this option is rejected. The status.
pub(crate) fn reject_option<E: Write>(alloc: Global, option: &str, why: &str, errors: &mut E) -> u8
    ensures { IsRejected (line_of (option.now ++ codes " " ++ why.now)) result (E.contents errors.old) (E.contents errors.new) }
{
    match format!(in alloc; "oer: {option} {why}\n") {
        Ok(line) => reject(line.as_str(), errors),
        Err(_) => out_of_memory(errors),
    }
}
