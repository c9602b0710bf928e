//! What `check` says of octets that aren't canonical, as an error.
ghost use Rattle.std.specs.Prelude.{string_bytes};
ghost use Rattle.oer_cmd.specs.Expected.{Meets};
ghost use Rattle.oer_canonical_cmd.specs.Strict.{strict_line};

use oer_cmd::Fault;

/// The line of `check`, unless it says that the octets aren't canonical.
pub fn strictly<'a>(line: String) -> Result<String, Fault<'a>>
    ensures { Meets string_bytes (strict_line (string_bytes line)) result }
{
    if line.as_bytes().starts_with(b"basic ") {
        return Err(Fault::NotCanonical);
    }
    Ok(line)
}
