//! What is said of a name that leads nowhere.
ghost use Rattle.std.specs.Prelude.{◌≡◌, ◌<◌, ◌⊎◌, IfOk, length, map, string_bytes};
ghost use Rattle.oer_cmd.specs.Faults.{AppendsFront, error_line};
ghost use Rattle.oer_at_cmd.specs.Errors.{kind_of, name_line, place_of, subject_of};
ghost use Rattle.oer_words.specs.Scan.{text_behind};

use oer_at::{NameFault, Wanted, is_word};
use oer_cmd::{Fault, put_all};
use std::alloc::{AllocError, Global};
use std::io::Write;

// What the name has to be.
fn kind_of(wanted: Wanted) -> &'static str
    ensures { result.now ≡ kind_of wanted }
{
    match wanted {
        Wanted::Component => "component",
        Wanted::Alternative => "alternative",
        Wanted::Element => "element",
        Wanted::Nothing => "part",
    }
}

// What isn't there: the name, unless it can be none.
fn subject_of(alloc: Global, wanted: Wanted, name: &str) -> Result<String, AllocError>
    ensures { IfOk result (λ text. string_bytes text ≡ subject_of wanted name.now) }
{
    if !is_word(name) {
        return String::from_str(alloc, "name");
    }
    let kind = kind_of(wanted);
    format!(in alloc; "{kind} {name}")
}

// Where it isn't: behind these names.
fn place_of(alloc: Global, front: &[&str]) -> Result<String, AllocError>
    ensures { IfOk result (λ text. string_bytes text ≡ place_of (map text_behind front.now)) }
{
    if front.is_empty() {
        return Ok(String::new(alloc));
    }
    let names = front.join(alloc, ".")?;
    format!(in alloc; " at {names}")
}

// The line on standard error, with its line feed.
fn name_line(alloc: Global, names: &[&str], fault: NameFault) -> Result<String, AllocError>
    requires { fault.before < length names.now }
    ensures { IfOk result (λ line. string_bytes line ≡ name_line (map text_behind names.now) fault) }
{
    let subject = subject_of(alloc, fault.wanted, names[fault.before])?;
    let place = place_of(alloc, &names[..fault.before])?;
    format!(in alloc; "oer: at: no {subject}{place}\n")
}

/// Writes which name leads nowhere, in one call, and returns the status: 2, or 3 if memory for the line is refused. A failure to write it is
/// ignored.
pub fn tell_name<E: Write>(alloc: Global, names: &[&str], fault: NameFault, errors: &mut E) -> u8
    requires { fault.before < length names.now }
    ensures { ((result ≡ 2) × AppendsFront (E.contents errors.old) (E.contents errors.new) (name_line (map text_behind names.now) fault))
        ⊎ ((result ≡ 3) × AppendsFront (E.contents errors.old) (E.contents errors.new) (error_line Fault.Memory)) }
{
    match name_line(alloc, names, fault) {
        Ok(line) => {
            put_all(line.as_bytes(), errors);
            2
        }
        Err(_) => {
            put_all(b"oer: out of memory\n", errors);
            3
        }
    }
}
