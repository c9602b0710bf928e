//! Why the program prints no line.
ghost use Rattle.std.specs.Prelude.{◌≡◌, ◌≤◌, IfOk, Some, string_bytes};
ghost use Rattle.oer_cmd.specs.Faults.{IsOfRead, IsOfRewrite, IsOfText, error_line, status_of, text_of};

use oer_decoder::RewriteFault;
use oer_text::{JsonFault, TextFault, TextWhy};
use oer_units::{ReadFault, Why};
use oer_writer::WriteFault;
use std::alloc::{AllocError, Global};
use std::fmt;

/// Why the program prints no line. It displays as what stands after `oer: ` in the line on the
/// standard error.
#[derive(Clone, Copy, Debug, PartialEq, Eq)]
pub enum Fault<'a> {
    /// The octets begin with no encoding.
    Read(ReadFault),
    /// The octets nest deeper than the type, one of modules, is written out: after so many they are rejected where it ends.
    Nesting(u64),
    /// An octet follows the value, which took so many.
    Follows(u64),
    /// The octets are an encoding of a value, and not the canonical one.
    NotCanonical,
    /// There are more octets than the limit, which is this.
    Longer(u64),
    /// The path has a step that the type doesn't have, one past the last element, or one to an
    /// addition that the type doesn't know and that isn't there; or it goes on from a part that the
    /// type doesn't know.
    NoSuchStep,
    /// The path leads to a component, or to an addition that the type knows, that is absent.
    Absent,
    /// Neither `--type` nor `--types` is given, or both are.
    OneType,
    /// `--types` without `--name`.
    NoName,
    /// `--name` without `--types`.
    NoTypes,
    /// `--types=-` without `--hex` and `--json`.
    NoSource,
    /// The text of the type, or of the definitions, is rejected.
    Type(TextFault),
    /// No definition has this Name.
    Unnamed(&'a str),
    /// The text of `--hex` is not an even number of hexadecimal digits.
    Hex,
    /// The text of `--path` is no path.
    Path,
    /// The text is not JSON.
    NotJson,
    /// The JSON is taken as no value of the type.
    Json(JsonFault),
    /// A read of the input failed.
    Input,
    /// A write to the output failed, or its flush.
    Output,
    /// An allocation failed.
    Memory,
}

impl<'a> Fault<'a> {
    /// The fault for an error of the notation.
    pub fn of_text(fault: TextFault) -> Self
        ensures { IsOfText fault result }
    {
        match fault.why {
            TextWhy::Memory => Fault::Memory,
            _ => Fault::Type(fault),
        }
    }

    /// The fault for an error of the reader.
    pub fn of_read(fault: ReadFault) -> Self
        ensures { IsOfRead fault result }
    {
        match fault.why {
            Why::Device => Fault::Input,
            Why::Memory => Fault::Memory,
            _ => Fault::Read(fault),
        }
    }

    /// The fault for an error in rewriting octets into memory.
    pub fn of_rewrite(fault: RewriteFault) -> Self
        ensures { IsOfRewrite fault result }
    {
        match fault {
            RewriteFault::Read(fault) => Fault::of_read(fault),
            RewriteFault::Write(WriteFault::Device { .. }) => Fault::Memory,
            RewriteFault::Write(WriteFault::TooLong) => Fault::Output,
        }
    }

    /// The status of the program: 1 where the octets are rejected, 2 where the arguments are, 3 where
    /// the machine fails.
    pub fn status(self) -> u8
        ensures status { result ≡ status_of self.entry }
        ensures fails { 1 ≤ result }
        ensures output { self.entry ≡ Fault.Output → result ≡ 3 }
    {
        match self {
            Fault::Read(_) | Fault::Nesting(_) | Fault::Follows(_) | Fault::Longer(_) => 1,
            Fault::NotCanonical | Fault::NoSuchStep | Fault::Absent => 1,
            Fault::OneType | Fault::NoName | Fault::NoTypes | Fault::NoSource => 2,
            Fault::Type(_) | Fault::Unnamed(_) | Fault::Hex => 2,
            Fault::Path | Fault::NotJson | Fault::Json(_) => 2,
            Fault::Input | Fault::Output | Fault::Memory => 3,
        }
    }
}

impl fmt::Display for Fault<'_> {
    ghost output = { λ fault. Some (text_of fault) };

    fn fmt<W: fmt::Write>(&self, f: &mut fmt::Formatter<W>) -> fmt::Result {
        match self {
            Fault::Read(fault) => write!(f, "{} at {}", fault.why.name(), fault.taken),
            Fault::Nesting(taken) => write!(f, "Nesting at {taken}"),
            Fault::Follows(taken) => write!(f, "octets follow the value at {taken}"),
            Fault::NotCanonical => f.write_str("not canonical"),
            Fault::Longer(limit) => write!(f, "input longer than {limit}"),
            Fault::NoSuchStep => f.write_str("NoSuchStep"),
            Fault::Absent => f.write_str("Absent"),
            Fault::OneType => f.write_str("one of --type and --types"),
            Fault::NoName => f.write_str("--types needs --name"),
            Fault::NoTypes => f.write_str("--name needs --types"),
            Fault::NoSource => f.write_str("--types=- needs --hex or --json"),
            Fault::Type(fault) => write!(f, "type: {} at {}", fault.why.name(), fault.at),
            Fault::Unnamed(name) => write!(f, "no type {name}"),
            Fault::Hex => f.write_str("hex refused"),
            Fault::Path => f.write_str("path refused"),
            Fault::NotJson => f.write_str("json: not JSON"),
            Fault::Json(fault) => write!(f, "json: {}", fault.name()),
            Fault::Input => f.write_str("input failed"),
            Fault::Output => f.write_str("output failed"),
            Fault::Memory => f.write_str("out of memory"),
        }
    }
}

/// The line on the standard error, with its line feed.
pub fn error_line(alloc: Global, fault: Fault<'_>) -> Result<String, AllocError>
    ensures { IfOk result (λ line. string_bytes line ≡ error_line fault.entry) }
{
    format!(in alloc; "oer: {fault}\n")
}
