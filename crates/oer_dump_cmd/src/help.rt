//! What help says. Its lines have 80 characters at most.

/// How the program is called.
pub const USAGE: &str = "oer-dump --type <TYPE> [OPTIONS]
       oer-dump --types <TEXT> --name <NAME> [OPTIONS]";

/// What it does, in one line.
pub const ABOUT: &str = "Print what each octet of an encoding is";

/// What stands below the options.
pub const NOTES: &str =
    "A line has the offset of some octets, their number, the path to their part (as
\"oer part\" takes it), its names, the kind of its type, and the value of a part
without parts, as \"oer show\" prints it. Other lines are for what stands between
parts: preamble, bitmap, quantity, tag, length. Behind \"--\" stands what
canonical octets have in place of these. \"..+N\" stands for N that are left out.
With --types=- standard input has the definitions, if --hex is given.

Options of standard input:
  --in <CODING>  The octets are in digits (hex) or in base64, and not raw

Examples:
  $ oer-dump --type \"SEQUENCE OF BOOLEAN\" --hex 0102ff00
  0  2  -   -  SEQUENCE OF  quantity 2
  2  1  i0  0  BOOLEAN      true
  3  1  i1  1  BOOLEAN      false
  $ oer-dump --type \"INTEGER (0..MAX)\" --hex 020005
  0  3  -  -  INTEGER  5 -- basic 020005, canonical 0105

Exit status:
  0  The octets are one encoding of the type, and all lines are printed.
  1  The octets are no encoding of the type, or more than --limit. The lines go
     up to the octet that shows it.
  2  The arguments, the type or the digits are rejected.
  3  Standard input or output failed, or an allocation did, or an argument is
     not UTF-8.

Documents, in the source, and in share/doc/oer where this is installed:
docs/COMMAND.md (this program), docs/NOTATION.md (types), docs/JSON.md (the
JSON of a value), docs/ENCODING.md (octets).";

// What help says of an option that `oer` doesn't have, or has for more. In the lines that options share
// it has 58 characters at most.

pub const LIMIT: &str = "How many octets there may be";

pub const WIDTH: &str = "How many characters a line may have, 0 for no bound.
Without it as many as a line of the terminal, or 100;
no bound where standard output is no terminal";

pub const JSON: &str = "Print one JSON array, of an object for each line";
