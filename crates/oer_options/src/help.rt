//! What help says. Its lines have 80 characters at most.

/// The version of the program, as the file VERSION has it.
pub const VERSION: &str = "0.1.0";

/// What help says of the program, or of a subcommand.
#[derive(Clone, Copy)]
pub struct Help {
    /// How it is called.
    pub usage: &'static str,
    /// What it does, in one line.
    pub about: &'static str,
    /// What stands below the options.
    pub notes: &'static str,
}

// How a subcommand is called.
macro_rules! usage {
    ($name:literal) => {
        concat!(
            "oer ",
            $name,
            " --type <TYPE> [OPTIONS]\n       oer ",
            $name,
            " --types <TEXT> --name <NAME> [OPTIONS]"
        )
    };
}

// Help whose notes end with the exit statuses and the documents.
macro_rules! help {
    ($usage:expr, $about:literal, $($notes:literal),+) => {
        Help {
            usage: $usage,
            about: $about,
            notes: concat!(
                $($notes,)+
                "
Exit status:
  0  The answer is on standard output.
  1  The octets are no encoding of the type within --limit, the path leads to
     no part of them, or the JSON is longer than --limit.
  2  The arguments, the type, the digits, the path or the JSON are rejected.
  3  Standard input or output failed, or an allocation did, or an argument is
     not UTF-8.

Documents, in the source, and in share/doc/oer where this is installed:
docs/COMMAND.md (this program), docs/NOTATION.md (types), docs/JSON.md (the
JSON of a value), docs/ENCODING.md (octets)."
            ),
        }
    };
}

// The same of a subcommand that reads octets, with the options of its input.
macro_rules! octets_help {
    ($usage:expr, $about:literal, $notes:literal) => {
        help!(
            $usage,
            $about,
            "Options of standard input:
  --in <CODING>  The octets are in digits (hex) or in base64, and not raw
  --lines        Each line is a message in digits, and has a line of output
  --framed <N>   Each message is raw, behind its length in N octets
  --stream       Each message is raw, right behind the one before it

Option on errors:
  --explain      Show behind an error where it is, and what may help

",
            $notes
        )
    };
}

pub const OER: Help = help!(
    "oer <COMMAND>",
    "Read, write and check values in the ASN.1 Octet Encoding Rules (OER)",
    "\"oer COMMAND --help\" has the options of a command. Each command is about one
value. Its type is given by --type, or by --types with --name. The program opens
no files: --types=\"$(cat FILE)\" hands it the text of one, and so does --types=-
from standard input, if --hex or --json is given. An argument to an option that
begins with - is given with =, as in --json=-5.

More commands, each with a --help of its own:
  types    List the types that modules define, or print one in the notation
  example  Print JSON of a type to begin with
  compare  Say whether a newer type only adds to an older one

Examples:
  $ oer canon --type \"SEQUENCE OF BOOLEAN\" --hex 0200020107
  0102ffff
  $ oer show --types \"A ::= SEQUENCE OF BOOLEAN\" --name A --hex 0102ff00
  [true,false]
  $ echo \"A ::= BOOLEAN\" | oer canon --types=- --name A --hex 01
  ff
"
);

pub const SHOW: Help = octets_help!(
    usage!("show"),
    "Print the JSON of a value",
    "The octets have to be one encoding of the value, and nothing more. The JSON has
no white space, and the keys of an object stand in the order of their bytes.
Characters that are no ASCII stand as they are, unless --ascii is given.

Examples:
  $ oer show --type \"SEQUENCE {a BOOLEAN, b NULL OPTIONAL}\" --hex 80ff
  {\"a\":true,\"b\":null}
  $ printf '\\005Hello' | oer show --type UTF8String
  \"Hello\"
"
);

pub const CANON: Help = octets_help!(
    usage!("canon"),
    "Print the canonical octets of a value",
    "The octets have to be one encoding of the value (Basic-OER), and nothing more.
The canonical ones (Canonical-OER) are printed in lower hexadecimal digits.

Examples:
  $ oer canon --type \"SEQUENCE OF BOOLEAN\" --hex 0200020107
  0102ffff
  $ printf '\\201\\003Hey' | oer canon --type UTF8String
  03486579
"
);

pub const CHECK: Help = octets_help!(
    usage!("check"),
    "Say whether octets are the canonical ones of a value",
    "Option of check:
  --canonical  Other encodings are an error, \"oer: not canonical\", with status 1

Prints \"canonical N\" where the octets are the canonical ones of a value, and
\"basic N\" where they are another encoding of one. N is how many they are. Where
a signature is at stake, ask with --canonical.

Examples:
  $ oer check --type \"SEQUENCE OF BOOLEAN\" --hex 0102ff00
  canonical 4
  $ printf '\\201\\005Hello' | oer check --type UTF8String
  basic 7
"
);

pub const MAKE: Help = help!(
    usage!("make"),
    "Print the canonical octets of the value that JSON stands for",
    "Option on errors:
  --explain  Show behind an error where it is, and what may help

The octets are printed in lower hexadecimal digits. \"oer make\" accepts what
\"oer show\" prints, and more: docs/JSON.md says what.

Examples:
  $ oer make --type \"SEQUENCE OF BOOLEAN\" --json \"[true, false]\"
  0102ff00
  $ oer make --type INTEGER --json=-5
  01fb
"
);

pub const PART: Help = octets_help!(
    usage!("part"),
    "Print the octets of a part of a value",
    "Option of part:
  --at <NAMES>  The way to the part by names, as list.1.b, in place of --path

The part is printed as it stands in the octets, in lower hexadecimal digits. A
path is one step or more, joined by \".\". Its steps, counted from 0, are:
  c0, c1, ..  a component of the root of a SEQUENCE
  a0, a1, ..  an addition after the extension marker of a SEQUENCE
  i0, i1, ..  an element of a SEQUENCE OF
  v           the alternative chosen of a CHOICE
Without --path and --at all of the octets are printed.

Examples:
  $ oer part --type \"SEQUENCE OF BOOLEAN\" --path i1 --hex 0200020107
  07
  $ oer part --type \"CHOICE {a SEQUENCE {b BOOLEAN}}\" --path v.c0 --hex 80ff
  ff
"
);

// What help says of an option. In the lines that options share it has 58 characters at most.

pub const TYPE: &str = "The type of the value, in the notation of docs/NOTATION.md";

pub const TYPES: &str = "Definitions in that notation, each \"Name ::= type\"";

pub const TYPES_OR_INPUT: &str = "Definitions in that notation, each \"Name ::= type\";
- is the text on standard input, with --hex or --json";

pub const NAME: &str = "The name of the type of the value, among those of --types";

pub const LIMIT: &str = "How many octets the value may take; for make, how many
the JSON may take";

pub const HEX: &str = "The octets, two hexadecimal digits for each. Without it
the octets are those of standard input, raw";

pub const JSON: &str = "The JSON. Without it the JSON is what standard input has";

pub const PATH: &str = "The way to the part, as c0.i2.v";

pub const ASCII: &str = "Escape DEL and all characters above it, as JSON does";
