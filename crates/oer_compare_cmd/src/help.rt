//! What help says of `oer compare`. Its lines have 80 characters at most.

pub const USAGE: &str = "oer compare --type <TYPE> --with <TYPE>
       oer compare --types <TEXT> --name <NAME> --with <NAME>
                   [--with-types <TEXT>]";

pub const ABOUT: &str = "Say whether a newer type only adds to an older one";

pub const TYPE: &str = "The older type, in the notation of docs/NOTATION.md";

pub const NAME: &str = "The name of the older type, among those of --types";

pub const TYPES: &str = "Definitions in that notation, each \"Name ::= type\"";

pub const WITH: &str = "The newer type: beside --type its text, else its name";

pub const WITH_TYPES: &str = "The definitions that have that name, if not --types";

pub const NOTES: &str =
    "The older type is that of --type or --name. A newer type only adds to it if the
two are the same but for what the newer one has at the end of a SEQUENCE, a
CHOICE or an ENUMERATED with an extension marker, at any depth. Then what the
newer type encodes is an encoding of the older one.

Examples:
  $ oer compare --type \"SEQUENCE {...}\" --with \"SEQUENCE {..., a NULL}\"
  extends
  $ oer compare --type \"SEQUENCE {...}\" --with \"SEQUENCE {a NULL, ...}\"
  oer: differs at c0 (a): only in the second

Exit status:
  0  They are the same, or the newer type only adds to the older one.
  1  They differ otherwise; standard error has the first difference.
  2  The arguments or a type are rejected.
  3  Standard output failed, or an allocation did, or an argument is not UTF-8.";
