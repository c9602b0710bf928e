//! What help says of `oer example`. Its lines have 80 characters at most.

pub const USAGE: &str = "oer example --type <TYPE> [--full | --random <N>]
       oer example --types <TEXT> --name <NAME> [--full | --random <N>]
       oer example --modules <TEXT> --name <NAME> [--full | --random <N>]";

pub const ABOUT: &str = "Print the JSON of a value of a type, to begin with";

pub const TYPES: &str = "Definitions in that notation, each \"Name ::= type\";
- is the text on standard input";

pub const FULL: &str = "Also each component that may be absent, with its default
if it has one, each addition, and an element of each list";

pub const RANDOM: &str = "A value that is made up, for tests: the same each time
for a number below 2^64, for most another one";

pub const NOTES: &str =
    "The value is the smallest of the type: numbers as near to 0 as may be, strings
and lists as short as may be, the first item and the first alternative. Change
what is printed, and give it to \"oer make\" with the same type.

Examples:
  $ oer example --type \"SEQUENCE {a BOOLEAN, b INTEGER (1..9) OPTIONAL}\"
  {\"a\":false}
  $ oer example --full --type \"SEQUENCE {a BOOLEAN, b INTEGER (1..9) OPTIONAL}\"
  {\"a\":false,\"b\":1}
  $ oer example --random 0 --type \"SEQUENCE OF BOOLEAN\"
  [true,false,true]

Exit status:
  0  The JSON is on standard output.
  2  The arguments or the type are rejected, or the value would have more than
     65536 parts.
  3  Standard input or output failed, or an allocation did, or an argument is
     not UTF-8.";
