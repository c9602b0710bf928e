//! What help says of `oer types`. Its lines have 80 characters at most.

/// The help of `oer types`.
pub const HELP: &str = "Print types of published ASN.1 modules in the notation that oer reads

Usage: oer types --modules <TEXT> [--modules <TEXT>]... [OPTIONS]
       oer types --types <TEXT> --name <NAME>

Options:
      --modules <TEXT>  A text with one ASN.1 module or more; - is the text on
                        standard input
      --types <TEXT>    Definitions in the notation of docs/NOTATION.md; - is
                        the text on standard input
      --name <NAME>     The name of one type, as Name or Module.Name; without it
                        all types of the modules are printed
      --names           Print only the names of the types that --name takes
      --nesting <N>     How often a type that contains itself is written out,
                        from 1 to 255 [default: the most that fits, up to 8]
  -h, --help            Print help

A type is printed on one line, with each reference written out. Without --name a
line has \"Name ::= type\", and comments say which types are refused, and why. The
text is read by --type, and without --name by --types.

The other commands, and oer-dump, take --modules, --name and --nesting in place
of --type. There --modules=- needs --hex or --json.

Examples:
  $ oer types --modules \"M DEFINITIONS ::= BEGIN A ::= SEQUENCE OF B
    B ::= INTEGER (0..9) END\" --name A
  SEQUENCE OF INTEGER (0..9)

Exit status:
  0  The types are on standard output.
  2  The arguments, the modules or the types are rejected.
  3  Standard input or output failed, or an allocation did, or an argument is
     not UTF-8.
";
