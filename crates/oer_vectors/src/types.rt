//! Texts that spell no well-formed type.

/// A text; why it isn't the text of one type, and the place.
pub const REFUSED_TYPES: &str = r#" | Syntax at 0
 -- a comment | Syntax at 13
/* /* */ | Token at 0
BOOLEAN NULL | Syntax at 8
a | Syntax at 0
B | Name at 0
REAL | Syntax at 0
5 | Syntax at 0
 é | Token at 1
INTEGER (05) | Token at 9
INTEGER (12a) | Token at 9
INTEGER (-0) | Token at 9
INTEGER (0.. | Syntax at 12
INTEGER (MIN) | Syntax at 12
INTEGER (MAX..1) | Syntax at 9
INTEGER (5..4) | BoundOrder at 0
INTEGER (5..4) $ | BoundOrder at 0
INTEGER (5..5) $ | Token at 15
INTEGER (170141183460469231731687303715884105728) | Number at 9
INTEGER (-170141183460469231731687303715884105729) | Number at 9
OCTET NULL | Syntax at 6
OBJECT | Syntax at 6
OCTET STRING (SIZE(18446744073709551616)) | Number at 19
OCTET STRING (SIZE(-1)) | Number at 19
OCTET STRING (SIZE(MIN..4)) | Syntax at 19
OCTET STRING (SIZE(2..1)) | SizeOrder at 0
OCTET STRING SIZE(1) | Syntax at 13
OCTET STRING (1) | Syntax at 14
SEQUENCE (SIZE(2..1)) OF INTEGER $ | SizeOrder at 0
SEQUENCE BOOLEAN | Syntax at 9
SEQUENCE {a B} | Name at 12
SEQUENCE {A BOOLEAN} | Syntax at 10
SEQUENCE {a BOOLEAN,} | Syntax at 20
SEQUENCE {a BOOLEAN b NULL} | Syntax at 20
SEQUENCE {a- BOOLEAN} | Token at 11
SEQUENCE {..., ...} | Syntax at 15
SEQUENCE {a INTEGER (5..4), b $ | Token at 30
SEQUENCE {..., a NULL DEFAULT NULL} | Syntax at 22
ENUMERATED {} | Syntax at 12
ENUMERATED {..., a} | Syntax at 12
ENUMERATED {a, ..., ...} | Syntax at 20
ENUMERATED {a(1), b} | Mixed at 19
ENUMERATED {a(1), b c} | Syntax at 20
ENUMERATED {a, b(1)} | Mixed at 16
ENUMERATED {a(9223372036854775808)} | Number at 14
ENUMERATED {a(-9223372036854775809)} | Number at 14
CHOICE {} | Syntax at 8
CHOICE {..., a NULL} | Syntax at 8
CHOICE {a [0] NULL, b NULL} | Mixed at 22
CHOICE {a [0] NULL, b B} | Mixed at 22
CHOICE {a [0] NULL, b 5} | Syntax at 22
CHOICE {a NULL, b [0] NULL} | Mixed at 18
CHOICE {a [4294967296] NULL} | Number at 11
CHOICE {a [-1] NULL} | Number at 11
CHOICE {a [CONTEXT 1] NULL} | Syntax at 11
SEQUENCE {a BOOLEAN DEFAULT} | Syntax at 27
SEQUENCE {a BOOLEAN DEFAULT MAX} | Syntax at 28
SEQUENCE {a BOOLEAN DEFAULT B} | Syntax at 28
SEQUENCE {a BOOLEAN DEFAULT 1} | Default at 28
SEQUENCE {a BOOLEAN DEFAULT {1 2}} | Default at 28
SEQUENCE {a INTEGER DEFAULT TRUE} | Default at 28
SEQUENCE {a INTEGER DEFAULT 170141183460469231731687303715884105728} | Number at 28
SEQUENCE {a ENUMERATED {b} DEFAULT c} | Default at 35
SEQUENCE {a OCTET STRING DEFAULT 'ABC'H} | Default at 33
SEQUENCE {a OCTET STRING DEFAULT '01'B} | Default at 33
SEQUENCE {a BIT STRING DEFAULT '012'B} | Token at 31
SEQUENCE {a OBJECT IDENTIFIER DEFAULT {1}} | Syntax at 40
SEQUENCE {a OBJECT IDENTIFIER DEFAULT {1 a}} | Syntax at 41
SEQUENCE {a OBJECT IDENTIFIER DEFAULT {1 -2}} | Number at 41
SEQUENCE {a OBJECT IDENTIFIER DEFAULT {1 2 340282366920938463463374607431768211456}} | Number at 43
SEQUENCE {a INTEGER (0..5) DEFAULT 6} | DefaultMisfit at 0
SEQUENCE {a PrintableString DEFAULT "*"} | DefaultMisfit at 0
SEQUENCE {a NULL, ..., a NULL} | RepeatedName at 0
ENUMERATED {a(1), b(1)} | RepeatedNumber at 0
CHOICE {a [1] NULL, b [1] NULL} | RepeatedTag at 0
SEQUENCE OF SEQUENCE {a NULL, b OCTET STRING (SIZE(0))} | EmptyElement at 0
SEQUENCE OF NumericString (SIZE(0)) | EmptyElement at 0
SEQUENCE {a INTEGER (5..4), a SEQUENCE OF NULL} | BoundOrder at 0
SEQUENCE {a SEQUENCE OF NULL, a INTEGER (5..4)} | BoundOrder at 0
SEQUENCE {a SEQUENCE OF NULL, a SEQUENCE {c INTEGER (5..4)}} | BoundOrder at 0
SEQUENCE {d SEQUENCE {c SEQUENCE OF SEQUENCE {a NULL, b OCTET STRING (SIZE(0))}}} | EmptyElement at 0
CHOICE {a [1] NULL, ..., b [1] NULL} | RepeatedTag at 0
SEQUENCE {b INTEGER (0..5) DEFAULT 6} | DefaultMisfit at 0
SEQUENCE OF NULL | EmptyElement at 0
$ | Token at 0"#;

/// Texts that aren't definitions, the same.
pub const REFUSED_DEFINITIONS: &str = r#" | Syntax at 0
a ::= NULL | Syntax at 0
NumericString ::= BOOLEAN | Syntax at 0
A BOOLEAN | Syntax at 2
A ::= B | Name at 6
A ::= A | Name at 6
A ::= NULL A | Repeated at 11
A ::= NULL B ::= SEQUENCE OF A | EmptyElement at 17
A ::= NULL 5 | Syntax at 11
A ::= INTEGER (-5..MAX) -- five -- OF | Syntax at 35
A ::= NULL $ | Token at 11
A ::= BOOLEAN A ::= NULL | Repeated at 14
BOOLEAN | Syntax at 0
A ::= OCTET STRING (SIZE(2..1)) | SizeOrder at 6
A ::= NULL  A ::= NULL | Repeated at 12
A ::= NULL  B ::= SEQUENCE OF A | EmptyElement at 18"#;

/// Definitions; how many parts their types may have together; the last Name that they define, or why they
/// aren't read, and the place. A text of so many parts has room for 65,536 octets, and 64 more for each part.
pub const WITHIN: &str = r#"A ::= NULL | 1 | A
A ::= NULL | 0 | Parts at 0
A ::= NULL B ::= SEQUENCE {a A} | 3 | B
A ::= NULL B ::= SEQUENCE {a A} | 2 | Parts at 11
A ::= ENUMERATED {a, b} B ::= A | 6 | B
A ::= ENUMERATED {a, b} B ::= A | 5 | Parts at 24
A ::= NULL B ::= C | 1 | Name at 17
A ::= NULL B ::= NULL C ::= D | 1 | Parts at 11
A ::= NULL B ::= NULL, | 1 | Parts at 11
A ::= NULL B ::= NULL, | 2 | Syntax at 21
 | 0 | Syntax at 0
A ::= CHOICE {a NULL, b BOOLEAN}  B ::= SEQUENCE OF A | 18446744073709551615 | B
A ::= ~SEQUENCE OF *31~BOOLEAN | 18446744073709551615 | A
A ::= ~SEQUENCE OF *32~BOOLEAN | 18446744073709551615 | TooDeep at 390
A ::= ~SEQUENCE OF *10000~BOOLEAN | 18446744073709551615 | TooDeep at 390
A ::= SEQUENCE {a BOOLEAN, b BOOLEAN} B ::= SEQUENCE {a A, b A} C ::= SEQUENCE {a B, b B} D ::= SEQUENCE {a C, b C} E ::= SEQUENCE {a D, b D} F ::= SEQUENCE {a E, b E} G ::= SEQUENCE {a F, b F} H ::= SEQUENCE {a G, b G} I ::= SEQUENCE {a H, b H} J ::= SEQUENCE {a I, b I} K ::= SEQUENCE {a J, b J} | 18446744073709551615 | K
A ::= SEQUENCE {a BOOLEAN, b BOOLEAN} B ::= SEQUENCE {a A, b A} C ::= SEQUENCE {a B, b B} D ::= SEQUENCE {a C, b C} E ::= SEQUENCE {a D, b D} F ::= SEQUENCE {a E, b E} G ::= SEQUENCE {a F, b F} H ::= SEQUENCE {a G, b G} I ::= SEQUENCE {a H, b H} J ::= SEQUENCE {a I, b I} K ::= SEQUENCE {a J, b J} L ::= SEQUENCE {a K, b K} | 18446744073709551615 | TooManyParts at 321
A ::= SEQUENCE {~a*65651~ NULL} | 2 | A
A ::= SEQUENCE {~a*65652~ NULL} | 2 | Parts at 0
Aa ::= SEQUENCE {~a*65651~ NULL} | 2 | Parts at 0
A ::= SEQUENCE {a IA5String DEFAULT "~x*65636~"} | 2 | A
A ::= SEQUENCE {a IA5String DEFAULT "~x*65637~"} | 2 | Parts at 0
A ::= SEQUENCE {~a*16~ OBJECT IDENTIFIER DEFAULT {1 2~ 3*4099~}} | 2 | A
A ::= SEQUENCE {~a*17~ OBJECT IDENTIFIER DEFAULT {1 2~ 3*4099~}} | 2 | Parts at 0
A ::= SEQUENCE {~a*32910~ NULL} B ::= SEQUENCE {b A} | 5 | B
A ::= SEQUENCE {~a*32910~ NULL} B ::= SEQUENCE {bb A} | 5 | Parts at 32933
A ::= SEQUENCE {~a*65651~ NULL}, | 2 | Syntax at 65673
A ::= SEQUENCE {~a*65652~ NULL}, | 2 | Parts at 0
A ::= SEQUENCE {~a*65652~ NULL} $ | 2 | Parts at 0
A ::= SEQUENCE {, ~a*65652~ NULL} | 2 | Parts at 0
A ::= NULL ~B*70000~ ::= NULL | 2 | Parts at 11
A ::= NULL A ::= SEQUENCE {~a*70000~ NULL} | 1 | Repeated at 11
~a*70000~ A ::= NULL | 1 | Syntax at 0"#;

/// The words that are no Names.
pub const RESERVED: &str = "BOOLEAN
INTEGER
ENUMERATED
NULL
OCTET
BIT
STRING
OBJECT
IDENTIFIER
IA5String
VisibleString
NumericString
PrintableString
UTF8String
SEQUENCE
OF
CHOICE
OPTIONAL
DEFAULT
SIZE
MIN
MAX
TRUE
FALSE
UNIVERSAL
APPLICATION
PRIVATE
REAL
SET";
