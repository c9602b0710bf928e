//! Octets of values, and octets that are rejected.

/// A type; a value of it in JSON, as it is printed; the canonical octets of the value; the encodings
/// that are read as just this value, of which `=` stands for the canonical octets. There is a row for
/// each kind of type.
pub const KINDS: &str = r#"BOOLEAN | true | ff | = 01
NULL | null | - | =
INTEGER | 5 | 0105 | = 020005
ENUMERATED {a, b} | "b" | 01 | = 8101
BIT STRING | "1010" | 0204a0 | = 0204af
OCTET STRING | "61" | 0161 | = 810161
OBJECT IDENTIFIER | "1.2.3" | 022a03 | = 81022a03
IA5String | "a" | 0161 | = 810161
VisibleString | "a" | 0161 | = 810161
UTF8String | "é" | 02c3a9 | = 8102c3a9
NumericString | "1" | 0131 | = 810131
PrintableString | "A" | 0141 | = 810141
SEQUENCE {a BOOLEAN} | {"a":true} | ff | = 01
SEQUENCE OF BOOLEAN | [true] | 0101ff | = 02000101
CHOICE {a NULL, b BOOLEAN} | {"b":true} | 81ff | = 8101"#;

/// Types with the type `?` of a row of `KINDS` as a component, an element, an alternative, an addition, and an
/// alternative after the extension marker; the JSON round its own; and its octets after others. `!`: they are an open
/// type. A value without octets can't be an element.
pub const PLACES: &str = r#"SEQUENCE {c ?} | {"c":?} | ?
SEQUENCE OF ? | [?] | 0101?
CHOICE {c ?} | {"c":?} | 80?
SEQUENCE {..., c ?} | {"c":?} | 80020780!
CHOICE {n NULL, ..., c ?} | {"c":?} | 81!"#;

/// More such rows.
pub const VALUES: &str = r##"BOOLEAN | false | 00 | =
INTEGER (0..MAX) | 5 | 0105 | = 020005 810105 81020005 8203e8~00*999~05
INTEGER (MIN..5) | 5 | 0105 | = 020005
INTEGER (MIN..-1) | -1 | 01ff | =
INTEGER (-5..MAX) | -5 | 01fb | =
INTEGER (5) | 5 | 05 | =
INTEGER (0..5) | 5 | 05 | =
INTEGER (-129..127) | -129 | ff7f | =
INTEGER (-128..127) | -128 | 80 | =
INTEGER (-1..128) | -1 | ffff | =
INTEGER (-32769..0) | -32769 | ffff7fff | =
INTEGER (-9223372036854775808..9223372036854775807) | -9223372036854775808 | 8000000000000000 | =
INTEGER (0..255) | 255 | ff | =
INTEGER (0..256) | 255 | 00ff | =
INTEGER (3..256) | 255 | 00ff | =
INTEGER (0..65535) | 258 | 0102 | =
INTEGER (0..4294967295) | 255 | 000000ff | =
INTEGER (0..4294967296) | 255 | 00000000000000ff | =
INTEGER (0..18446744073709551615) | "18446744073709551615" | ffffffffffffffff | =
INTEGER (0..18446744073709551616) | 255 | 01ff | =
INTEGER (-1..MAX) | 255 | 0200ff | =
INTEGER | -5 | 01fb | = 02fffb
INTEGER | -1 | 01ff | = 02ffff
INTEGER | 128 | 020080 | =
INTEGER | -129 | 02ff7f | =
INTEGER | "9223372036854775808" | 090080~00*7~ | =
INTEGER | "-170141183460469231731687303715884105728" | 1080~00*15~ | = 11ff80~00*15~
INTEGER | "170141183460469231731687303715884105727" | 107f~ff*15~ | =
ENUMERATED {a(5), b(128), c(-1)} | "a" | 05 | = 8105 820005
ENUMERATED {a(5), b(128), c(-1)} | "b" | 820080 | =
ENUMERATED {a(5), b(128), c(-1)} | "c" | 81ff | =
ENUMERATED {a(5), b(128), ...} | 7 | 07 | = 8107
OCTET STRING | "~61*127~" | 7f~61*127~ | =
OCTET STRING | "~61*128~" | 8180~61*128~ | = 820080~61*128~
OCTET STRING | "0102030405" | 050102030405 | = ff~00*126~050102030405
OCTET STRING | "6162636465" | 056162636465 | = ff~00*126~056162636465
OCTET STRING | "" | 00 | = ff~00*127~
OCTET STRING (SIZE(1)) | "ab" | ab | =
OCTET STRING (SIZE(2..MAX)) | "6162" | 026162 | =
BIT STRING (SIZE(4)) | "1010" | a0 | = af
BIT STRING | "" | 0100 | =
BIT STRING | "000000001" | 03070080 | = 030700ff
BIT STRING | "1" | 020780 | = 0207ff
BIT STRING | "0" | 020700 | =
BIT STRING | "10110" | 0203b0 | =
BIT STRING | "00000001" | 020001 | =
BIT STRING | "111111110" | 0307ff00 | =
BIT STRING | "0101010101010101" | 03005555 | =
BIT STRING (SIZE(1..8)) | "10110" | 0203b0 | =
OBJECT IDENTIFIER | "1.2.840.113549" | 062a864886f70d | =
OBJECT IDENTIFIER | "2.999" | 028837 | =
OBJECT IDENTIFIER | "1.2.340282366920938463463374607431768211455" | 142a83~ff*17~7f | =
UTF8String (SIZE(1)) | "é" | 02c3a9 | =
IA5String (SIZE(2)) | "ab" | 6162 | =
NumericString | "123" | 03313233 | =
NumericString (SIZE(2)) | "1 " | 3120 | =
PrintableString | "A-?" | 03412d3f | =
SEQUENCE {a BOOLEAN, b INTEGER (0..255) DEFAULT 7, c NULL OPTIONAL} | {"a":true} | 00ff | =
SEQUENCE {a BOOLEAN, b INTEGER (0..255) DEFAULT 7, c NULL OPTIONAL} | {"a":true,"b":7} | 00ff | 80ff07
SEQUENCE {a BOOLEAN, b INTEGER (0..255) DEFAULT 7, c NULL OPTIONAL} | {"a":true,"b":8,"c":null} | c0ff08 | =
SEQUENCE {a BOOLEAN, b INTEGER (0..255) DEFAULT 7, c NULL OPTIONAL, ...} | {"a":true} | 00ff | =
SEQUENCE {a BOOLEAN, b INTEGER (0..255) DEFAULT 7, c NULL OPTIONAL, ...} | {"a":true,"b":7} | 00ff | 40ff07
SEQUENCE {a BOOLEAN, b INTEGER (0..255) DEFAULT 7, c NULL OPTIONAL, ...} | {"a":true,"b":8,"c":null} | 60ff08 | =
SEQUENCE {a INTEGER DEFAULT -7, b NULL} | {"a":-7,"b":null} | 00 | 8001f9 8002fff9
SEQUENCE {a INTEGER DEFAULT -7, b NULL} | {"a":7,"b":null} | 800107 | =
SEQUENCE {a BOOLEAN DEFAULT TRUE, b NULL} | {"a":true,"b":null} | 00 | 80ff 8001
SEQUENCE {a NULL DEFAULT NULL, b BOOLEAN} | {"a":null,"b":true} | 00ff | 80ff
SEQUENCE {a ENUMERATED {b(0), c(1), ...} DEFAULT c, d BOOLEAN DEFAULT FALSE} | {"a":"c","d":false} | 00 | c00100
SEQUENCE {a ENUMERATED {b(0), c(1), ...} DEFAULT c, d BOOLEAN DEFAULT FALSE} | {"a":"b","d":true} | c000ff | =
SEQUENCE {a OCTET STRING DEFAULT '0AFF'H, b BIT STRING DEFAULT '101010111100'B} | {"a":"0aff","b":"101010111100"} | 00 | c0020aff0304abc0
SEQUENCE {a OCTET STRING DEFAULT '0AFF'H, b BIT STRING DEFAULT '101010111100'B} | {"a":"0aff00","b":"10101011110"} | c0030aff000305abc0 | =
SEQUENCE {a BIT STRING (SIZE(9)) DEFAULT '110000001'B} | {"a":"110000001"} | 00 | 80c080 80c0ff
SEQUENCE {a BIT STRING (SIZE(9)) DEFAULT '110000001'B} | {"a":"110000000"} | 80c000 | =
SEQUENCE {a IA5String DEFAULT "a""b", b NULL} | {"a":"a\"b","b":null} | 00 | 8003612262
SEQUENCE {a IA5String DEFAULT "a""b", b NULL} | {"a":"a","b":null} | 800161 | =
SEQUENCE {a VisibleString DEFAULT "a", b NumericString DEFAULT "1", c PrintableString DEFAULT "A"} | {"a":"a","b":"1","c":"A"} | 00 | e0016101310141
SEQUENCE {a VisibleString DEFAULT "a", b NumericString DEFAULT "1", c PrintableString DEFAULT "A"} | {"a":"b","b":"2","c":"B"} | e0016201320142 | =
SEQUENCE {a UTF8String DEFAULT "é", b BOOLEAN} | {"a":"é","b":true} | 00ff | 8002c3a9ff
SEQUENCE {a UTF8String DEFAULT "é", b BOOLEAN} | {"a":"e","b":true} | 800165ff | =
SEQUENCE {a NULL OPTIONAL, b NULL OPTIONAL, c NULL OPTIONAL, d NULL OPTIONAL, e NULL OPTIONAL, f NULL OPTIONAL, g NULL OPTIONAL, h NULL OPTIONAL, i NULL OPTIONAL} | {"a":null,"i":null} | 8080 | =
SEQUENCE {} | {} | - | =
SEQUENCE {...} | {} | 00 | =
SEQUENCE {..., a NULL OPTIONAL, b NULL} | {"a":null} | 8002068000 | =
SEQUENCE {..., a NULL OPTIONAL, b NULL} | {"b":null} | 8002064000 | =
SEQUENCE {a BOOLEAN, ..., x INTEGER (0..255), y BOOLEAN} | {"a":true} | 00ff | = 80ff020600 80ff0100
SEQUENCE {a BOOLEAN, ..., x INTEGER (0..255), y BOOLEAN} | {"a":true,"x":9} | 80ff0206800109 | = 80ff0207800109 80ff0205800109 80ff020680810109
SEQUENCE {a BOOLEAN, ..., x INTEGER (0..255), y BOOLEAN} | {"#2":"09","a":true} | 80ff0205200109 | = 80ff020020810109
SEQUENCE {a BOOLEAN, ..., x INTEGER (0..255), y BOOLEAN} | {"#2":"09","#3":"","a":true} | 80ff020430010900 | =
SEQUENCE {a BOOLEAN, ..., x INTEGER (0..255), y BOOLEAN} | {"#10":"01","#2":"09","a":true} | 80ff0305202001090101 | =
SEQUENCE {a BOOLEAN, ..., x INTEGER (0..255)} | {"a":true,"x":1} | 80ff0207800101 | =
SEQUENCE {a BOOLEAN, ...} | {"#0":"09","a":true} | 80ff0207800109 | = 80ff0206800109
SEQUENCE {a UTF8String, b IA5String (SIZE(2)), c BIT STRING} | {"a":"é","b":"ab","c":"1010"} | 02c3a961620204a0 | =
SEQUENCE {a SEQUENCE OF OCTET STRING (SIZE(1))} | {"a":["03","07"]} | 01020307 | =
SEQUENCE OF BOOLEAN | [true,false] | 0102ff00 | = 0200020100
SEQUENCE OF BOOLEAN | [] | 0100 | =
SEQUENCE OF OBJECT IDENTIFIER | ["2.999","1.2.840.113549"] | 0102028837062a864886f70d | =
SEQUENCE OF SEQUENCE {a NULL OPTIONAL} | [{}] | 010100 | =
~SEQUENCE OF *31~BOOLEAN | ~[*31~true~]*31~ | ~0101*31~ff | =
CHOICE {a [1] NULL, b [2] NULL} | {"b":null} | 82 | =
CHOICE {a [1] NULL, b [2] NULL, ..., c [3] NULL} | {"c":null} | 8300 | =
CHOICE {a [1] NULL, b [PRIVATE 1] NULL} | {"b":null} | c1 | =
CHOICE {a [APPLICATION 1] NULL, b [PRIVATE 63] NULL} | {"a":null} | 41 | =
CHOICE {a [APPLICATION 1] NULL, b [PRIVATE 63] NULL} | {"b":null} | ff3f | =
CHOICE {a [62] NULL, b [63] NULL, c [200] NULL} | {"a":null} | be | =
CHOICE {a [62] NULL, b [63] NULL, c [200] NULL} | {"b":null} | bf3f | =
CHOICE {a [62] NULL, b [63] NULL, c [200] NULL} | {"c":null} | bf8148 | =
CHOICE {a [62] NULL, b [APPLICATION 63] NULL, ..., c [PRIVATE 200] BOOLEAN} | {"b":null} | 7f3f | =
CHOICE {a [62] NULL, b [APPLICATION 63] NULL, ..., c [PRIVATE 200] BOOLEAN} | {"c":true} | ff814801ff | =
CHOICE {a [4294967295] NULL} | {"a":null} | bf8fffffff7f | =
CHOICE {a NULL, ..., b OCTET STRING} | {"a":null} | 80 | =
CHOICE {a NULL, ..., b OCTET STRING} | {"b":"6162"} | 8103026162 | =
CHOICE {a NULL, ..., b OCTET STRING} | {"#c5":"0102"} | 85020102 | =
CHOICE {a NULL, ..., b OCTET STRING} | {"#c5":"01"} | 850101 | = 85810101
CHOICE {a NULL, ..., b OCTET STRING} | {"#u0":""} | 0000 | ="##;

/// The same of a type that no text spells.
pub const NESTED_VALUES: &str =
    r#"SEQUENCE {s SEQUENCE {b BOOLEAN DEFAULT TRUE} DEFAULT {}} | {} | 00 | =
SEQUENCE {s SEQUENCE {b BOOLEAN DEFAULT TRUE} DEFAULT {}} | {"s":{}} | 00 | 8000
SEQUENCE {s SEQUENCE {b BOOLEAN DEFAULT TRUE} DEFAULT {}} | {"s":{"b":true}} | 00 | 8080ff
SEQUENCE {s SEQUENCE {b BOOLEAN DEFAULT TRUE} DEFAULT {}} | {"s":{"b":false}} | 808000 | ="#;

/// A row with an unknown addition at place 65,535, the last that there may be.
pub const LAST_PLACE: &str = r##"SEQUENCE {...} | {"#65535":""} | 8082200100~00*8191~0100 | ="##;

/// A type; octets; why they are rejected, and how many are taken then; the limit, without which it is
/// so under each limit from 1,000 on.
pub const REFUSED: &str = "BOOLEAN | - | End at 0
INTEGER (0..MAX) | 00 | EmptyNumber at 1
INTEGER (0..MAX) | 80 | LengthForm at 1
INTEGER | 80 | LengthForm at 1
INTEGER (0..5) | - | End at 0
INTEGER (0..5) | 06 | IntegerRange at 1
INTEGER (0..65535) | 0001 | Limit at 0 | 1
INTEGER | 110080~00*15~ | IntegerRange at 18
INTEGER (0..MAX) | 110080~00*15~ | IntegerRange at 18
ENUMERATED {a} | 07 | UnknownEnum at 1
ENUMERATED {a} | 8900~ff*8~ | EnumForm at 10
ENUMERATED {a(5), b(128), c(-1)} | 06 | UnknownEnum at 1
ENUMERATED {a(5), b(128), c(-1)} | 80 | EnumForm at 1
OCTET STRING | 88ffffffffffffffff | Limit at 9
OCTET STRING | 88ffffffffffffffff | Limit at 9 | 100
OCTET STRING | 890100~00*7~ | Limit at 10
OCTET STRING | 0361 | End at 2
OCTET STRING | 0361 | Limit at 1 | 2
OCTET STRING | 8105 | End at 2
OCTET STRING | 8105 | Limit at 2 | 6
BIT STRING | 0104 | BitUnused at 2
BIT STRING | 020880 | BitUnused at 2
BIT STRING | 00 | BitUnused at 1
BIT STRING | 88200000000000000100 | Size at 10 | 18446744073709551615
BIT STRING | 88200000000000000101 | End at 10 | 18446744073709551615
OBJECT IDENTIFIER | 0180 | ObjectId at 2
OBJECT IDENTIFIER | 0188 | ObjectId at 2
OBJECT IDENTIFIER | 1384~80*17~00 | ObjectId at 20
OBJECT IDENTIFIER | 028001 | ObjectId at 2
OBJECT IDENTIFIER | 00 | ObjectId at 1
UTF8String (SIZE(1)) | 01c3 | Character at 2
UTF8String (SIZE(1)) | 026162 | Size at 3
IA5String (SIZE(2)) | 6180 | Character at 2
VisibleString | 017f | Character at 2
VisibleString | 011f | Character at 2
NumericString | 0161 | Character at 2
NumericString (SIZE(2)) | 313a | Character at 2
PrintableString | 0140 | Character at 2
PrintableString | 012a | Character at 2
SEQUENCE {a BOOLEAN, b INTEGER (0..255) DEFAULT 7, c NULL OPTIONAL} | 20ff | PreamblePadding at 1
SEQUENCE {a BOOLEAN, b INTEGER (0..255) DEFAULT 7, c NULL OPTIONAL, ...} | 01ff | PreamblePadding at 1
SEQUENCE {a NULL OPTIONAL, b NULL OPTIONAL, c NULL OPTIONAL, d NULL OPTIONAL, e NULL OPTIONAL, f NULL OPTIONAL, g NULL OPTIONAL, h NULL OPTIONAL, i NULL OPTIONAL} | 8040 | PreamblePadding at 2
SEQUENCE {a BOOLEAN, ..., x INTEGER (0..255), y BOOLEAN} | 80ff020680020900 | Window at 7
SEQUENCE {a BOOLEAN, ..., x INTEGER (0..255), y BOOLEAN} | 80ff0206800009 | Window at 6
SEQUENCE {a BOOLEAN, ..., x INTEGER (0..255), y BOOLEAN} | 80ff02068001 | End at 6
SEQUENCE {a BOOLEAN, ..., x INTEGER (0..255), y BOOLEAN} | 80ff020520 | End at 5
SEQUENCE {a BOOLEAN, ..., x INTEGER (0..255), y BOOLEAN} | 80ff | End at 2
SEQUENCE {..., x OCTET STRING} | 8002078004056162 | Window at 6
SEQUENCE {..., x OCTET STRING} | 8002078088ffffffffffffffff | Limit at 13
SEQUENCE (SIZE(1..2)) OF BOOLEAN | 0103ff00ff | Size at 2
SEQUENCE (SIZE(1..2)) OF BOOLEAN | 0100 | Size at 2
SEQUENCE (SIZE(1..2)) OF BOOLEAN | 0109 | Limit at 2 | 5
SEQUENCE OF BOOLEAN | 0103ff00 | End at 4
CHOICE {a [62] NULL, b [63] NULL, c [200] NULL} | bf8001 | TagForm at 2
CHOICE {a [62] NULL, b [63] NULL, c [200] NULL} | bf05 | TagForm at 2
CHOICE {a [62] NULL, b [63] NULL, c [200] NULL} | 80 | UnknownAlternative at 1
CHOICE {a [1] NULL, b [PRIVATE 1] NULL} | 41 | UnknownAlternative at 1
CHOICE {a NULL, ...} | bf9080808000 | TagForm at 6
CHOICE {a NULL, ..., b OCTET STRING} | 8103036162 | Window at 3
CHOICE {a NULL, ..., b OCTET STRING} | 82 | End at 1";

/// A row with an addition at the place after the last that there may be.
pub const PAST_LAST_PLACE: &str =
    "SEQUENCE {...} | 8082200207~00*8192~80 | UnknownAddition at 8198 | 18446744073709551615";
