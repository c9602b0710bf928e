//! JSON of values.

/// A type; JSON of a value of it; the JSON as it is printed; the canonical octets of the value.
pub const TAKEN_JSON: &str = r##"BOOLEAN | true | true | ff
NULL | null | null | -
INTEGER | 5 | 5 | 0105
INTEGER | "5" | 5 | 0105
INTEGER | -9223372036854775808 | -9223372036854775808 | 088000000000000000
INTEGER | 9223372036854775808 | "9223372036854775808" | 09008000000000000000
INTEGER | "170141183460469231731687303715884105727" | "170141183460469231731687303715884105727" | 107fffffffffffffffffffffffffffffff
OCTET STRING | "ABcd" | "abcd" | 02abcd
OCTET STRING | "" | "" | 00
BIT STRING | "1010" | "1010" | 0204a0
BIT STRING | "000000001" | "000000001" | 03070080
OBJECT IDENTIFIER | "1.2.840.113549" | "1.2.840.113549" | 062a864886f70d
PrintableString | "A-?" | "A-?" | 03412d3f
VisibleString | "\u007e" | "~" | 017e
VisibleString | " " | " " | 0120
ENUMERATED {a(5), b(128), c(-1)} | 5 | "a" | 05
ENUMERATED {a(5), b(128)} | "b" | "b" | 820080
ENUMERATED {a(5), b(128), ...} | 5 | "a" | 05
ENUMERATED {a(5), b(128), ...} | 7 | 7 | 07
SEQUENCE {a BOOLEAN, b INTEGER (0..255) DEFAULT 7} | {"b":7,"a":true} | {"a":true,"b":7} | 00ff
SEQUENCE {a BOOLEAN, ..., x INTEGER (0..255)} | {"a":true,"x":1} | {"a":true,"x":1} | 80ff0207800101
SEQUENCE {a BOOLEAN, ..., x NULL, y NULL} | {"a":true,"#10":"01","#2":"0A"} | {"#10":"01","#2":"0a","a":true} | 80ff03052020010a0101
SEQUENCE {a BOOLEAN, ..., x INTEGER (0..255), y BOOLEAN} | {"a":true,"#10":"01","#2":"09"} | {"#10":"01","#2":"09","a":true} | 80ff0305202001090101
ENUMERATED {a, ..., b} | "b" | "b" | 01
SEQUENCE {a ENUMERATED {b, ..., c} DEFAULT c, d BOOLEAN DEFAULT FALSE} | {"a":"c","d":false} | {"a":"c","d":false} | 00
SEQUENCE {a ENUMERATED {b, ..., c} DEFAULT c, d BOOLEAN DEFAULT FALSE} | {"a":"b","d":true} | {"a":"b","d":true} | c000ff
SEQUENCE {a OCTET STRING DEFAULT '0aFF'H, b BIT STRING DEFAULT 'ABC'H} | {"a":"0aff","b":"101010111100"} | {"a":"0aff","b":"101010111100"} | 00
SEQUENCE {a OBJECT IDENTIFIER DEFAULT {1 2 840}} | {"a":"1.2.840"} | {"a":"1.2.840"} | 00
SEQUENCE {a OBJECT IDENTIFIER DEFAULT {1 2 840}} | {"a":"1.2.841"} | {"a":"1.2.841"} | 80032a8649
SEQUENCE (SIZE(1..2)) OF BOOLEAN | [true,false] | [true,false] | 0102ff00
SEQUENCE SIZE(1..4) OF SEQUENCE (SIZE(0..MAX)) OF UTF8String | [["é"],[]] | [["é"],[]] | 0102010102c3a90100
CHOICE {a NULL, ..., b OCTET STRING} | {"a":null} | {"a":null} | 80
CHOICE {a NULL, ..., b OCTET STRING} | {"b":"6162"} | {"b":"6162"} | 8103026162
CHOICE {a NULL, ..., b OCTET STRING} | {"#c5":"0102"} | {"#c5":"0102"} | 85020102
CHOICE {a NULL, ..., b OCTET STRING} | {"#u0":""} | {"#u0":""} | 0000"##;

/// A type; JSON that stands for no value of it; the error.
pub const REFUSED_JSON: &str = r##"INTEGER | "170141183460469231731687303715884105728" | Range
INTEGER | "05" | Kind
INTEGER | "-0" | Kind
INTEGER | 1.0 | Kind
INTEGER | true | Kind
INTEGER (0..5) | 6 | Misfit
INTEGER (-5..MAX) | -6 | Misfit
INTEGER (MIN..4) | 5 | Misfit
INTEGER (7) | 6 | Misfit
INTEGER (7) | 8 | Misfit
BOOLEAN | null | Kind
OCTET STRING | "ABc" | Kind
BIT STRING | "102" | Kind
BIT STRING (SIZE(1..8)) | "" | Misfit
BIT STRING (SIZE(1..8)) | "000000000" | Misfit
OCTET STRING (SIZE(2..MAX)) | "61" | Misfit
OBJECT IDENTIFIER | "2.01" | Kind
OBJECT IDENTIFIER | "1" | Kind
OBJECT IDENTIFIER | "1.40" | Misfit
OBJECT IDENTIFIER | "1.2.340282366920938463463374607431768211456" | Range
PrintableString | "@" | Misfit
NumericString | "a" | Misfit
NumericString (SIZE(0..4)) | "12345" | Misfit
VisibleString | "\u007f" | Misfit
IA5String | "é" | Misfit
IA5String (SIZE(3)) | "ab" | Misfit
UTF8String (SIZE(1)) | "ab" | Misfit
UTF8String (SIZE(1)) | "" | Misfit
ENUMERATED {a(5), ...} | "d" | Name
ENUMERATED {a(5), ...} | 9223372036854775808 | Range
ENUMERATED {a(5), ...} | 1.5 | Kind
SEQUENCE {a BOOLEAN, b NULL OPTIONAL} | {"b":null} | Missing
SEQUENCE {a BOOLEAN, b NULL OPTIONAL} | {"a":true,"z":1} | Name
SEQUENCE {a BOOLEAN, b NULL OPTIONAL} | {"a":1} | Kind
SEQUENCE {a BOOLEAN, b INTEGER OPTIONAL} | {"a":true,"b":null} | Kind
SEQUENCE {b INTEGER (0..255), ..., x INTEGER} | {"b":256,"x":true} | Misfit
SEQUENCE {a BOOLEAN, ..., x NULL, y NULL} | {"a":true,"#1":"00"} | Misfit
SEQUENCE {a BOOLEAN, ..., x NULL, y NULL} | {"a":true,"#02":"00"} | Name
SEQUENCE {a BOOLEAN, ..., x NULL, y NULL} | {"a":true,"#65536":"00"} | Range
SEQUENCE {a BOOLEAN, ..., x NULL, y NULL} | {"a":true,"#70000":"00","#65537":0} | Kind
SEQUENCE {a BOOLEAN, ..., x NULL, y NULL} | {"a":true,"#2":0} | Kind
SEQUENCE {a BOOLEAN} | {"#2":"00","a":true} | Name
SEQUENCE {a BOOLEAN} | [] | Kind
SEQUENCE SIZE(1..4) OF BOOLEAN | [] | Misfit
SEQUENCE SIZE(1..4) OF BOOLEAN | [true,true,true,true,true] | Misfit
CHOICE {a NULL, ..., b OCTET STRING} | {} | Kind
CHOICE {a NULL, ..., b OCTET STRING} | {"a":null,"b":""} | Kind
CHOICE {a NULL, ..., b OCTET STRING} | {"z":null} | Name
CHOICE {a NULL, ..., b OCTET STRING} | {"#c1":""} | Misfit
CHOICE {a NULL, ..., b OCTET STRING} | {"#c4294967296":""} | Range
CHOICE {a NULL, ..., b OCTET STRING} | {"#c05":""} | Name
CHOICE {a NULL, ..., b OCTET STRING} | {"#c5":5} | Kind
CHOICE {a NULL} | {"#c5":""} | Name
SEQUENCE {a BOOLEAN, b INTEGER (0..255) DEFAULT 7, c NULL OPTIONAL, ...} | {"b":8} | Missing
SEQUENCE {a BOOLEAN, b INTEGER (0..255) DEFAULT 7, c NULL OPTIONAL, ...} | {"a":true,"z":1} | Name
SEQUENCE {a BOOLEAN, b INTEGER (0..255) DEFAULT 7, c NULL OPTIONAL, ...} | {"a":1} | Kind
ENUMERATED {a(5), b(128), c(-1)} | "d" | Name
SEQUENCE {a BOOLEAN, ..., x INTEGER (0..255), y BOOLEAN} | {"a":true,"#1":"00"} | Misfit
SEQUENCE {a BOOLEAN, ..., x INTEGER (0..255), y BOOLEAN} | {"a":true,"#02":"00"} | Name
SEQUENCE {a BOOLEAN, ..., x INTEGER (0..255), y BOOLEAN} | {"a":true,"#65536":"00"} | Range
SEQUENCE {a BOOLEAN, ..., x INTEGER (0..255), y BOOLEAN} | {"a":true,"#2":0} | Kind
CHOICE {a [62] NULL, b [63] NULL, c [200] NULL} | {"#c5":""} | Name
SEQUENCE {a BOOLEAN} | {} | Missing"##;
