//! Octets row by row, which no program asks for at once; and parts of a type that no text spells.
use crate::shared::{NESTED, is_well, type_of};
use oer_reader::{PartFault, Role, Row, Step, part, part_range, rows};
use oer_text::parse_type;
use std::test::Fail;

// Whether the row is this one.
fn is_row(row: &Row, offset: usize, role: Role, path: &[Step], octets: &[u8]) -> bool {
    row.offset == offset && row.role == role && row.path.as_slice() == path && row.octets == octets
}

#[test]
fn octets_have_rows(rt: HostRuntime) -> Result<(), Fail> {
    let at = rt.alloc();
    let text = "SEQUENCE {a BOOLEAN, ..., x INTEGER (0..255), y BOOLEAN}";
    let schema = parse_type(at, text)?;
    let octets = [0x80u8, 0xff, 0x02, 0x06, 0x80, 0x01, 0x09];
    let listing = rows(at, &schema, &octets)?;
    let [preamble, a, bitmap, length, x] = listing.rows.as_slice() else {
        return Err("five rows".into());
    };
    let in_root = is_row(preamble, 0, Role::Preamble, &[], &[0x80])
        && is_row(a, 1, Role::Contents, &[Step::Component(0)], &[0xff]);
    is_well("the root", in_root)?;
    let in_additions = is_row(bitmap, 2, Role::Bitmap, &[], &[0x02, 0x06, 0x80])
        && is_row(length, 5, Role::Length, &[Step::Addition(0)], &[0x01])
        && is_row(x, 6, Role::Contents, &[Step::Addition(0)], &[0x09]);
    is_well("the additions", in_additions)
}

#[test]
fn parts_of_nested_types(rt: HostRuntime) -> Result<(), Fail> {
    let schema = type_of(rt.alloc(), NESTED)?;
    let leaf = [Step::Component(0), Step::Component(0)];
    let octets = [0x80u8, 0x80, 0xff];
    is_well(
        "inner",
        part_range(&schema, &octets, &leaf[..1]) == Ok(1..3),
    )?;
    is_well("leaf", part_range(&schema, &octets, &leaf) == Ok(2..3))?;
    let absent = part(&schema, &[0x80u8, 0x00], &leaf);
    is_well("absent", absent == Err(PartFault::Absent))
}
