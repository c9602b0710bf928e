//! Automatic tags behind a second marker, in groups and behind COMPONENTS OF, which no run of the programs shows.
use oer_module_lexer::lex;
use oer_module_parts::{are_tagged_automatically, automatic_numbers, marks_of, places_of};
use oer_module_syntax::{Cursor, Element, TypeSyntax, read_type};
use std::alloc::Global;
use std::test::Fail;

/// What stands between the braces of a type, and the numbers of its automatic tags: none where a tag is written.
const ROWS: [(&str, &[usize]); 4] = [
    ("SEQUENCE {a A, ..., b B, ..., c C}", &[0, 2, 1]),
    (
        "SEQUENCE {a A, ..., [[b B, c C]], d D, ..., e E}",
        &[0, 2, 3, 4, 1],
    ),
    ("SEQUENCE {COMPONENTS OF A, b B}", &[0]),
    ("SET {a A, ..., [[b [3] B]]}", &[]),
];

fn numbers_of(at: Global, elements: &[Element<'_, '_>]) -> Result<Vec<usize>, Fail> {
    let marks = marks_of(at, elements)?;
    if !are_tagged_automatically(&marks) {
        return Ok(Vec::new(at));
    }
    let places = places_of(at, &marks)?;
    Ok(automatic_numbers(at, &places)?)
}

fn has_numbers(at: Global, text: &str, want: &[usize]) -> Result<(), Fail> {
    let tokens = lex(at, text)?;
    let mut cursor = Cursor::new(&tokens);
    let Ok(TypeSyntax::Structure { elements, .. }) = read_type(at, &mut cursor, 9) else {
        return Err(Fail::new(text));
    };
    if numbers_of(at, &elements)?.as_slice() == want {
        return Ok(());
    }
    Err(Fail::new(text))
}

#[test]
fn automatic(rt: HostRuntime) -> Result<(), Fail> {
    for (text, want) in ROWS {
        has_numbers(rt.alloc(), text, want)?;
    }
    Ok(())
}
