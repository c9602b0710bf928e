//! Actual parameters, which the programs don't read.
use oer_module_lexer::lex;
use oer_module_syntax::{Cursor, Fault};
use oer_module_terms::read_parameters;
use std::alloc::Global;
use std::test::Fail;

/// How many tokens each of the parameters has.
fn lengths(at: Global, text: &str) -> Result<Vec<usize>, Fail> {
    let tokens = lex(at, text)?;
    let mut lengths = Vec::new(at);
    match read_parameters(at, &mut Cursor::new(&tokens)) {
        Ok(parameters) => {
            for parameter in parameters.iter() {
                lengths.push(parameter.len())?;
            }
            Ok(lengths)
        }
        Err(_) => Err(Fail::new(text)),
    }
}

#[test]
fn parameters(rt: HostRuntime) -> Result<(), Fail> {
    let text = "{OCTET STRING (SIZE (1, 2)), [0] B{C, D}, x:1}";
    let want: &[usize] = &[10, 9, 3];
    if lengths(rt.alloc(), text)?.as_slice() == want {
        return Ok(());
    }
    Err(Fail::new(text))
}

/// Where a parameter or a sign is missing.
#[test]
fn faults(rt: HostRuntime) -> Result<(), Fail> {
    for (text, want) in [
        ("{A,,B}", 3),
        ("{}", 1),
        ("{A)", 2),
        ("{A, {B}", 7),
        ("A", 0),
    ] {
        let tokens = lex(rt.alloc(), text)?;
        match read_parameters(rt.alloc(), &mut Cursor::new(&tokens)) {
            Err(Fault { at, .. }) if at == want => (),
            _ => return Err(Fail::new(text)),
        }
    }
    Ok(())
}
