//! From texts to modules.
ghost use Rattle.std.specs.Prelude.{◌≡◌, IfOk, OnOk, map};
ghost use Rattle.oer_module_lexer.specs.Lexing.{lex};
ghost use Rattle.oer_module_syntax.specs.Tree.{module_of};
ghost use Rattle.oer_module_syntax.specs.declared.fault.Why.TheVariants as fault;
ghost use Rattle.oer_modules.specs.Places.{lexed_of};
ghost use Rattle.oer_modules.specs.Texts.{IsRead, library_of, no_modules, read_each, with_modules, with_text};

use oer_module_lexer::{Tokens, lex};
use oer_module_syntax::{Cursor, Fault, Module, read_modules};
use std::alloc::{AllocError, Global};
use std::iter;

/// How many levels of types may nest in the text of a module.
const LEVELS: u8 = 64;

/// Modules, and which of the texts each is from; they count from 0.
#[derive(Drop)]
pub struct Library<'s, 't> {
    pub modules: Vec<Module<'s, 't>>,
    pub homes: Vec<usize>,
}

/// What is wrong with a text, and which it is; they count from 0.
#[derive(Clone, Copy)]
pub struct Misread {
    pub text: usize,
    pub fault: Fault,
}

impl From<AllocError> for Misread {
    ghost from_gives = { λ _ e. e.fault.why ≡ fault.Memory };

    fn from(error: AllocError) -> Misread {
        Misread {
            text: 0,
            fault: Fault::from(error),
        }
    }
}

/// The tokens of each text. The error is that an allocation failed.
pub fn lex_each<'t>(alloc: Global, texts: &[&'t str]) -> Result<Vec<Tokens<'t>>, AllocError>
    ensures { IfOk result (λ v. map lexed_of v.items ≡ map (λ t. lex t.now) texts.now) }
{
    let mut found = Vec::new(alloc);
    for text in texts {
        let tokens = lex(alloc, text)?;
        found.push(tokens)?;
    }
    Ok(found)
}

impl<'s, 't> Library<'s, 't> {
    /// Adds the modules of a text.
    fn add(&mut self, text: usize, found: Vec<Module<'s, 't>>) -> Result<(), AllocError>
        ensures { OnOk result (library_of self.new ≡ with_modules text (map module_of found.entry.items) (library_of self.old)) }
    {
        let count = found.len();
        self.modules.extend(found)?;
        self.homes.extend(iter::repeat_n(text, count))
    }

    /// Reads the modules of a text from its tokens.
    fn read(&mut self, alloc: Global, text: usize, tokens: &'s Tokens<'t>) -> Result<(), Misread>
        ensures { IsRead (λ _. library_of self.new) result (with_text text (lexed_of tokens.now) (library_of self.old)) }
    {
        match read_modules(alloc, &mut Cursor::new(tokens), LEVELS) {
            Ok(found) => Ok(self.add(text, found)?),
            Err(fault) => Err(Misread { text, fault }),
        }
    }
}

/// The modules of all texts, from their tokens, in the order written. The error is the first fault of the first text
/// that has one.
pub fn read_each<'s, 't>(
    alloc: Global,
    tokens: &'s [Tokens<'t>],
) -> Result<Library<'s, 't>, Misread>
    ensures { IsRead library_of result (read_each 0 (map lexed_of tokens.now) no_modules) }
{
    let mut library = Library {
        modules: Vec::new(alloc),
        homes: Vec::new(alloc),
    };
    for (text, of) in tokens.iter().enumerate() {
        library.read(alloc, text, of)?;
    }
    Ok(library)
}
