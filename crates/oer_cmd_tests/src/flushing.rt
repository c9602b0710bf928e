//! Runs whose output takes all octets and can't be flushed.
use std::alloc::Global;
use std::io;
use std::io::{Error, ErrorKind, Write};
use std::test::Fail;

/// Takes all octets. Its flushes fail.
#[derive(Drop)]
struct Unflushed {
    held: Vec<u8>,
    flushes: usize,
    is_interrupted: bool,
}

impl Write for Unflushed {
    fn write(&mut self, from: &[u8]) -> io::Result<usize> {
        if self.held.extend_from_slice(from).is_err() {
            return Err(Error::from(ErrorKind::OutOfMemory));
        }
        Ok(from.len())
    }

    fn flush(&mut self) -> io::Result<()> {
        self.flushes = self.flushes.saturating_add(1);
        if self.is_interrupted {
            return Err(Error::from(ErrorKind::Interrupted));
        }
        Err(Error::from(ErrorKind::Other))
    }
}

// The words that ` | ` separates, of which the first is the program.
fn words_of(alloc: Global, text: &str) -> Result<Vec<String>, Fail> {
    let mut words = Vec::new(alloc);
    for word in text.split(" | ") {
        words.push(String::from_str(alloc, word)?)?;
    }
    Ok(words)
}

// That a run which prints says that its output failed, with status 3, after one flush.
fn is_told(alloc: Global, text: &str, is_interrupted: bool) -> Result<(), Fail> {
    let words = words_of(alloc, text)?;
    let words = words.as_slice();
    let mut input: &[u8] = &[];
    let mut output = Unflushed {
        held: Vec::new(alloc),
        flushes: 0,
        is_interrupted,
    };
    let mut errors = Vec::new(alloc);
    let ended = if text.starts_with("oer-dump") {
        oer_dump_cmd::run(alloc, words, 0, &mut input, &mut output, &mut errors)
    } else {
        oer_cmd::run(alloc, words, &mut input, &mut output, &mut errors)
    };
    let is_said = errors.as_slice() == b"oer: output failed\n".as_slice();
    if ended == 3 && output.flushes == 1 && !output.held.is_empty() && is_said {
        return Ok(());
    }
    Err(Fail::new(text))
}

/// A program, and words for which it prints a line, lines, or its help.
const RUNS: &str = "oer | canon | --type=BOOLEAN | --hex=01
oer | show | --type=BOOLEAN | --hex=01
oer | check | --type=BOOLEAN | --hex=01
oer | part | --type=BOOLEAN | --hex=01
oer | make | --type=BOOLEAN | --json=true
oer | --help
oer-dump | --type=BOOLEAN | --hex=02
oer-dump | --help";

#[test]
fn a_flush_that_fails(rt: HostRuntime) -> Result<(), Fail> {
    for text in RUNS.lines() {
        is_told(rt.alloc(), text, false)?;
        is_told(rt.alloc(), text, true)?;
    }
    Ok(())
}
