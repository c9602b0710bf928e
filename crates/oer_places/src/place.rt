//! Where a place of a text is.
ghost use Rattle.std.specs.Prelude.{◌≡◌, ◌≤◌, IfOk, length};
ghost use Rattle.oer_places.specs.Place.{characters, first_line, items_of, last_line, line_feeds, place_of};

use std::alloc::{AllocError, Global};

/// A line of a text, and a column in it, both counted from 1. The column counts characters.
#[derive(Clone, Copy, Debug, PartialEq, Eq)]
pub struct Place {
    pub line: usize,
    pub column: usize,
}

// How many line feeds there are.
fn line_feeds(octets: &[u8]) -> usize
    ensures count { result ≡ line_feeds octets.now }
    ensures most { result ≤ length octets.now }
{
    let mut count = 0;
    for octet in octets {
        if *octet == b'\n' {
            count += 1;
        }
    }
    count
}

// How many characters begin.
fn characters(octets: &[u8]) -> usize
    ensures count { result ≡ characters octets.now }
    ensures most { result ≤ length octets.now }
{
    let mut count = 0;
    for octet in octets {
        if *octet < 128 || *octet > 191 {
            count += 1;
        }
    }
    count
}

/// What stands behind the last line feed.
pub fn last_line(alloc: Global, octets: &[u8]) -> Result<Vec<u8>, AllocError>
    ensures { IfOk result (λ line. items_of line ≡ last_line octets.now) }
{
    let mut line = Vec::new(alloc);
    for octet in octets {
        if *octet == b'\n' {
            line.clear();
        } else {
            line.push(*octet)?;
        }
    }
    Ok(line)
}

/// What stands before the first line feed, or carriage return.
pub fn first_line(alloc: Global, octets: &[u8]) -> Result<Vec<u8>, AllocError>
    ensures { IfOk result (λ line. items_of line ≡ first_line octets.now) }
{
    let mut line = Vec::new(alloc);
    for octet in octets {
        if *octet == b'\n' || *octet == b'\r' {
            return Ok(line);
        }
        line.push(*octet)?;
    }
    Ok(line)
}

/// The place behind this front of a text. It fails where an allocation does.
pub fn place_of(alloc: Global, front: &[u8]) -> Result<Place, AllocError>
    ensures { IfOk result (λ place. place ≡ place_of front.now) }
{
    let line = last_line(alloc, front)?;
    Ok(Place {
        line: line_feeds(front).saturating_add(1),
        column: characters(&line).saturating_add(1),
    })
}
