//! A sink that compares what is written with octets that are there.
ghost use Rattle.std.specs.Prelude.{◌≡◌, ◌↔◌, ◌<◌, ◌^◌, Some, [], IsTrue, length};
ghost use Rattle.std.specs.Io.{WritesAtMost};
ghost use Rattle.std.specs.Io.KnownBytes.{WriteAppends};
ghost use Rattle.oer_units.specs.Stream.{counted_write};
ghost use Rattle.oer_leaves.specs.Comparing.{IsSame, StandsAt, StandsNext, beside, failed_of, held_by};

use oer_units::Sink;
use std::io;

// The first octet that differs, and how many calls failed after it.
#[derive(Clone, Copy)]
struct Differing {
    octet: u8,
    failures: u64,
}

/// Takes octets as long as they are the ones that are there, and one that isn't. Then it fails.
#[derive(Drop)]
pub struct Comparison<'a> {
    octets: &'a [u8],
    at: usize,
    differing: Option<Differing>,
}

impl<'a> Comparison<'a> {
    /// Before the first octet.
    pub fn new(octets: &'a [u8]) -> Comparison<'a>
        ensures few { length octets.now < 2 ^ 64 }
        ensures held { held_by result ≡ Some (beside octets.now []) }
        ensures failed { failed_of result ≡ 0 }
    {
        Comparison {
            octets,
            at: 0,
            differing: None,
        }
    }

    // Whether the part stands next.
    fn stands_next(&self, part: &[u8]) -> bool
        ensures { IsTrue result ↔ StandsNext self.now part.now }
    {
        self.differing.is_none() && stands_at(self.octets, self.at, part)
    }

    /// Whether all octets came, and no other.
    pub fn is_same(&self) -> bool
        ensures { IsTrue result ↔ IsSame self.now }
    {
        self.differing.is_none() && self.at >= self.octets.len()
    }
}

// Whether the part stands at that place.
fn stands_at(octets: &[u8], at: usize, part: &[u8]) -> bool
    ensures { IsTrue result ↔ StandsAt octets.now at part.now }
{
    if at > octets.len() || part.len() > octets.len() - at {
        return false;
    }
    &octets[at..at + part.len()] == part
}

impl Sink for Comparison<'_> {
    ghost contents = { λ s. held_by s };

    ghost failed = { λ s. failed_of s };

    fn push(&mut self, from: &[u8]) -> io::Result<usize> {
        if self.stands_next(from) {
            self.at += from.len();
            return Ok(from.len());
        }
        let Some(first) = from.first() else {
            return Ok(0);
        };
        if let Some(differing) = &mut self.differing {
            differing.failures = differing.failures.saturating_add(1);
            return Ok(0);
        }
        match self.octets.get(self.at) {
            Some(octet) if *octet == *first => self.at += 1,
            _ => self.differing = Some(Differing {
                octet: *first,
                failures: 0,
            }),
        }
        Ok(1)
    }

    fn failures(&self) -> u64 {
        match self.differing {
            None => 0,
            Some(differing) => differing.failures,
        }
    }
}
