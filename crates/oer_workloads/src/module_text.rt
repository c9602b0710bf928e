//! Texts of types like those of a published module: numbers, strings, enumerations and, more often than these,
//! types that hold earlier ones.
use crate::random::Random;
use std::alloc::{AllocError, Global};
use std::fmt::Write;

/// With what Names begin.
const NAMES: [&str; 8] = [
    "Region", "Header", "Signed", "Station", "Vehicle", "Event", "LaneOf", "ZoneOf",
];

/// With what the names of components, items and alternatives begin.
const IDS: [&str; 8] = [
    "position", "time", "speed", "heading", "cause", "id", "signer", "payload",
];

/// How many of the definitions at the front hold no other.
const LEAVES: usize = 8;

/// What a definition's type has.
#[derive(Clone, Copy)]
struct Extent {
    parts: usize,
    depth: usize,
}

/// A text of definitions, as far as it is written.
#[derive(Drop)]
pub(crate) struct ModuleText {
    alloc: Global,
    text: String,
    extents: Vec<Extent>,
}

impl ModuleText {
    /// A text without definitions.
    pub(crate) fn new(alloc: Global) -> ModuleText {
        ModuleText {
            alloc,
            text: String::new(alloc),
            extents: Vec::new(alloc),
        }
    }

    /// The text.
    pub(crate) fn into_text(self) -> String {
        self.text
    }

    /// Adds a Name.
    fn put_name(&mut self, index: usize) -> Result<(), AllocError> {
        let name = NAMES[index % 8];
        write!(self.text, "{name}{index}")
    }

    /// Adds the name of a component, an item or an alternative.
    fn put_id(&mut self, index: usize) -> Result<(), AllocError> {
        let id = IDS[index % 8];
        write!(self.text, "{id}{index}")
    }

    /// Adds a type that holds no other.
    fn put_leaf(&mut self, random: &mut Random) -> Result<(), AllocError> {
        let low = random.below(1000) + 1;
        let high = low + random.below(60_000);
        let size = random.below(40) + 1;
        match random.below(7) {
            0 => write!(self.text, "INTEGER (0..{high})"),
            1 => write!(self.text, "INTEGER (-{low}..{high})"),
            2 => write!(self.text, "OCTET STRING (SIZE({size}))"),
            3 => write!(self.text, "UTF8String (SIZE(0..255))"),
            4 => write!(self.text, "BIT STRING (SIZE({size}))"),
            5 => write!(self.text, "OCTET STRING"),
            _ => self.put_items(random.below(12) + 2),
        }
    }

    /// Adds an enumeration of so many items.
    fn put_items(&mut self, count: usize) -> Result<(), AllocError> {
        self.text.push_str("ENUMERATED { ")?;
        for index in 0..count {
            self.put_id(index)?;
            self.text.push_str(", ")?;
        }
        self.text.push_str("... }")
    }

    /// Adds the Name of an earlier definition, and what its type has. Large types are left alone, so that
    /// no type becomes too deep or has too many parts.
    fn put_earlier(&mut self, random: &mut Random) -> Result<Extent, AllocError> {
        let index = random.below(self.extents.len());
        if let Some(extent) = self.extents.get(index).copied() {
            if extent.parts <= 400 && extent.depth <= 12 {
                self.put_name(index)?;
                return Ok(extent);
            }
        }
        self.put_name(index % LEAVES)?;
        Ok(Extent {
            parts: 16,
            depth: 1,
        })
    }

    /// Adds the components of a SEQUENCE or the alternatives of a CHOICE, and what they have.
    fn put_members(
        &mut self,
        random: &mut Random,
        is_sequence: bool,
    ) -> Result<Extent, AllocError> {
        let mut extent = Extent { parts: 1, depth: 0 };
        for index in 0..random.below(7) + 2 {
            self.text.push_str("  ")?;
            self.put_id(index)?;
            self.text.push(' ')?;
            let inner = self.put_earlier(random)?;
            extent.parts = extent.parts.saturating_add(inner.parts);
            extent.depth = extent.depth.max(inner.depth);
            if is_sequence && random.is_one_of(3) {
                self.text.push_str(" OPTIONAL")?;
            }
            self.text.push_str(",\n")?;
        }
        Ok(extent)
    }

    /// Adds a SEQUENCE.
    fn put_sequence(&mut self, random: &mut Random) -> Result<Extent, AllocError> {
        self.text.push_str("SEQUENCE {\n")?;
        let extent = self.put_members(random, true)?;
        self.text
            .push_str("  priority INTEGER (0..255) DEFAULT 7,\n  ...\n}")?;
        Ok(extent)
    }

    /// Adds a CHOICE.
    fn put_choice(&mut self, random: &mut Random) -> Result<Extent, AllocError> {
        self.text.push_str("CHOICE {\n")?;
        let extent = self.put_members(random, false)?;
        self.text.push_str("  ...\n}")?;
        Ok(extent)
    }

    /// Adds a type, and what it has.
    fn put_type(&mut self, random: &mut Random) -> Result<Extent, AllocError> {
        if self.extents.len() < LEAVES || random.is_one_of(3) {
            self.put_leaf(random)?;
            return Ok(Extent {
                parts: 16,
                depth: 1,
            });
        }
        let inner = match random.below(6) {
            0 => {
                self.text.push_str("SEQUENCE OF ")?;
                self.put_earlier(random)?
            }
            1 => return self.put_earlier(random),
            2 | 3 => self.put_choice(random)?,
            _ => self.put_sequence(random)?,
        };
        Ok(Extent {
            parts: inner.parts.saturating_add(2),
            depth: inner.depth.saturating_add(1),
        })
    }

    /// Adds a definition.
    pub(crate) fn put_definition(&mut self, random: &mut Random) -> Result<(), AllocError> {
        let index = self.extents.len();
        self.text.push_str("-- as the standard defines it\n")?;
        self.put_name(index)?;
        self.text.push_str(" ::= ")?;
        let extent = self.put_type(random)?;
        self.text.push('\n')?;
        self.extents.push(extent)?;
        Ok(())
    }

    /// Adds the definition of a message, with an earlier type in it.
    pub(crate) fn put_message(&mut self, random: &mut Random) -> Result<(), AllocError> {
        self.text.push_str("Message ::= SEQUENCE {\n  version INTEGER (0..255),\n  more ")?;
        self.put_earlier(random)?;
        self.text
            .push_str(" OPTIONAL,\n  payload OCTET STRING,\n  ...\n}\n")
    }

    /// Adds an enumeration, a SEQUENCE and a CHOICE that have so many parts, and another Name for each
    /// of them a few times.
    pub(crate) fn put_wide(&mut self, count: usize, aliases: usize) -> Result<(), AllocError> {
        self.text.push_str("Wide ::= ")?;
        self.put_items(count)?;
        self.text.push_str("\nBroad ::= SEQUENCE {\n")?;
        for index in 0..count {
            self.put_id(index)?;
            self.text.push_str(" BOOLEAN,\n")?;
        }
        self.text.push_str("  ...\n}\nMany ::= CHOICE {\n")?;
        for index in 0..count {
            self.put_id(index)?;
            self.text.push_str(" NULL,\n")?;
        }
        self.text.push_str("  ...\n}\n")?;
        for index in 0..aliases {
            writeln!(self.text, "OtherWide{index} ::= Wide")?;
            writeln!(self.text, "OtherBroad{index} ::= Broad")?;
            writeln!(self.text, "OtherMany{index} ::= Many")?;
        }
        Ok(())
    }

    /// Adds a definition that is one of a few types, or another Name for an earlier one.
    pub(crate) fn put_small(&mut self, random: &mut Random) -> Result<(), AllocError> {
        let index = self.extents.len();
        self.put_name(index)?;
        self.text.push_str(" ::= ")?;
        if index > 0 && random.is_one_of(2) {
            self.put_name(random.below(index))?;
        } else {
            self.put_leaf(random)?;
        }
        self.text.push('\n')?;
        self.extents.push(Extent {
            parts: 16,
            depth: 1,
        })?;
        Ok(())
    }
}
