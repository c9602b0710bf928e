//! Entries as text: a line for each, in columns.
ghost use Rattle.std.specs.Prelude.{◌≡◌, ◌<◌, ◌∷◌, [], ◌++◌, IfOk, IfSome, List, OnOk, is_some, map, string_bytes};
ghost use Rattle.std.specs.Fmt.{decimal};
ghost use Rattle.oer_types.specs.Schema.{the_type};
ghost use Rattle.oer_rows.specs.Listing.{rows_of};
ghost use Rattle.oer_entries.specs.Entries.{AreOfRows};
ghost use Rattle.oer_entries.specs.Places.{IsPlace, is_rejected};
ghost use Rattle.oer_entries.specs.declared.entry.Entry.{Entry};
ghost use Rattle.oer_layout.specs.Cells.{cells_in, cells_of};
ghost use Rattle.oer_layout.specs.Layout.{AreWidths, gap, left, line_text, most_of, names_shown, right, spaces, value_shown, widest, with_cells};
ghost use Rattle.oer_layout.specs.Printing.{PrintsLine, PrintsLines};
ghost use Rattle.oer_layout.specs.Pages.{PrintsLinesOf};
ghost use Rattle.oer_places.specs.Visible.{visible};

use crate::columns::{LEAST, Widths, digits_of};
use crate::cut::{cut_names, cut_value};
use crate::line::{Line, line_of};
use crate::outgoing::{Outgoing, block_text, write_last};
use oer_entries::{Entry, Place, Stopped, TakeEntry, each_entry, extents_of};
use oer_places::{count_of, push_visible};
use oer_types::Schema;
use std::alloc::{AllocError, Global};
use std::fmt::Write as _;
use std::io::Write;

// Fewer spaces than eight.
fn few_spaces(count: usize) -> &'static str
    requires { count < 8 }
    ensures { result.now ≡ spaces count }
{
    match count {
        0 => "",
        1 => " ",
        2 => "  ",
        3 => "   ",
        4 => "    ",
        5 => "     ",
        6 => "      ",
        7 => "       ",
        _ => unreachable!(),
    }
}

// Appends so many spaces, eight at a time.
fn push_spaces(text: &mut String, count: usize) -> Result<(), AllocError>
    ensures { OnOk result (string_bytes text.new ≡ string_bytes text.old ++ spaces count) }
{
    for _ in 0..count / 8 {
        text.push_str("        ")?;
    }
    text.push_str(few_spaces(count % 8))
}

// Appends a number at the right of its column, and a gap.
fn push_number(text: &mut String, number: usize, width: usize) -> Result<(), AllocError>
    ensures { OnOk result (string_bytes text.new ≡ string_bytes text.old ++ (right width (decimal number) ++ gap)) }
{
    push_spaces(text, width.saturating_sub(digits_of(number)))?;
    write!(text, "{number}")?;
    push_spaces(text, 2)
}

// Appends a cell at the left of its column, and a gap.
fn push_left(text: &mut String, cell: &str, width: usize) -> Result<(), AllocError>
    ensures { OnOk result (string_bytes text.new ≡ string_bytes text.old ++ (left width cell.now ++ gap)) }
{
    text.push_str(cell)?;
    push_spaces(text, width.saturating_sub(cell.len()))?;
    push_spaces(text, 2)
}

// Appends names at the left of their column, and a gap. Where the column has no room for them they are cut.
fn push_names(alloc: Global, text: &mut String, names: &str, width: usize) -> Result<(), AllocError>
    ensures { OnOk result (string_bytes text.new ≡ string_bytes text.old ++ (left width (names_shown width names.now) ++ gap)) }
{
    if names.len() <= width {
        return push_left(text, names, width);
    }
    let cut = cut_names(alloc, names, width)?;
    push_left(text, cut.as_str(), width)
}

// Appends the value. One that has more characters than there is room for is cut.
fn push_value(
    alloc: Global,
    text: &mut String,
    is_digits: bool,
    value: &str,
    room: usize,
) -> Result<(), AllocError>
    ensures { OnOk result (string_bytes text.new ≡ string_bytes text.old ++ value_shown is_digits room value.now) }
{
    if value.len() <= room || count_of(value) <= room {
        return text.push_str(value);
    }
    let cut = cut_value(alloc, is_digits, value, room)?;
    text.push_str(cut.as_str())
}

// Appends the cells of the line.
fn push_cells(
    alloc: Global,
    text: &mut String,
    line: &Line<'_>,
    widths: Widths,
) -> Result<(), AllocError>
    ensures { OnOk result (string_bytes text.new ≡ string_bytes text.old ++ line_text widths (cells_in line.now)) }
{
    push_number(text, line.offset, widths.offset)?;
    push_number(text, line.count, widths.count)?;
    push_left(text, line.path, widths.path)?;
    push_names(alloc, text, line.names, widths.names)?;
    push_left(text, line.kind, widths.kind)?;
    let room = widths.value.saturating_sub(line.note.len()).max(LEAST);
    push_value(alloc, text, line.is_digits, line.value.as_str(), room)?;
    text.push_str(line.note.as_str())
}
// How many octets the cells of most lines have at most.
const USUAL_CELLS: usize = 128;

// The cells of the line.
fn cells_text(alloc: Global, line: &Line<'_>, widths: Widths) -> Result<String, AllocError>
    ensures { IfOk result (λ text. string_bytes text ≡ line_text widths (cells_in line.now)) }
{
    let mut text = String::with_capacity(alloc, USUAL_CELLS)?;
    push_cells(alloc, &mut text, line, widths)?;
    Ok(text)
}

// Appends the line.
fn push_line(
    alloc: Global,
    text: &mut String,
    line: &Line<'_>,
    widths: Widths,
) -> Result<(), AllocError>
    ensures { OnOk result (string_bytes text.new ≡ string_bytes text.old ++ (visible (line_text widths (cells_in line.now)) ++ 10 ∷ [])) }
{
    let cells = cells_text(alloc, line, widths)?;
    push_visible(text, cells.as_str())?;
    text.push('\n')
}

// Appends the line of an entry.
fn push_entry(
    alloc: Global,
    text: &mut String,
    entry: &Entry<'_>,
    widths: Widths,
) -> Result<(), AllocError>
    ensures { OnOk result (string_bytes text.new ≡ string_bytes text.old ++ (visible (line_text widths (cells_of entry.now)) ++ 10 ∷ [])) }
{
    let line = line_of(alloc, entry)?;
    push_line(alloc, text, &line, widths)
}

/// Measures the line of each entry that it takes; of its numbers the greatest are kept.
#[derive(Drop)]
struct Widest {
    alloc: Global,
    widths: Widths,
}

impl TakeEntry for Widest {
    ghost takes = { λ s e t. t.widths ≡ with_cells s.widths (cells_of e) };

    fn take(&mut self, entry: &Entry<'_>) -> Result<(), Stopped> {
        let line = line_of(self.alloc, entry)?;
        self.widths = self.widths.with(&line);
        Ok(())
    }
}

// The numbers and texts of all lines of the octets: the largest, and the most characters.
fn measured(alloc: Global, schema: &Schema, octets: &[u8]) -> Result<Widths, Stopped>
    ensures { IfOk result (λ w. (es : List Entry) × AreOfRows (rows_of (the_type schema.now) octets.now) es × (w ≡ most_of (map cells_of es))) }
{
    let widths = Widths {
        offset: 0,
        count: 0,
        path: 0,
        names: 0,
        kind: 0,
        note: 0,
        value: 0,
    };
    let (widest, _) = each_entry(alloc, schema, octets, Widest { alloc, widths })?;
    Ok(widest.widths)
}

// Wide enough for all lines of the octets, of which no value is cut.
fn uncut(alloc: Global, schema: &Schema, octets: &[u8]) -> Result<Widths, Stopped>
    ensures { IfOk result (λ w. (es : List Entry) × AreOfRows (rows_of (the_type schema.now) octets.now) es × (w ≡ widest (map cells_of es))) }
{
    let mut widths = measured(alloc, schema, octets)?;
    widths.offset = digits_of(widths.offset);
    widths.count = digits_of(widths.count);
    Ok(widths)
}

// How wide the columns are, where a line has so many characters at most; 0 is no bound.
fn widths_of(alloc: Global, schema: &Schema, octets: &[u8], width: u64) -> Result<Widths, Stopped>
    ensures { IfOk result (AreWidths width (the_type schema.now) octets.now) }
{
    if width == 0 {
        return Ok(Widths::of(extents_of(alloc, schema, octets)?));
    }
    let widths = uncut(alloc, schema, octets)?;
    Ok(widths.within(width as usize))
}

/// Prints a line for each entry that it takes.
#[derive(Drop)]
struct Lines<'o, W: Write> {
    alloc: Global,
    widths: Widths,
    out: Outgoing<'o, W>,
}

impl<W: Write> TakeEntry for Lines<'_, W> {
    ghost takes = { λ s e t. (t.widths ≡ s.widths) × PrintsLine W.contents s.widths s.out e t.out };

    fn take(&mut self, entry: &Entry<'_>) -> Result<(), Stopped> {
        push_entry(self.alloc, &mut self.out.text, entry, self.widths)?;
        self.out.send_block()
    }
}

// Prints a line for each entry of octets.
fn print_each<'o, 's, W: Write>(
    alloc: Global,
    schema: &'s Schema,
    octets: &'s [u8],
    lines: Lines<'o, W>,
) -> Result<(Lines<'o, W>, Option<Place<'s>>), Stopped>
    ensures loan { IfOk result (λ done. done.0.out.output.ghost_name ≡ lines.entry.out.output.ghost_name) }
    ensures printed { IfOk result (λ done. PrintsLines W.contents lines.entry.widths (the_type schema.now) octets.now lines.entry.out done.0.out) }
    ensures place { IfOk result (λ done. IfSome done.1 (IsPlace (the_type schema.now))) }
    ensures rejected { IfOk result (λ done. is_some done.1 ≡ is_rejected (the_type schema.now) octets.now) }
{
    each_entry(alloc, schema, octets, lines)
}

/// Prints the lines of the entries of octets. A line has so many characters at most, if that leaves room for
/// its names and its value; 0 is no bound. Returns the part that was being read when the octets were
/// rejected, if they were. It fails if an allocation fails, or if the output does.
pub fn print_lines<'s, W: Write>(
    alloc: Global,
    schema: &'s Schema,
    octets: &'s [u8],
    width: u64,
    output: &mut W,
) -> Result<Option<Place<'s>>, Stopped>
    ensures printed { IfOk result (λ _. PrintsLinesOf width (the_type schema.now) octets.now (W.contents output.old) (W.contents output.new)) }
    ensures place { IfOk result (λ found. IfSome found (IsPlace (the_type schema.now))) }
    ensures rejected { IfOk result (λ found. is_some found ≡ is_rejected (the_type schema.now) octets.now) }
{
    let widths = widths_of(alloc, schema, octets, width)?;
    let text = block_text(alloc, "")?;
    let lines = Lines {
        alloc,
        widths,
        out: Outgoing::new(text, output),
    };
    let (lines, place) = print_each(alloc, schema, octets, lines)?;
    let Lines { out, .. } = lines;
    let Outgoing { text, output } = out;
    write_last(text, "", output)?;
    Ok(place)
}
