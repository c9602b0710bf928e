//! Rows of tables.
use std::alloc::Global;
use std::test::Fail;

/// The first columns of a row, and all that is left of it. What isn't there is empty.
#[derive(Clone, Copy)]
pub struct Row<'t> {
    pub first: &'t str,
    pub second: &'t str,
    pub third: &'t str,
    pub rest: &'t str,
}

/// The columns of the row.
pub fn row_of(row: &str) -> Row<'_> {
    let (first, rest) = row.split_once(" | ").unwrap_or((row, ""));
    let (second, rest) = rest.split_once(" | ").unwrap_or((rest, ""));
    let (third, rest) = rest.split_once(" | ").unwrap_or((rest, ""));
    Row {
        first,
        second,
        third,
        rest,
    }
}

/// The row with each piece as often as it comes.
pub fn expanded(at: Global, row: &str) -> Result<String, Fail> {
    let mut all = String::new(at);
    let mut is_repeated = false;
    for piece in row.split('~') {
        let (run, times) = if is_repeated {
            piece.rsplit_once('*').ok_or("how often a piece comes")?
        } else {
            (piece, "1")
        };
        let pieces = run.repeat(at, times.parse::<usize>()?)?;
        all.push_str(pieces.as_str())?;
        is_repeated = !is_repeated;
    }
    Ok(all)
}
