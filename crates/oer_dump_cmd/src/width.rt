//! How wide lines are.
ghost use Rattle.oer_options.specs.Words.{behind};
ghost use Rattle.oer_dump_cmd.specs.Words.{IsUsualWidth};

/// How many characters a line has on a terminal of which that isn't known.
const USUAL_WIDTH: u64 = 100;

/// How many characters a line may have if the arguments don't say: as many as a line of the terminal, if
/// standard output is one and `columns`, the variable COLUMNS, has their number; 100, if it is one and
/// COLUMNS doesn't say. Where it is none there is no bound, which is 0.
pub fn usual_width(is_terminal: bool, columns: Option<&str>) -> u64
    ensures { IsUsualWidth is_terminal (behind columns.entry) result }
{
    if !is_terminal {
        return 0;
    }
    let Some(text) = columns else {
        return USUAL_WIDTH;
    };
    match text.parse::<u64>() {
        Ok(width) => width,
        Err(_) => USUAL_WIDTH,
    }
}
