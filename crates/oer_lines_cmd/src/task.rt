//! What is done with each message.
ghost use Rattle.std.specs.Prelude.{◌≡◌, IfOk, MatchResult, Ok, Err};
ghost use Rattle.oer_lines_cmd.specs.Tasks.{line_task, on_input, unless_given};
ghost use Rattle.oer_lines_cmd.specs.Ways.{word_of};

use crate::misuse::Misuse;
use crate::way::{Way, Word};
use oer_options::{Options, Style, Task};

/// What is done with each message.
#[derive(Clone, Copy)]
pub enum LineTask<'a> {
    /// Its JSON is printed, in this style.
    Show { style: Style },
    /// Its canonical octets are printed.
    Canon,
    /// It is said whether it is canonical.
    Check,
    /// A part of it is printed, at this path.
    Part { path: Option<&'a str> },
}

/// How messages stand on the input, what is done with each, and how many octets it may take.
#[derive(Clone, Copy)]
pub struct Asked<'a> {
    pub way: Way,
    pub task: LineTask<'a>,
    pub limit: u64,
    /// Whether it is told that octets nest deeper than the type is written out.
    pub tells_nesting: bool,
}

// That task, unless octets are given.
fn unless_given<'a>(
    word: Word,
    hex: Option<&'a str>,
    task: LineTask<'a>,
) -> Result<LineTask<'a>, Misuse>
    ensures { result ≡ unless_given word hex.entry task.entry }
{
    match hex {
        None => Ok(task),
        Some(_) => Err(Misuse::Hex(word)),
    }
}

impl<'a> LineTask<'a> {
    /// What a task does with each message, of which this word asks for many.
    ///
    /// # Errors
    /// Subcommand, if the task makes octets; Hex, if octets are given.
    pub fn of(word: Word, task: Task<'a>) -> Result<LineTask<'a>, Misuse>
        ensures { result ≡ line_task word task.entry }
    {
        match task {
            Task::Show { hex, style } => unless_given(word, hex, LineTask::Show { style }),
            Task::Canon { hex } => unless_given(word, hex, LineTask::Canon),
            Task::Check { hex } => unless_given(word, hex, LineTask::Check),
            Task::Make { .. } => Err(Misuse::Subcommand(word)),
            Task::Part { hex, path } => unless_given(word, hex, LineTask::Part { path }),
        }
    }

    // The task on the octets of standard input.
    fn on_input(self) -> Task<'a>
        ensures { result ≡ on_input self.entry }
    {
        match self {
            LineTask::Show { style } => Task::Show { hex: None, style },
            LineTask::Canon => Task::Canon { hex: None },
            LineTask::Check => Task::Check { hex: None },
            LineTask::Part { path } => Task::Part { hex: None, path },
        }
    }
}

impl<'a> Asked<'a> {
    /// What the options ask for. `tells_nesting`: whether it is told that octets nest deeper than the type is written out.
    ///
    /// # Errors
    /// Those of `LineTask::of`.
    pub fn of(way: Way, options: Options<'a>, tells_nesting: bool) -> Result<Asked<'a>, Misuse>
        ensures task { MatchResult result (λ asked. line_task (word_of way) options.entry.task ≡ Ok asked.task)
            (λ m. line_task (word_of way) options.entry.task ≡ Err m) }
        ensures way { IfOk result (λ asked. asked.way ≡ way) }
        ensures limit { IfOk result (λ asked. asked.limit ≡ options.entry.limit) }
        ensures tells { IfOk result (λ asked. asked.tells_nesting ≡ tells_nesting) }
    {
        match LineTask::of(way.word(), options.task) {
            Ok(task) => Ok(Asked {
                way,
                task,
                limit: options.limit,
                tells_nesting,
            }),
            Err(misuse) => Err(misuse),
        }
    }

    /// The options of one message, whose octets stand on standard input.
    pub fn on_input(self) -> Options<'a>
        ensures task { result.task ≡ on_input self.entry.task }
        ensures limit { result.limit ≡ self.entry.limit }
    {
        Options {
            task: self.task.on_input(),
            type_text: None,
            types: None,
            name: None,
            limit: self.limit,
        }
    }
}
