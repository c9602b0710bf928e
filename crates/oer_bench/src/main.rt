//! Units, values and types, many times over, to be measured:
//!
//! - `oer_bench TASK TURNS`: units;
//! - `oer_bench TASK TURNS TYPES`: the text of a file;
//! - `oer_bench TASK TURNS TYPES NAME OCTETS`: the octets of a file, under a type of the text.
//!
//! What a turn is given alternates between two copies, since a call whose arguments stay the same could be
//! made once for all turns.
#![tactic(auto)]

mod pieces;
mod twice;
mod units;
mod values;

use oer_text::parse_types;
use std::alloc::Global;
use std::fs;
use std::process::ExitCode;
use twice::{Twice, of_turn};

/// The turns of a task on units.
fn on_units(alloc: Global, task: &str, turns: u32) -> Option<u64> {
    let one = units::list_of(alloc, task)?;
    let other = units::list_of(alloc, task)?;
    let mut sum = 0u64;
    for turn in 0..turns {
        let list = of_turn(turn, one.as_slice(), other.as_slice());
        sum = sum.wrapping_add(units::turn(alloc, task, list));
    }
    Some(sum)
}

/// The turns of a task on a text, of which there are two copies.
fn on_text(alloc: Global, task: &str, one: &str, other: &str, turns: u32) -> Option<u64> {
    match task {
        "new" => values::turns_new(alloc, one, turns),
        _ => Some(values::turns_parse(alloc, one, other, turns)),
    }
}

/// The turns of a task on octets of the type with the name.
fn on_octets(
    alloc: Global,
    task: &str,
    text: &str,
    name: &str,
    octets: &Twice,
    turns: u32,
) -> Option<u64> {
    let types = parse_types(alloc, text).ok()?;
    values::turns_on(alloc, task, types.get(name)?, octets, turns)
}

/// What the words ask for, if they are understood and the files are there.
fn asked(rt: &HostRuntime, words: &[String]) -> Option<u64> {
    let alloc = rt.alloc();
    let [_, task, turns, files @ ..] = words else {
        return None;
    };
    let turns = turns.parse::<u32>().ok()?;
    match files {
        [] => on_units(alloc, task.as_str(), turns),
        [text] => {
            let one = fs::read_to_string(rt, text.as_str()).ok()?;
            let other = fs::read_to_string(rt, text.as_str()).ok()?;
            on_text(alloc, task.as_str(), one.as_str(), other.as_str(), turns)
        }
        [text, name, octets] => {
            let text = fs::read_to_string(rt, text.as_str()).ok()?;
            let octets = Twice {
                one: fs::read(rt, octets.as_str()).ok()?,
                other: fs::read(rt, octets.as_str()).ok()?,
            };
            on_octets(
                alloc,
                task.as_str(),
                text.as_str(),
                name.as_str(),
                &octets,
                turns,
            )
        }
        _ => None,
    }
}

fn main(rt: HostRuntime) -> ExitCode {
    let failed = ExitCode::from(3);
    let Ok(words) = std::env::args(&rt) else {
        return failed;
    };
    let Ok(words) = words.collect::<Vec<String>>(rt.alloc()) else {
        return failed;
    };
    let Some(sum) = asked(&rt, words.as_slice()) else {
        return failed;
    };
    if println!(rt; "{sum}").is_err() {
        return failed;
    }
    ExitCode::from(0)
}
