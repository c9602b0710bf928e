//! The jobs that a user of these crates waits for, each over inputs that it makes of a number, to be timed
//! (bench/workloads.txt, docs/PERF.md):
//!
//! - `oer_workloads TASK COUNT SEED`: `types`, `wide`, `lists`;
//! - `oer_workloads TASK COUNT SEED TYPES`: `relay`, `json`, `dump`, over the types of a file.
//!
//! It prints a digest of all results.
#![tactic(auto)]

mod certificate;
mod digest;
mod dumping;
mod lists;
mod messages;
mod module_text;
mod random;
mod relaying;
mod showing;
mod starting;
mod wide_text;

use crate::digest::Digest;
use crate::random::Random;
use oer_text::{Types, parse_types};
use std::alloc::Global;
use std::fs;
use std::process::ExitCode;

/// The type of the messages.
const MESSAGE: &str = "Ieee1609Dot2Data";

/// A task over the types of a text.
fn on_types(
    alloc: Global,
    task: &str,
    count: u32,
    random: &mut Random,
    types: &Types,
) -> Option<Digest> {
    let schema = types.get(MESSAGE)?;
    match task {
        "relay" => relaying::relayed(alloc, schema, count, random),
        "json" => showing::shown(alloc, schema, count, random),
        _ => None,
    }
}

/// A task over a text of types.
fn on_text(
    alloc: Global,
    task: &str,
    count: u32,
    random: &mut Random,
    text: &str,
) -> Option<Digest> {
    if task == "dump" {
        return dumping::dumped(alloc, text, MESSAGE, count, random);
    }
    let types = parse_types(alloc, text).ok()?;
    on_types(alloc, task, count, random, &types)
}

/// A task that makes its types.
fn on_seed(alloc: Global, task: &str, count: u32, random: &mut Random) -> Option<Digest> {
    match task {
        "types" => starting::started(alloc, count, random),
        "wide" => wide_text::parsed(alloc, count, random),
        "lists" => lists::copied(alloc, count, random),
        _ => None,
    }
}

/// What the words ask for, if they are understood and the file is there.
fn asked(rt: &HostRuntime, words: &[String]) -> Option<Digest> {
    let alloc = rt.alloc();
    let [_, task, count, seed, files @ ..] = words else {
        return None;
    };
    let count = count.parse::<u32>().ok()?;
    let mut random = Random::new(seed.parse::<u32>().ok()?);
    match files {
        [] => on_seed(alloc, task.as_str(), count, &mut random),
        [types] => {
            let text = fs::read_to_string(rt, types.as_str()).ok()?;
            on_text(alloc, task.as_str(), count, &mut random, text.as_str())
        }
        _ => None,
    }
}

fn main(rt: HostRuntime) -> ExitCode {
    let failed = ExitCode::from(3);
    let Ok(words) = std::env::args(&rt) else {
        return failed;
    };
    let Ok(words) = words.collect::<Vec<String>>(rt.alloc()) else {
        return failed;
    };
    let Some(digest) = asked(&rt, words.as_slice()) else {
        return failed;
    };
    let sum = digest.sum();
    if println!(rt; "{sum:016x}").is_err() {
        return failed;
    }
    ExitCode::from(0)
}
