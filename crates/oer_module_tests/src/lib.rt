//! Tests of the crates of modules, of what no run of the programs tells.
#![tactic(auto)]

#[cfg(test)]
mod bounds;
#[cfg(test)]
mod modules;
#[cfg(test)]
mod parts;
#[cfg(test)]
mod terms;
