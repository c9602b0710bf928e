//! Tests of what no row reaches: sources and sinks that stop, types and values that no text spells, and public calls that neither
//! the programs nor the library for C make; through public items alone.
#![tactic(auto)]

#[cfg(test)]
mod devices;
#[cfg(test)]
mod parts;
#[cfg(test)]
mod shared;
#[cfg(test)]
mod types;
#[cfg(test)]
mod units;
#[cfg(test)]
mod values;
#[cfg(test)]
mod writing;
