//! Tests of the commands of both programs, through `run`: an output that can't be flushed. All else that fails, ends or is slow is
//! tested by `tools/test_devices`, over the programs, whose standard output has nothing to flush.
#![tactic(auto)]

#[cfg(test)]
mod flushing;
