//! The range of one set; the programs ask for that of constraints in a row.
use oer_module_bounds::{Range, Set, hull_of};
use std::alloc::Global;
use std::test::Fail;

fn single(number: i128) -> Result<Set, Fail> {
    match Range::new(Some(number), Some(number)) {
        Some(range) => Ok(Set::Range(range)),
        None => Err(Fail::new("no range")),
    }
}

fn union(at: Global) -> Result<Set, Fail> {
    let mut members = Vec::new(at);
    members.push(single(6)?)?;
    members.push(single(1)?)?;
    Ok(Set::Union(members))
}

#[test]
fn hull(rt: HostRuntime) -> Result<(), Fail> {
    let at = rt.alloc();
    let set = union(at)?;
    if hull_of(at, &set)? == Range::new(Some(1), Some(6)) {
        return Ok(());
    }
    Err(Fail::new("another range"))
}
