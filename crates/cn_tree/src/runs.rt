//! Runs of a node's sets.
ghost use Rattle.std.specs.Prelude.{◌≡◌, ◌+◌, ◌-◌, ◌++◌, length as number_of, take, drop as without, OnOk, IfOk, IfErr};
ghost use Rattle.cn_tree.specs.Tree.{in_place_of_run as replaced, set_list};
ghost use Rattle.cn_tree.specs.Runs.{IsRun, RefusesRun};

use crate::node::{add_shares, share_all};
use crate::tree_fault::TreeFault;
use hse_io::NoMemory;
use hse_rows::Shared;
use std::alloc::Global;

/// The sets in front of a run and those behind it.
fn around_run<'a, R: Shared>(
    sets: &'a [R],
    below: u64,
    length: u64,
) -> Result<(&'a [R], &'a [R]), TreeFault>
    ensures run { IfOk result (λ _. IsRun (number_of sets.now) below length) }
    ensures front { IfOk result (λ parts. parts.0.now
        ≡ take (number_of sets.now - (below + length)) sets.now) }
    ensures behind { IfOk result (λ parts. parts.1.now
        ≡ without (number_of sets.now - below) sets.now) }
    ensures refused { IfErr result (RefusesRun (number_of sets.now) below length) }
{
    let have = sets.len() as u64;
    if length == 0 {
        return Err(TreeFault::NoRun(have));
    }
    if below > have {
        return Err(TreeFault::NoRun(have));
    }
    let end = have - below;
    if length > end {
        return Err(TreeFault::NoRun(have));
    }
    let (front, _) = sets.split_at((end - length) as usize);
    let (_, behind) = sets.split_at(end as usize);
    Ok((front, behind))
}

/// Adds a set where there is one.
fn add_set<R: Shared>(into: &mut Vec<R>, set: Option<R>) -> Result<(), NoMemory>
    ensures { OnOk result
        (into.new.items ≡ into.old.items ++ set_list set) }
{
    if let Some(set) = set {
        into.push(set)?;
    }
    Ok(())
}

/// The sets with another one, or none, in place of a run.
pub(crate) fn in_place_of_run<R: Shared>(
    alloc: Global,
    sets: &[R],
    below: u64,
    length: u64,
    set: Option<R>,
) -> Result<Vec<R>, TreeFault>
    ensures run { IfOk result (λ _. IsRun (number_of sets.now) below length) }
    ensures made { IfOk result (λ new. new.items ≡ replaced sets.now below length (set_list set)) }
    ensures refused { IfErr result (RefusesRun (number_of sets.now) below length) }
{
    let (front, behind) = around_run(sets, below, length)?;
    let mut new = share_all(alloc, front)?;
    add_set(&mut new, set)?;
    add_shares(alloc, &mut new, behind)?;
    Ok(new)
}
