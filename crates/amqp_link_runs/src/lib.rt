//! Delivery ids in order, and the runs in which dispositions name them (OASIS AMQP 1.0 core, 2.7.6).
#![tactic(auto)]

ghost use Rattle.std.specs.Prelude.{◌≡◌, ◌++◌, ◌∷◌, ◌≤◌, [], ℕ, List, length, IfOk, IsOk, OnOk, OnErr};
ghost use Rattle.amqp_link_runs.specs.Order.{sorted_by};
ghost use Rattle.amqp_link_runs.specs.Runs.{AreRuns};

pub mod laws;

use std::alloc::{AllocError, Global};

/// Delivery ids from a first to a last one, both included.
#[derive(Clone, Copy, Debug, PartialEq, Eq)]
pub struct Run {
    /// The first id.
    pub first: u32,
    /// The last id.
    pub last: u32,
}

/// Sorts pairs by their ids; those of one id stay in the order in which they are listed. Ids are compared as
/// plain numbers, which do not wrap.
///
/// Refused, with nothing changed, only if it is out of memory; up to 20 pairs allocate nothing.
pub fn sort_by_id<T>(pairs: &mut Vec<(u32, T)>) -> Result<(), AllocError>
    ensures sorted { OnOk result (pairs.new.items ≡ sorted_by (λ pair. pair.0) pairs.old.items) }
    ensures left { OnErr result (pairs.new.items ≡ pairs.old.items) }
    ensures few { length pairs.old.items ≤ 20 → IsOk result }
{
    pairs.sort_by_key(|pair| pair.0)
}

// The run after one more id: the current one, extended, or a new one that begins with the id.
fn next_run(runs: &mut Vec<Run>, current: Run, id: u32) -> Result<Run, AllocError>
    ensures { IfOk result (λ next. (ids : List ℕ) → AreRuns ids (runs.old.items ++ current ∷ [])
        → AreRuns (ids ++ id ∷ []) (runs.new.items ++ next ∷ [])) }
{
    if current.last.checked_add(1) == Some(id) {
        return Ok(Run {
            first: current.first,
            last: id,
        });
    }
    runs.push(current)?;
    Ok(Run {
        first: id,
        last: id,
    })
}

/// The longest runs of these ids, in the order in which they are listed: a run is extended only by the next
/// number. Equal ids are in runs of their own. May allocate.
pub fn runs_of(alloc: Global, ids: &[u32]) -> Result<Vec<Run>, AllocError>
    ensures { IfOk result (λ runs. AreRuns ids.now runs.items) }
{
    let mut runs = Vec::new(alloc);
    let Some((first, rest)) = ids.split_first() else {
        return Ok(runs);
    };
    let mut current = Run {
        first: *first,
        last: *first,
    };
    for id in rest {
        current = next_run(&mut runs, current, *id)?;
    }
    runs.push(current)?;
    Ok(runs)
}
