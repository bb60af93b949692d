//! Ids in runs, and more pairs sorted than the sort of few takes without memory.
use crate::assertions::{assert_equal_at, assert_holds_at};
use amqp_link_runs::{Run, runs_of, sort_by_id};
use std::process::Abort;

// The id of the pair that is listed at a place: ids repeat, and do not rise.
fn id_at(place: u8) -> u32 {
    u32::from(place) * 7 % 5
}

// The places of thirty pairs by their ids, and those of one id as listed.
fn by_id(rt: &(impl Abort + AllocGlobal)) -> Vec<(u32, u8)> {
    let mut pairs = Vec::new(rt.alloc());
    for id in 0..5u32 {
        for place in 0..30u8 {
            if id_at(place) == id {
                pairs.push((id, place)).expect(rt, "memory");
            }
        }
    }
    pairs
}

#[test]
fn more_than_twenty_pairs_are_sorted(rt: HostRuntime) {
    let mut pairs = Vec::new(rt.alloc());
    for place in 0..30u8 {
        pairs.push((id_at(place), place)).expect(&rt, "memory");
    }
    sort_by_id(&mut pairs).expect(&rt, "memory");
    let wanted = by_id(&rt);
    let is_wanted = pairs.as_slice() == wanted.as_slice();
    assert_equal_at(&rt, &wanted.len(), &30, &"all pairs");
    assert_holds_at(&rt, is_wanted, &"by id, then as listed");
}

// Whether the runs of the ids are these.
fn are_runs(rt: &(impl Abort + AllocGlobal), ids: &[u32], wanted: &[Run]) -> bool {
    let runs = runs_of(rt.alloc(), ids).expect(rt, "memory");
    runs.as_slice() == wanted
}

const OF_SIX: &[Run] = &[
    Run { first: 1, last: 3 },
    Run { first: 5, last: 5 },
    Run { first: 5, last: 6 },
];

#[test]
fn ids_are_in_their_longest_runs(rt: HostRuntime) {
    let are_runs = are_runs(&rt, &[1, 2, 3, 5, 5, 6], OF_SIX);
    assert_holds_at(&rt, are_runs, &"a gap, and an id twice");
}
