//! What follows from the definitions that contracts cite, without any call.
//!
//! Each function here does nothing: its contract is the law.
ghost use Rattle.std.specs.Prelude.{◌≡◌, ℕ, List};
ghost use Rattle.std.specs.List.Sorted.{IsSortedByKey, IsStableByKey, IsPermutation};
ghost use Rattle.std.specs.Ordering.{nat_cmp};
ghost use Rattle.amqp_link_runs.specs.Order.{sorted_by};

/// The list sorted by the numbers of its elements is, by the library's definitions, sorted, a permutation of
/// the list, and stable: elements of one number stay in the order in which they were listed. It is the only
/// such list.
pub fn sorted_is_sorted_stably<T>()
    ensures sorted { (id_of : T → ℕ) (xs : List T) → IsSortedByKey id_of nat_cmp (sorted_by id_of xs) }
    ensures permutation { (id_of : T → ℕ) (xs : List T) → IsPermutation xs (sorted_by id_of xs) }
    ensures stable { (id_of : T → ℕ) (xs : List T) → IsStableByKey id_of nat_cmp xs (sorted_by id_of xs) }
    ensures only { (id_of : T → ℕ) (xs ys : List T) → IsSortedByKey id_of nat_cmp ys
        → IsStableByKey id_of nat_cmp xs ys → ys ≡ sorted_by id_of xs }
{}
