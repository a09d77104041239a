// The first rows of their labels.
ghost use Rattle.std.specs.Prelude.{◌≡◌, ℕ, ◌<◌, length, map, IfOk};
ghost use Rattle.std.specs.List.{All, dedup};
ghost use Rattle.std.specs.Ordering.{nat_cmp};
ghost use Rattle.base_core.specs.Sets.{in_order};
ghost use Rattle.cell_sweep.specs.Rows.{pair_cmp};
ghost use Rattle.u_summarize.specs.Asked.{numbers_at, ranked, have_one_rank, first_ones};

use point_core::Memory;
use std::alloc::Global;

// The numbers in order, each once.
fn distinct(numbers: Vec<usize>) -> Result<Vec<usize>, Memory>
    ensures { IfOk result (λ v. v.items ≡ in_order nat_cmp numbers.items) }
{
    let mut list = numbers;
    list.sort()?;
    list.dedup();
    Ok(list)
}

// The numbers at the places with their ranks.
fn ranked(
    alloc: Global,
    ranks: &[usize],
    numbers: &[usize],
    places: &[usize],
) -> Result<Vec<(usize, usize)>, Memory>
    requires places { All (λ (i : ℕ). i < length numbers.now) places.now }
    requires numbers { All (λ (i : ℕ). i < length ranks.now) numbers.now }
    ensures { IfOk result (λ v. v.items ≡ ranked ranks.now numbers.now places.now) }
{
    let mut list = Vec::with_capacity(alloc, places.len())?;
    for place in places {
        let number = numbers[*place];
        list.push((ranks[number], number))?;
    }
    Ok(list)
}

// The pairs in order, each once.
fn distinct_pairs(pairs: Vec<(usize, usize)>) -> Result<Vec<(usize, usize)>, Memory>
    ensures { IfOk result (λ v. v.items ≡ in_order pair_cmp pairs.items) }
{
    let mut list = pairs;
    list.sort()?;
    list.dedup();
    Ok(list)
}

// The first of the pairs of each rank that stand together.
fn first_of_each(pairs: Vec<(usize, usize)>) -> Vec<(usize, usize)>
    ensures { result.items ≡ dedup have_one_rank pairs.items }
{
    let mut list = pairs;
    list.dedup_by(|a: &mut (usize, usize), b: &mut (usize, usize)| a.0 == b.0);
    list
}

// The numbers without their ranks.
fn without_ranks(alloc: Global, pairs: &[(usize, usize)]) -> Result<Vec<usize>, Memory>
    ensures { IfOk result (λ v. v.items ≡ map (λ x. x.1) pairs.now) }
{
    let mut list = Vec::with_capacity(alloc, pairs.len())?;
    for pair in pairs {
        list.push(pair.1)?;
    }
    Ok(list)
}

/// Those of the numbers at the places of which no lower one is of the same rank, in order.
pub(crate) fn firsts_at(
    alloc: Global,
    ranks: &[usize],
    numbers: &[usize],
    places: &[usize],
) -> Result<Vec<usize>, Memory>
    requires places { All (λ (i : ℕ). i < length numbers.now) places.now }
    requires numbers { All (λ (i : ℕ). i < length ranks.now) numbers.now }
    ensures { IfOk result (λ v. v.items ≡ first_ones ranks.now (numbers_at numbers.now places.now)) }
{
    let all = ranked(alloc, ranks, numbers, places)?;
    let pairs = distinct_pairs(all)?;
    let firsts = first_of_each(pairs);
    let list = without_ranks(alloc, firsts.as_slice())?;
    let set = distinct(list)?;
    Ok(set)
}
