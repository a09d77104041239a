// The rank of each row: a number that stands for its label.
ghost use Rattle.std.specs.Prelude.{◌≡◌, map, IfOk};
ghost use Rattle.std.specs.List.{All};
ghost use Rattle.std.specs.List.Sorted.{IsStrictlySortedBy};
ghost use Rattle.base_core.specs.Sets.{in_order};
ghost use Rattle.cell_packing.specs.Covering.{Among};
ghost use Rattle.value_core.specs.Values.{row_cmp};
ghost use Rattle.u_summarize.specs.Asked.{number_in, AreRanks};
ghost use Rattle.u_summarize.specs.Groups.{labels_in};

use cell_sweep::CellBox;
use point_core::{Label, Memory};
use std::alloc::Global;
use value_core::Row;

// The rows' labels in memory of their own.
fn copied_labels(alloc: Global, rows: &[CellBox<Row>]) -> Result<Vec<Row>, Memory>
    ensures { IfOk result (λ v. v.items ≡ labels_in rows.now) }
{
    let mut list = Vec::with_capacity(alloc, rows.len())?;
    for row in rows {
        let label = row.label.copy(alloc)?;
        list.push(label)?;
    }
    Ok(list)
}

// The labels in order, each once.
fn distinct_labels(labels: Vec<Row>) -> Result<Vec<Row>, Memory>
    ensures labels { IfOk result (λ v. v.items ≡ in_order row_cmp labels.items) }
    ensures sorted { IfOk result (λ v. IsStrictlySortedBy row_cmp v.items) }
{
    let mut list = labels;
    list.sort()?;
    list.dedup();
    Ok(list)
}

// The number of the label in the list.
fn number_in(labels: &[Row], label: &Row) -> usize
    requires sorted { IsStrictlySortedBy row_cmp labels.now }
    requires there { Among label.now labels.now }
    ensures { result ≡ number_in labels.now label.now }
{
    match labels.binary_search(label) {
        Ok(number) => number,
        Err(_) => unreachable!(),
    }
}

// The number of each row's label in the list.
fn numbers_in(alloc: Global, labels: &[Row], rows: &[CellBox<Row>]) -> Result<Vec<usize>, Memory>
    requires sorted { IsStrictlySortedBy row_cmp labels.now }
    requires there { All (λ x. Among x.0 labels.now) rows.now }
    ensures { IfOk result (λ v. v.items ≡ map (λ x. number_in labels.now x.0) rows.now) }
{
    let mut list = Vec::with_capacity(alloc, rows.len())?;
    for row in rows {
        list.push(number_in(labels, &row.label))?;
    }
    Ok(list)
}

/// A rank for each row, so that rows of one label have one rank and others have others. With it labels need not be compared again.
pub(crate) fn ranks_of(alloc: Global, rows: &[CellBox<Row>]) -> Result<Vec<usize>, Memory>
    ensures { IfOk result (λ v. AreRanks (labels_in rows.now) v.items) }
{
    let all = copied_labels(alloc, rows)?;
    let labels = distinct_labels(all)?;
    let ranks = numbers_in(alloc, labels.as_slice(), rows)?;
    Ok(ranks)
}
