// Places of boxes by their numbers, listed and counted.
ghost use Rattle.std.specs.Prelude.{◌≡◌, pos, ◌+ℤ◌, ◌-ℤ◌, ◌≤ℤ◌, ◌-◌, ◌^◌, ◌∷◌, ◌++◌, map, flat_map, min, length, OnOk};
ghost use Rattle.std.specs.Prelude.{IfOk};
ghost use Rattle.std.specs.List.{All};
ghost use Rattle.base_core.specs.Sets.{in_order as in_order_of};
ghost use Rattle.interval_core.specs.Members.{members};
ghost use Rattle.cell_core.specs.GridPoints.{grid_points, placed_cmp, volume};

use point_core::{Label, Memory};
use std::alloc::Global;
use std::cmp::Ordering;
use std::marker::Model;

// One number for each side; it is seen as their list.
#[derive(Drop)]
pub struct Numbers {
    pub list: Vec<i64>,
}

impl Model for Numbers {
    ghost use Rattle.std.specs.Prelude.{List, ℤ};

    ghost Value = { List ℤ };

    ghost view = { λ s. s.list.items };
}

// A label at a place; it is seen as this pair.
#[derive(Drop)]
pub struct Place<P> {
    pub label: P,
    pub numbers: Numbers,
}

impl<P> Model for Place<P> {
    ghost use Rattle.std.specs.Prelude.{List, ℤ};

    ghost Value = { P × List ℤ };

    ghost view = { λ x. (x.label, x.numbers) };
}

// How many numbers from the first to the last.
fn count(span: (i64, i64)) -> u128
    requires { span.0 ≤ℤ span.1 }
    ensures { pos result ≡ (span.1 +ℤ pos 1) -ℤ span.0 }
{
    let n = i128::from(span.1) + 1 - i128::from(span.0);
    n as u128
}

// How many places the box has, or the greatest number where there are more.
pub fn volume_of(spans: &[(i64, i64)]) -> u128
    requires { All (λ i. i.0 ≤ℤ i.1) spans.now }
    ensures { result ≡ min (volume spans.now) (2 ^ 128 - 1) }
{
    let mut product: u128 = 1;
    for span in spans {
        product = product.saturating_mul(count(*span));
    }
    product
}

fn with_first(alloc: Global, n: i64, rest: &Numbers) -> Result<Numbers, Memory>
    ensures { IfOk result (λ v. v ≡ n ∷ rest.now) }
{
    let mut list = Vec::new(alloc);
    list.push(n)?;
    list.extend_from_slice(rest.list.as_slice())?;
    Ok(Numbers { list })
}

// Adds the places with n before them.
fn push_with(alloc: Global, out: &mut Vec<Numbers>, n: i64, rest: &[Numbers]) -> Result<(), Memory>
    ensures { OnOk result (out.new.items ≡ out.old.items ++ map (λ ps. n ∷ ps) rest.now) }
{
    for ps in rest {
        let grid_point = with_first(alloc, n, ps)?;
        out.push(grid_point)?;
    }
    Ok(())
}

// The places with each number of the span before them.
fn with_each(alloc: Global, span: (i64, i64), rest: &[Numbers]) -> Result<Vec<Numbers>, Memory>
    requires { span.0 ≤ℤ span.1 }
    ensures { IfOk result (λ v. v.items ≡ flat_map (λ p. map (λ ps. p ∷ ps) rest.now) (members span)) }
{
    let mut out = Vec::new(alloc);
    for n in span.0..span.1 {
        push_with(alloc, &mut out, n, rest)?;
    }
    push_with(alloc, &mut out, span.1, rest)?;
    Ok(out)
}

// The places of a box.
pub fn grid_points_of(alloc: Global, spans: &[(i64, i64)]) -> Result<Vec<Numbers>, Memory>
    requires { All (λ i. i.0 ≤ℤ i.1) spans.now }
    ensures { IfOk result (λ v. v.items ≡ grid_points spans.now) }
{
    let mut out = Vec::new(alloc);
    out.push(Numbers {
        list: Vec::new(alloc),
    })?;
    for j in 0..spans.len() {
        let span = spans[spans.len() - 1 - j];
        out = with_each(alloc, span, out.as_slice())?;
    }
    Ok(out)
}

// Adds the label at each place.
pub fn push_grid_points<P: Label>(
    alloc: Global,
    out: &mut Vec<Place<P>>,
    label: &P,
    list: Vec<Numbers>,
) -> Result<(), Memory>
    ensures { OnOk result (out.new.items ≡ out.old.items ++ map (λ ps. (label.now, ps)) list.items) }
{
    for numbers in list {
        let label = label.copy(alloc)?;
        out.push(Place { label, numbers })?;
    }
    Ok(())
}

// By label, and then by numbers.
fn compare<P: Label>(a: &Place<P>, b: &Place<P>) -> Ordering
    ensures { result ≡ placed_cmp P.order a.now b.now }
{
    a.label
        .compare(&b.label)
        .then(a.numbers.list.cmp(&b.numbers.list))
}

// The places in order, each once.
pub fn in_order<P: Label>(list: Vec<Place<P>>) -> Result<Vec<Place<P>>, Memory>
    ensures { IfOk result (λ v. v.items ≡ in_order_of (placed_cmp P.order) list.items) }
{
    let mut set = list;
    set.sort_by(|a: &Place<P>, b: &Place<P>| compare(a, b))?;
    set.dedup_by(|a: &mut Place<P>, b: &mut Place<P>| compare(&*a, &*b).is_eq());
    Ok(set)
}
