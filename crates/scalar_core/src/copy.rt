// Copies of row expressions.
ghost use Rattle.std.specs.Prelude.{◌≡◌, IfOk};
ghost use Rattle.scalar_core.specs.Expressions.{read, read_form, read_left, read_right};

use crate::tree::{Parts, Scalar, ScalarForm};
use point_core::Memory;
use std::alloc::Global;

impl Scalar {
    /// The same expression.
    #[cycle(copy)]
    pub fn copy(&self, alloc: Global) -> Result<Scalar, Memory>
        ensures { IfOk result (λ r. read r ≡ read self.now) }
    {
        let form = copy_form(alloc, &self.form)?;
        Ok(Scalar {
            place: self.place,
            form,
        })
    }
}

#[cycle(copy)]
fn copy_form(alloc: Global, form: &ScalarForm) -> Result<ScalarForm, Memory>
    ensures { IfOk result (λ r. (at : _) → read_form at r ≡ read_form at form.now) }
{
    match form {
        ScalarForm::Constant(kind, v) => Ok(ScalarForm::Constant(*kind, v.copy(alloc)?)),
        ScalarForm::Attribute(i) => Ok(ScalarForm::Attribute(*i)),
        ScalarForm::Not(e) => Ok(ScalarForm::Not(copy_box(alloc, e)?)),
        ScalarForm::Negate(e) => Ok(ScalarForm::Negate(copy_box(alloc, e)?)),
        ScalarForm::BeginOf(e) => Ok(ScalarForm::BeginOf(copy_box(alloc, e)?)),
        ScalarForm::EndOf(e) => Ok(ScalarForm::EndOf(copy_box(alloc, e)?)),
        ScalarForm::PreOf(t, e) => Ok(ScalarForm::PreOf(*t, copy_box(alloc, e)?)),
        ScalarForm::PostOf(t, e) => Ok(ScalarForm::PostOf(*t, copy_box(alloc, e)?)),
        ScalarForm::CountOf(t, e) => Ok(ScalarForm::CountOf(*t, copy_box(alloc, e)?)),
        ScalarForm::NextOf(t, e) => Ok(ScalarForm::NextOf(*t, copy_box(alloc, e)?)),
        ScalarForm::PriorOf(t, e) => Ok(ScalarForm::PriorOf(*t, copy_box(alloc, e)?)),
        ScalarForm::And(p) => Ok(ScalarForm::And(copy_parts(alloc, p)?)),
        ScalarForm::Or(p) => Ok(ScalarForm::Or(copy_parts(alloc, p)?)),
        ScalarForm::Add(p) => Ok(ScalarForm::Add(copy_parts(alloc, p)?)),
        ScalarForm::Subtract(p) => Ok(ScalarForm::Subtract(copy_parts(alloc, p)?)),
        ScalarForm::Multiply(p) => Ok(ScalarForm::Multiply(copy_parts(alloc, p)?)),
        ScalarForm::Divide(p) => Ok(ScalarForm::Divide(copy_parts(alloc, p)?)),
        ScalarForm::Concat(p) => Ok(ScalarForm::Concat(copy_parts(alloc, p)?)),
        ScalarForm::Compare(w, p) => Ok(ScalarForm::Compare(*w, copy_parts(alloc, p)?)),
        ScalarForm::Allen(w, t, p) => Ok(ScalarForm::Allen(*w, *t, copy_parts(alloc, p)?)),
        ScalarForm::Member(t, p) => Ok(ScalarForm::Member(*t, copy_parts(alloc, p)?)),
        ScalarForm::Select(b, t, p) => Ok(ScalarForm::Select(*b, *t, copy_parts(alloc, p)?)),
        ScalarForm::UnionOf(t, p) => Ok(ScalarForm::UnionOf(*t, copy_parts(alloc, p)?)),
        ScalarForm::IntersectOf(t, p) => Ok(ScalarForm::IntersectOf(*t, copy_parts(alloc, p)?)),
        ScalarForm::MinusOf(t, p) => Ok(ScalarForm::MinusOf(*t, copy_parts(alloc, p)?)),
    }
}

#[cycle(copy)]
fn copy_box(alloc: Global, e: &Scalar) -> Result<Box<Scalar>, Memory>
    ensures { IfOk result (λ r. read r.value ≡ read e.now) }
{
    Ok(Box::new(alloc, e.copy(alloc)?)?)
}

#[cycle(copy)]
fn copy_parts(alloc: Global, p: &Parts) -> Result<Parts, Memory>
    ensures left { IfOk result (λ r. read_left r ≡ read_left p.now) }
    ensures right { IfOk result (λ r. read_right r ≡ read_right p.now) }
{
    let left = copy_box(alloc, &p.left)?;
    let right = copy_box(alloc, &p.right)?;
    Ok(Parts { left, right })
}
