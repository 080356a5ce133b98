// Shapes of expressions, and capabilities that own theirs.
use crate::parts::{boxed, place, text};
use cedar_types::base::{Expr, ExprShapeOnly, Literal, Var};
use cedar_types::types::capability::Capability;
use std::alloc::{AllocError, Global};
use std::cmp::Ordering;
use std::test::Fail;

fn variable(start: usize, variable: Var) -> Expr {
    Expr::var(variable).with_maybe_source_loc(place(start))
}

/// Whether two are one shape, by equality and by order.
fn are_one_shape<'a>(here: &ExprShapeOnly<'a>, there: &ExprShapeOnly<'a>) -> bool {
    *here == *there && matches!(here.partial_cmp(there), Some(Ordering::Equal))
}

/// Whether two are different shapes, by equality and by order.
fn are_two_shapes<'a>(here: &ExprShapeOnly<'a>, other: &ExprShapeOnly<'a>) -> bool {
    *here != *other && here.cmp(other) == other.cmp(here).reverse()
}

/// Whether the first two are one shape, and the third is another.
fn are_told<'a>(
    here: &ExprShapeOnly<'a>,
    there: &ExprShapeOnly<'a>,
    other: &ExprShapeOnly<'a>,
) -> bool {
    are_one_shape(here, there) && are_two_shapes(here, other)
}

/// Whether the place of an expression is no part of its shape, and the variable is.
fn have_no_places(here: &Expr) -> bool {
    let there = ExprShapeOnly::Owned(variable(2, Var::Principal));
    let other = ExprShapeOnly::Owned(variable(1, Var::Resource));
    are_told(&ExprShapeOnly::Borrowed(here), &there, &other)
}

#[test]
fn shapes_have_no_places(rt: HostRuntime) -> Result<(), Fail> {
    assert!(rt; have_no_places(&variable(1, Var::Principal)));
    Ok(())
}

/// Whether the copy has the shape of the original and of `here`, and stands at the second place.
fn is_copy<'a>(copy: &ExprShapeOnly<'a>, there: &ExprShapeOnly<'a>, here: &Expr) -> bool {
    *copy == *there && copy.expr().loc == place(2) && here.has_shape_of(copy.expr())
}

/// Whether a copy of the principal's shape keeps the shape and the second place.
fn keeps_its_place(alloc: Global, here: &Expr) -> Result<bool, AllocError> {
    let there = ExprShapeOnly::Owned(variable(2, Var::Principal));
    let copy = there.try_clone(alloc)?;
    Ok(is_copy(&copy, &there, here))
}

#[test]
fn a_copied_shape_keeps_the_place_of_its_expression(rt: HostRuntime) -> Result<(), Fail> {
    assert!(rt; keeps_its_place(rt.alloc(), &variable(1, Var::Principal))?);
    Ok(())
}

/// The capability that `base` has the attribute `x`.
fn attribute<'a>(alloc: Global, base: &'a Expr) -> Result<Box<Capability<'a>>, AllocError> {
    let name = text(alloc, "x")?;
    boxed(alloc, Capability::new_attribute(base, name))
}

/// The capability that `base` has the tag `x`.
fn tag<'a>(alloc: Global, base: &'a Expr) -> Result<Box<Capability<'a>>, AllocError> {
    let name = Expr::val(Literal::from_string(alloc, "x")?);
    boxed(alloc, Capability::new_owned_tag(base, name))
}

/// Whether two capabilities differ, by equality and by order.
fn are_told_apart<'a>(one: &Capability<'a>, other: &Capability<'a>) -> bool {
    *one != *other && one.cmp(other) != Ordering::Equal
}

/// Whether an attribute and a tag of one text differ.
fn is_no_attribute(alloc: Global, base: &Expr) -> Result<bool, AllocError> {
    let attribute = attribute(alloc, base)?;
    let tag = tag(alloc, base)?;
    Ok(are_told_apart(&attribute, &tag))
}

#[test]
fn a_tag_is_no_attribute_of_the_same_text(rt: HostRuntime) -> Result<(), Fail> {
    let base = variable(1, Var::Principal);
    assert!(rt; is_no_attribute(rt.alloc(), &base)?);
    Ok(())
}
