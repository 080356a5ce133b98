// Texts that a set of capabilities shows for each of them.
use crate::parts::{boxed, text};
use cedar_types::base::{AttrChain, Expr, Literal, Var};
use cedar_types::types::capability::{Accesses, Capability, CapabilitySet, ChainStep, Known};
use std::alloc::{AllocError, Global};
use std::rc::RcStr;
use std::test::Fail;

/// Whether these are the accesses to these attributes of one variable.
fn are_of(on: &Accesses<'_>, variable: &Expr, attrs: &[&str]) -> bool {
    on.base.has_shape_of(variable) && are_texts(on.first, on.rest, attrs)
}

/// Whether the first text, if there is one, and the others are these.
fn are_texts(first: Option<&RcStr>, rest: &[RcStr], wanted: &[&str]) -> bool {
    match (first, wanted.split_first()) {
        (None, None) => rest.is_empty(),
        (Some(first), Some((text, others))) => {
            first.as_str() == *text && are_same_texts(rest, others)
        }
        _ => false,
    }
}

fn are_same_texts(texts: &[RcStr], wanted: &[&str]) -> bool {
    texts.len() == wanted.len()
        && texts
            .iter()
            .zip(wanted.iter())
            .all(|(text, wanted)| text.as_str() == *wanted)
}

/// Whether the capability is of an attribute of this name.
fn is_attribute(known: &Known<'_>, wanted: &str) -> bool {
    match known {
        Known::Attribute(name) => name.as_str() == wanted,
        Known::Tag(_name) => false,
    }
}

/// Whether the capability is of a tag whose name has this shape.
fn is_tag(known: &Known<'_>, wanted: &Expr) -> bool {
    match known {
        Known::Attribute(_name) => false,
        Known::Tag(name) => name.expr().has_shape_of(wanted),
    }
}

/// The set of only this capability.
fn set_of<'a>(alloc: Global, only: Capability<'a>) -> Result<Box<CapabilitySet<'a>>, AllocError> {
    boxed(alloc, CapabilitySet::singleton(alloc, only)?)
}

/// Whether a set with an attribute of a variable shows it.
fn shows_an_attribute(alloc: Global, base: &Expr) -> Result<bool, AllocError> {
    let set = set_of(alloc, Capability::new_attribute(base, text(alloc, "x")?))?;
    let [only] = set.as_slice() else {
        return Ok(false);
    };
    let (on, known) = only.parts();
    Ok(are_of(&on, base, &[]) && is_attribute(known, "x"))
}

/// Whether a set with a tag of a variable shows it.
fn shows_a_tag(alloc: Global, base: &Expr) -> Result<bool, AllocError> {
    let name = Expr::val(Literal::from_string(alloc, "x")?);
    let set = set_of(alloc, Capability::new_borrowed_tag(base, &name))?;
    let [only] = set.as_slice() else {
        return Ok(false);
    };
    let (on, known) = only.parts();
    Ok(are_of(&on, base, &[]) && is_tag(known, &name))
}

/// Whether a set with the third step of `has x.y.z` shows it.
fn shows_a_step(alloc: Global, base: &Expr, attrs: &AttrChain) -> Result<bool, AllocError> {
    let Some(last) = third_step(base, attrs) else {
        return Ok(false);
    };
    let set = set_of(alloc, last.capability()?)?;
    let [only] = set.as_slice() else {
        return Ok(false);
    };
    let (on, known) = only.parts();
    Ok(are_of(&on, base, &["x", "y"]) && is_attribute(known, "z"))
}

fn third_step<'a>(base: &'a Expr, attrs: &'a AttrChain) -> Option<ChainStep<'a>> {
    ChainStep::first(base, attrs).next()?.next()
}

#[test]
fn a_set_shows_what_has_an_attribute_or_a_tag(rt: HostRuntime) -> Result<(), Fail> {
    let alloc = rt.alloc();
    let base = Expr::var(Var::Resource);
    assert!(rt; shows_an_attribute(alloc, &base)?);
    assert!(rt; shows_a_tag(alloc, &base)?);
    let attrs = AttrChain::new(alloc, "x", &["y", "z"])?;
    assert!(rt; shows_a_step(alloc, &base, &attrs)?);
    assert_eq!(rt; CapabilitySet::new(alloc).as_slice().len(), 0);
    Ok(())
}
