// Sets of capabilities, and such sets whose digests all collide: equal calls have equal answers.
ghost use Rattle.std.specs.Prelude.{◌≡◌};

use crate::parts::{add, text};
use cedar_types::base::{Expr, ExprShapeOnly, Var};
use cedar_types::types::capability::Capability;
use cedar_types::types::sorted_set::{Entry, SortedSet};
use std::alloc::{AllocError, Global};
use std::rc::RcStr;
use std::test::Fail;

/// A known capability.
#[derive(Clone, Copy, PartialEq, Eq, PartialOrd, Ord)]
enum Known<'a> {
    Attribute(&'a str),
    Tag(&'a ExprShapeOnly<'a>),
}

/// A capability in all but its digest, which is 7 whatever its shape.
#[derive(Clone, Copy, PartialEq, Eq, PartialOrd, Ord)]
struct Seven<'a> {
    digest: u64,
    on_expr: &'a ExprShapeOnly<'a>,
    known: Known<'a>,
}

impl<'a> Seven<'a> {
    fn of(on_expr: &'a ExprShapeOnly<'a>, known: Known<'a>) -> Seven<'a> {
        Seven {
            digest: 7,
            on_expr,
            known,
        }
    }
}

impl<'a> Entry for Seven<'a> {
    fn copy(&self, _alloc: Global) -> Result<Seven<'a>, AllocError> {
        Ok(*self)
    }
}

/// A bit for each of five entries: a number between 0 and 31 picks some of them.
const BITS: [u32; 5] = [1, 2, 4, 8, 16];

/// The set of the picked entries, each put in twice, from the last to the first.
fn set_of<T: Entry + Drop>(
    alloc: Global,
    all: &Vec<T>,
    picked: u32,
) -> Result<SortedSet<T>, AllocError> {
    let mut set = SortedSet::new(alloc);
    for (at, bit) in BITS.iter().enumerate().rev() {
        if picked & *bit != 0 {
            add_twice(alloc, &mut set, all.get(at))?;
        }
    }
    Ok(set)
}

fn add_twice<T: Entry + Drop>(
    alloc: Global,
    set: &mut SortedSet<T>,
    entry: Option<&T>,
) -> Result<(), AllocError> {
    match entry {
        Some(entry) => {
            set.insert(entry.copy(alloc)?)?;
            set.insert(entry.copy(alloc)?)
        }
        None => Ok(()),
    }
}

/// Adds, for each of all entries, whether the set has it.
fn tell<T: Entry + Drop>(
    told: &mut Vec<bool>,
    all: &Vec<T>,
    set: &SortedSet<T>,
) -> Result<(), AllocError> {
    for entry in all {
        told.push(set.contains(entry))?;
    }
    Ok(())
}

/// Adds the capabilities of the left set, then their union, their intersection, and a copy of the
/// left.
fn tell_each<T: Entry + Drop>(
    alloc: Global,
    told: &mut Vec<bool>,
    all: &Vec<T>,
    (left, right): (&SortedSet<T>, &SortedSet<T>),
) -> Result<(), AllocError> {
    tell(told, all, left)?;
    tell(told, all, &left.union(alloc, right)?)?;
    tell(told, all, &left.intersect(alloc, right)?)?;
    tell(told, all, &left.try_clone(alloc)?)
}

/// Adds these answers for the sets of these picks.
fn tell_picked<T: Entry + Drop>(
    alloc: Global,
    told: &mut Vec<bool>,
    all: &Vec<T>,
    (left, right): (u32, u32),
) -> Result<(), AllocError> {
    let left = set_of(alloc, all, left)?;
    let right = set_of(alloc, all, right)?;
    tell_each(alloc, told, all, (&left, &right))
}

/// Whether these are all answers for the sets of these picks.
fn is_told<T: Entry + Drop>(
    alloc: Global,
    all: &Vec<T>,
    picked: (u32, u32),
    wanted: &Vec<bool>,
) -> Result<bool, AllocError> {
    let mut told = Vec::new(alloc);
    tell_picked(alloc, &mut told, all, picked)?;
    Ok(told == *wanted)
}

/// The answers that the sets must give.
fn expected_answers(alloc: Global, left: u32, right: u32) -> Result<Vec<bool>, AllocError> {
    let mut answers = Vec::new(alloc);
    for picked in &[left, left | right, left & right, left] {
        for bit in &BITS {
            answers.push(*picked & *bit != 0)?;
        }
    }
    Ok(answers)
}

/// Adds the capability that this expression has the attribute.
fn add_attribute<'a>(
    all: &mut Vec<Capability<'a>>,
    owner: &'a Expr,
    name: RcStr,
) -> Result<(), AllocError> {
    add(all, Capability::new_attribute(owner, name))
}

/// Adds five capabilities: two attributes of one expression, one of another, and two tags.
fn add_capabilities<'a>(
    alloc: Global,
    all: &mut Vec<Capability<'a>>,
    principal: &'a Expr,
    resource: &'a Expr,
) -> Result<(), AllocError> {
    add_attribute(all, principal, text(alloc, "x")?)?;
    add_attribute(all, principal, text(alloc, "y")?)?;
    add_attribute(all, resource, text(alloc, "x")?)?;
    add(all, Capability::new_borrowed_tag(principal, resource))?;
    add(all, Capability::new_borrowed_tag(resource, principal))
}

/// Adds the five capabilities with one digest.
fn add_sevens<'a>(
    all: &mut Vec<Seven<'a>>,
    principal: &'a ExprShapeOnly<'a>,
    resource: &'a ExprShapeOnly<'a>,
) -> Result<(), AllocError> {
    add(all, Seven::of(principal, Known::Attribute("x")))?;
    add(all, Seven::of(principal, Known::Attribute("y")))?;
    add(all, Seven::of(resource, Known::Attribute("x")))?;
    add(all, Seven::of(principal, Known::Tag(resource)))?;
    add(all, Seven::of(resource, Known::Tag(principal)))
}

/// Whether both kinds of entries give the right answers for the sets of these picks.
fn answer_alike<T: Entry + Drop, U: Entry + Drop>(
    alloc: Global,
    all: &Vec<T>,
    colliding: &Vec<U>,
    left: u32,
    right: u32,
) -> Result<bool, AllocError> {
    let wanted = expected_answers(alloc, left, right)?;
    let is_so = is_told(alloc, all, (left, right), &wanted)?;
    Ok(is_told(alloc, colliding, (left, right), &wanted)? && is_so)
}

/// Whether both kinds of entries give the right answers for all pairs of sets of the five.
fn all_answer_alike<T: Entry + Drop, U: Entry + Drop>(
    alloc: Global,
    all: &Vec<T>,
    colliding: &Vec<U>,
) -> Result<bool, AllocError> {
    let mut is_so = true;
    for number in 0..1024_u32 {
        is_so = answer_alike(alloc, all, colliding, number % 32, number / 32)? && is_so;
    }
    Ok(is_so)
}

/// Whether the capabilities of these two expressions, and those with one digest, give the right
/// answers.
fn capabilities_answer_alike<'a>(
    alloc: Global,
    (principal, resource): (&'a Expr, &'a Expr),
    (principal_shape, resource_shape): (&'a ExprShapeOnly<'a>, &'a ExprShapeOnly<'a>),
) -> Result<bool, AllocError> {
    let mut colliding = Vec::new(alloc);
    add_sevens(&mut colliding, principal_shape, resource_shape)?;
    let mut all = Vec::new(alloc);
    add_capabilities(alloc, &mut all, principal, resource)?;
    all_answer_alike(alloc, &all, &colliding)
}

#[test]
fn digests_that_collide_change_no_answer(rt: HostRuntime) -> Result<(), Fail> {
    let principal = Expr::var(Var::Principal);
    let resource = Expr::var(Var::Resource);
    let shapes = (
        &ExprShapeOnly::Borrowed(&principal),
        &ExprShapeOnly::Borrowed(&resource),
    );
    let is_so = capabilities_answer_alike(rt.alloc(), (&principal, &resource), shapes)?;
    assert!(rt; is_so);
    Ok(())
}
