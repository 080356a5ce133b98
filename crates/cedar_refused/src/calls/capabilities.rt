// Sets of capabilities.
use crate::calls::lines::{Probe, Trial};
use crate::outcomes::{Outcome, finish};
use crate::pictures::picture;
use crate::refusals::refuse;
use cedar_types::base::{AttrChain, Expr, Literal, Var};
use cedar_types::types::capability::{
    Capability, CapabilitySet, CapabilitySetBuilder, ChainStep, DigestedBase,
};
use std::alloc::{AllocError, Global};
use std::fmt::Debug;
use std::rc::RcStr;

/// Questions about sets.
#[derive(Clone, Copy)]
pub enum OfSets {
    Insert,
    Join,
    Build,
    Add,
    OfTwo(OfTwo),
}

/// Questions about two sets, or about one capability.
#[derive(Clone, Copy)]
pub enum OfTwo {
    Singleton,
    Copy,
    Union,
    Intersect,
}

/// A question about sets that know tags.
#[derive(Clone, Copy)]
pub struct OfTags(OfTwo);

/// The capability that the principal has this attribute.
fn has<'a>(alloc: Global, attr: &str) -> Result<Capability<'a>, AllocError> {
    let attr = RcStr::from_str(alloc, attr)?;
    Ok(Capability::new_attribute_owned(Expr::var(Var::Principal), attr))
}

/// The set of the capabilities that the principal has these two attributes.
pub fn having<'a>(
    alloc: Global,
    first: &str,
    second: &str,
) -> Result<CapabilitySet<'a>, AllocError> {
    let mut set = CapabilitySet::singleton(alloc, has(alloc, first)?)?;
    set.insert(has(alloc, second)?)?;
    Ok(set)
}

/// Asks the question about two sets, or about a capability for a set of its own.
fn of_two<'a>(
    alloc: Global,
    trial: Trial<'_>,
    asked: OfTwo,
    alone: Capability<'a>,
    sets: (CapabilitySet<'a>, CapabilitySet<'a>),
) -> Result<Outcome, AllocError> {
    refuse(alloc, trial.number);
    match asked {
        OfTwo::Singleton => finish(alloc, CapabilitySet::singleton(alloc, alone), &sets),
        OfTwo::Copy => finish(alloc, sets.1.try_clone(alloc), &sets),
        OfTwo::Union => finish(alloc, sets.0.union(alloc, &sets.1), &sets),
        OfTwo::Intersect => finish(alloc, sets.0.intersect(alloc, &sets.1), &sets),
    }
}

/// Joins two sets, both of which end in the result.
fn join(alloc: Global, trial: Trial<'_>) -> Result<Outcome, AllocError> {
    // four entries fill the room of the first set
    let (mut one, other) = (having(alloc, "vip", "nick")?, has(alloc, "names")?);
    one.insert(has(alloc, "age")?)?;
    one.insert(has(alloc, "boss")?)?;
    let other = CapabilitySet::singleton(alloc, other)?;
    refuse(alloc, trial.number);
    let joined = one.join(other);
    finish(alloc, joined, &())
}

/// Adds a capability to a set.
fn insert(alloc: Global, trial: Trial<'_>) -> Result<Outcome, AllocError> {
    let (mut set, another) = (CapabilitySet::new(alloc), has(alloc, "age")?);
    let before = picture(alloc, &set)?;
    refuse(alloc, trial.number);
    let answer = set.insert(another);
    finish_insertion(alloc, answer, &before, &set)
}

/// Adds a capability to a builder.
fn add(alloc: Global, trial: Trial<'_>) -> Result<Outcome, AllocError> {
    let (mut builder, another) = (CapabilitySetBuilder::new(alloc), has(alloc, "age")?);
    let before = picture(alloc, &builder)?;
    refuse(alloc, trial.number);
    let answer = builder.insert(another);
    finish_insertion(alloc, answer, &before, &builder)
}

/// The outcome of an insertion. If memory was refused, the set or builder must be as it was.
fn finish_insertion<S: Debug>(
    alloc: Global,
    answer: Result<(), AllocError>,
    before: &String,
    after: &S,
) -> Result<Outcome, AllocError> {
    let outcome = finish(alloc, answer, &())?;
    let is_kept = outcome.answer.is_some() || picture(alloc, after)? == *before;
    Ok(Outcome {
        lent: picture(alloc, &is_kept)?,
        ..outcome
    })
}

/// Makes a set by a builder of two capabilities.
fn build(alloc: Global, trial: Trial<'_>) -> Result<Outcome, AllocError> {
    let mut builder = CapabilitySetBuilder::new(alloc);
    builder.insert(has(alloc, "vip")?)?;
    builder.insert(has(alloc, "nick")?)?;
    refuse(alloc, trial.number);
    let set = builder.build(alloc);
    finish(alloc, set, &())
}

/// The first step of an extended `has` with two attributes of this name.
fn first_step(
    alloc: Global,
    number: u16,
    base: &Expr,
    first: RcStr,
) -> Result<Outcome, AllocError> {
    let rest = vec![in alloc; first.clone()?]?;
    let attrs = AttrChain { first, rest };
    let step = ChainStep::first(base, &attrs);
    refuse(alloc, number);
    finish(alloc, step.capability(), &attrs)
}

/// The known capability of a base that has an attribute.
#[derive(Clone, Copy)]
pub enum OfBases {
    Step,
    Attribute,
}

impl Probe for OfBases {
    fn run(self, alloc: Global, trial: Trial<'_>) -> Result<Outcome, AllocError> {
        let attr = RcStr::from_str(alloc, trial.text)?;
        let base = Expr::var(Var::Principal);
        match self {
            OfBases::Step => first_step(alloc, trial.number, &base, attr),
            OfBases::Attribute => {
                let mut base = DigestedBase::new(&base);
                refuse(alloc, trial.number);
                finish(alloc, base.attribute(&attr), &attr)
            }
        }
    }
}

impl Probe for OfSets {
    fn run(self, alloc: Global, trial: Trial<'_>) -> Result<Outcome, AllocError> {
        match self {
            OfSets::Insert => insert(alloc, trial),
            OfSets::Join => join(alloc, trial),
            OfSets::Build => build(alloc, trial),
            OfSets::Add => add(alloc, trial),
            OfSets::OfTwo(asked) => {
                // the sets share one of two attributes
                let sets = (having(alloc, "vip", "nick")?, having(alloc, "nick", "age")?);
                of_two(alloc, trial, asked, has(alloc, "vip")?, sets)
            }
        }
    }
}

impl Probe for OfTags {
    fn run(self, alloc: Global, trial: Trial<'_>) -> Result<Outcome, AllocError> {
        // the sets know the tag `t` of the principal, and an attribute of each kind, borrowed and owned
        let (owner, name) = (
            Expr::var(Var::Principal),
            Expr::val(Literal::from_string(alloc, "t")?),
        );
        let owned = Capability::new_owned_tag(&owner, name.try_clone(alloc)?);
        let lent = CapabilitySet::singleton(alloc, Capability::new_borrowed_tag(&owner, &name))?;
        let alone = Capability::new_attribute(&owner, RcStr::from_str(alloc, "vip")?);
        let set = CapabilitySet::singleton(alloc, owned)?;
        of_two(alloc, trial, self.0, alone, (lent, set))
    }
}

/// Questions about sets of capabilities.
pub const SETS: [(OfSets, &str); 8] = [
    (OfSets::Join, "CapabilitySet::join | names"),
    (
        OfSets::OfTwo(OfTwo::Singleton),
        "CapabilitySet::singleton | vip",
    ),
    (OfSets::Insert, "CapabilitySet::insert | ()"),
    (OfSets::Add, "CapabilitySetBuilder::insert | ()"),
    (OfSets::Build, "CapabilitySetBuilder::build | nick"),
    (OfSets::OfTwo(OfTwo::Union), "CapabilitySet::union | age"),
    (
        OfSets::OfTwo(OfTwo::Intersect),
        "CapabilitySet::intersect | nick",
    ),
    (
        OfSets::OfTwo(OfTwo::Copy),
        "CapabilitySet::try_clone | nick",
    ),
];

/// Questions about bases of attributes.
pub const BASES: [(OfBases, &str); 2] = [
    (OfBases::Step, "- ChainStep::capability | boss | boss"),
    (
        OfBases::Attribute,
        "- DigestedBase::attribute | boss | boss",
    ),
];

/// Questions about sets that know tags.
pub const TAGS: [(OfTags, &str); 4] = [
    (
        OfTags(OfTwo::Singleton),
        "CapabilitySet::singleton, borrowed | Lent",
    ),
    (OfTags(OfTwo::Union), "CapabilitySet::union, of tags | Tag"),
    (
        OfTags(OfTwo::Intersect),
        "CapabilitySet::intersect, of tags | Tag",
    ),
    (
        OfTags(OfTwo::Copy),
        "CapabilitySet::try_clone, of tags | Tag",
    ),
];
