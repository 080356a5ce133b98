// Passes over the names in a policy and over the entities to which its slots are bound, step by step.
use crate::calls::walks::{Steps, attempt_walk};
use crate::pictures::picture;
use crate::sweep::{ANOTHER_POLICY, Attempt, Call};
use cedar_typechecker::rbac::{LiteralErrors, SlotTypeErrors, Validator};
use cedar_types::base::{
    Expr, ExprIterator, Mention, Mentions, Policy, Template, ValidationError, ValidatorSchema,
};
use std::alloc::{AllocError, Global};

/// A pass over a policy.
#[derive(Clone, Copy)]
pub enum Pass {
    /// `Template::mentions`.
    Mentions,
    /// A pass that answers `LiteralErrors`.
    Literals(OfLiterals),
    /// `Validator::validate_entity_types_in_slots`.
    SlotTypes,
    /// `Expr::subexpressions` of the template's rest.
    Subexpressions,
}

/// A pass over the names in a policy.
#[derive(Clone, Copy)]
pub enum OfLiterals {
    /// `Validator::validate_entity_types`.
    EntityTypes,
    /// `Validator::validate_action_ids`.
    ActionIds,
    /// `Validator::validate_enum_entity`.
    EnumEntities,
}

/// Each step of a pass over this policy.
#[derive(Clone, Copy)]
pub struct PassWalk<'a> {
    pub validator: &'a Validator<'a>,
    pub policy: &'a Policy,
    pub pass: Pass,
    /// The number of names or errors that the pass gives.
    pub items: usize,
}

impl Call for PassWalk<'_> {
    fn attempt(&self, alloc: Global, number: u16) -> Result<Attempt, AllocError> {
        let before = picture(alloc, self.policy)?;
        let (validator, policy) = (self.validator, self.policy);
        let attempt = match self.pass {
            Pass::Mentions => mentions(alloc, policy, self.items, number)?,
            Pass::Literals(pass) => {
                let walked = (validator.schema(), policy);
                literals(alloc, pass, walked, self.items, number)?
            }
            Pass::SlotTypes => slots(alloc, validator, policy, self.items, number)?,
            Pass::Subexpressions => subexpressions(alloc, policy, self.items, number)?,
        };
        Ok(attempt.only_if(picture(alloc, self.policy)? == before, ANOTHER_POLICY))
    }
}

fn mentions(
    alloc: Global,
    policy: &Policy,
    items: usize,
    number: u16,
) -> Result<Attempt, AllocError> {
    let template = &*policy.template;
    let walks = (
        template.mentions(alloc),
        template.mentions(alloc),
        template.mentions(alloc),
    );
    attempt_walk(alloc, walks, items, number)
}

/// The errors that a pass over the names in a template gives.
fn errors_of<'x>(
    alloc: Global,
    pass: OfLiterals,
    schema: &'x ValidatorSchema,
    template: &'x Template,
) -> LiteralErrors<'x> {
    match pass {
        OfLiterals::EntityTypes => Validator::validate_entity_types(alloc, schema, template),
        OfLiterals::ActionIds => Validator::validate_action_ids(alloc, schema, template),
        OfLiterals::EnumEntities => Validator::validate_enum_entity(alloc, schema, template),
    }
}

fn literals<'x>(
    alloc: Global,
    pass: OfLiterals,
    (schema, policy): (&'x ValidatorSchema, &'x Policy),
    items: usize,
    number: u16,
) -> Result<Attempt, AllocError> {
    let template = &*policy.template;
    let walks = (
        errors_of(alloc, pass, schema, template),
        errors_of(alloc, pass, schema, template),
        errors_of(alloc, pass, schema, template),
    );
    attempt_walk(alloc, walks, items, number)
}

fn slots<'x>(
    alloc: Global,
    validator: &'x Validator<'x>,
    policy: &'x Policy,
    items: usize,
    number: u16,
) -> Result<Attempt, AllocError> {
    let (id, bound) = (&policy.template.id, &policy.values);
    let walks = (
        validator.validate_entity_types_in_slots(alloc, id, bound),
        validator.validate_entity_types_in_slots(alloc, id, bound),
        validator.validate_entity_types_in_slots(alloc, id, bound),
    );
    attempt_walk(alloc, walks, items, number)
}

fn subexpressions(
    alloc: Global,
    policy: &Policy,
    items: usize,
    number: u16,
) -> Result<Attempt, AllocError> {
    let whole = policy.template.condition(alloc)?;
    let walks = (
        whole.subexpressions(alloc)?,
        whole.subexpressions(alloc)?,
        whole.subexpressions(alloc)?,
    );
    attempt_walk(alloc, walks, items, number)
}

impl<'a> Steps for ExprIterator<'a> {
    type Item = &'a Expr;

    fn step(&mut self) -> Option<Result<&'a Expr, AllocError>> {
        self.next()
    }
}

impl<'a> Steps for Mentions<'a> {
    type Item = Mention<'a>;

    fn step(&mut self) -> Option<Result<Mention<'a>, AllocError>> {
        self.next()
    }
}

impl Steps for LiteralErrors<'_> {
    type Item = ValidationError;

    fn step(&mut self) -> Option<Result<ValidationError, AllocError>> {
        self.next()
    }
}

impl Steps for SlotTypeErrors<'_> {
    type Item = ValidationError;

    fn step(&mut self) -> Option<Result<ValidationError, AllocError>> {
        self.next()
    }
}
