// Parts that have an expected type.
ghost use Rattle.std.specs.Prelude.{◌≡◌, Some, IfOk, map, option_map};
ghost use Rattle.cedar_types.specs.Types.{ty_of};
ghost use Rattle.cedar_types.specs.Types.Order.{in_order};
ghost use Rattle.cedar_types.specs.Errors.{finding_of, unexpected_type};
ghost use Rattle.cedar_typing.specs.Infer.Eager.{expect_operand};
ghost use Rattle.cedar_typing.specs.Infer.Parts.{as_failed, as_failed_untyped, expect, expect_type};
ghost use Rattle.cedar_typing.specs.TypeEnv.{finding};
ghost use Rattle.cedar_typing.specs.TypeTests.{accepts};
ghost use Rattle.cedar_typing.specs.Views.{env_at, answer_of, part_of, expected_types, findings};

use crate::typecheck::answer::{Part, TypecheckAnswer};
use crate::typecheck::capabilities::no_capabilities;
use crate::typecheck::operand_tests::{
    is_ancestor_operand, is_bool_operand, is_entity_operand, is_long_operand, is_object_operand,
    is_set_operand, is_string_operand,
};
use crate::typecheck::type_env::TypeEnv;
use cedar_types::base::{
    BoolType, CedarType, EntityKind, Expr, Loc, ValidationError, ValidationMode, types_in_order,
};
use std::alloc::{AllocError, Global};
use std::collections::BTreeSet;
use std::rc::Rc;

/// The expected type of a part. The part's type must be a subtype, in every mode by the subtypes of Permissive, because
/// Strict has no subtypes by width: each access to a record with attributes would be an error.
#[derive(Clone, Copy)]
pub(crate) enum Expected<'t> {
    Bool,
    Long,
    String,
    Set,
    Entity,
    /// An entity or a set of entities.
    Ancestor,
    /// A record or an entity.
    Object,
    /// This one type, for example that of an argument.
    Exactly(&'t CedarType),
}

impl Expected<'_> {
    fn accepts(self, alloc: Global, ty: &CedarType) -> Result<bool, AllocError>
        ensures { IfOk result (λ b. b ≡ accepts (expected_types self.entry) (ty_of ty.now)) }
    {
        match self {
            Expected::Bool => Ok(is_bool_operand(ty)),
            Expected::Long => Ok(is_long_operand(ty)),
            Expected::String => Ok(is_string_operand(ty)),
            Expected::Set => Ok(is_set_operand(ty)),
            Expected::Entity => Ok(is_entity_operand(ty)),
            Expected::Ancestor => Ok(is_ancestor_operand(ty)),
            Expected::Object => Ok(is_object_operand(ty)),
            Expected::Exactly(wanted) => {
                CedarType::is_subtype(alloc, ty, wanted, ValidationMode::Permissive)
            }
        }
    }

    fn types(self, alloc: Global) -> Result<BTreeSet<CedarType>, AllocError>
        ensures { IfOk result (λ s. map ty_of s.keys ≡ in_order (expected_types self.entry)) }
    {
        let mut types = Vec::new(alloc);
        match self {
            Expected::Bool => types.push(CedarType::Bool(BoolType::AnyBool))?,
            Expected::Long => types.push(CedarType::Long)?,
            Expected::String => types.push(CedarType::String)?,
            Expected::Set => types.push(CedarType::AnySet)?,
            Expected::Entity => types.push(CedarType::Entity(EntityKind::AnyEntity))?,
            Expected::Ancestor => {
                let entity = CedarType::Entity(EntityKind::AnyEntity);
                types.push(CedarType::Set(Rc::new(alloc, entity)?))?;
                types.push(CedarType::Entity(EntityKind::AnyEntity))?;
            }
            Expected::Object => {
                types.push(CedarType::any_record(alloc)?)?;
                types.push(CedarType::Entity(EntityKind::AnyEntity))?;
            }
            Expected::Exactly(wanted) => types.push(wanted.clone()?)?,
        }
        types_in_order(alloc, types)
    }
}

impl<'a> Part<'a> {
    /// The part after a failure: without capabilities, because nothing follows from a failed part.
    fn as_failed(self, alloc: Global) -> Part<'a>
        ensures { part_of result ≡ as_failed (part_of self.entry) }
    {
        Part {
            typed: self.typed,
            capabilities: no_capabilities(alloc),
            succeeded: false,
        }
    }

    /// The part after a failure in which its type is not the expected one: without capabilities, and without a type at
    /// its root, because rules such as that of `&&` go on with types that they expect.
    fn as_failed_untyped(self, alloc: Global) -> Part<'a>
        ensures { part_of result ≡ as_failed_untyped (part_of self.entry) }
    {
        let mut typed = self.typed;
        typed.annotation = None;
        Part {
            typed,
            capabilities: no_capabilities(alloc),
            succeeded: false,
        }
    }
}

impl TypeEnv<'_, '_, '_, '_> {
    /// The part that an answer hands on if it has an expected type, with an error at `loc` if its type is another one. On
    /// the limit there is no part.
    pub(crate) fn expect<'a>(
        &self,
        expected: Expected<'_>,
        loc: Option<Loc>,
        answer: TypecheckAnswer<'a>,
        errors: &mut Vec<ValidationError>,
    ) -> Result<Option<Part<'a>>, AllocError>
        ensures { IfOk result (λ p.
            expect (env_at self.now) (expected_types expected.entry) loc
            (answer_of answer.entry, findings errors.old.items)
            ≡ (option_map part_of p, findings errors.new.items)) }
    {
        let Some(part) = answer.into_part(self.alloc) else {
            return Ok(None);
        };
        Ok(Some(self.expect_part(expected, loc, part, errors)?))
    }

    /// The part that an operand's answer hands on, with an error at `loc` if its type is not the expected one. If no type
    /// is expected, the operand may be anything.
    pub(crate) fn operand<'a>(
        &self,
        expected: Option<Expected<'_>>,
        loc: Option<Loc>,
        answer: TypecheckAnswer<'a>,
        errors: &mut Vec<ValidationError>,
    ) -> Result<Option<Part<'a>>, AllocError>
        ensures { IfOk result (λ p.
            expect_operand (env_at self.now) (option_map expected_types expected.entry) loc
            (answer_of answer.entry, findings errors.old.items)
            ≡ (option_map part_of p, findings errors.new.items)) }
    {
        let Some(expected) = expected else {
            return Ok(answer.into_part(self.alloc));
        };
        self.expect(expected, loc, answer, errors)
    }

    #[inline(never)]
    fn expect_part<'a>(
        &self,
        expected: Expected<'_>,
        loc: Option<Loc>,
        part: Part<'a>,
        errors: &mut Vec<ValidationError>,
    ) -> Result<Part<'a>, AllocError>
        ensures { IfOk result (λ p.
            expect_type (env_at self.now) (expected_types expected.entry) loc (part_of part.entry)
            (findings errors.old.items) (option_map ty_of part.entry.typed.value.annotation)
            ≡ (Some (part_of p), findings errors.new.items)) }
    {
        match &part.typed.annotation {
            // a part without a type has failed already, so it has its error, or none on purpose
            None => Ok(part.as_failed(self.alloc)),
            Some(found) => {
                if expected.accepts(self.alloc, found)? {
                    return Ok(part);
                }
                errors.push(self.unexpected(expected, loc, found)?)?;
                Ok(part.as_failed_untyped(self.alloc))
            }
        }
    }

    /// The error at `loc` that a part has this type, and not an expected one. It names the expected types in ascending
    /// order.
    pub(crate) fn unexpected(
        &self,
        expected: Expected<'_>,
        loc: Option<Loc>,
        found: &CedarType,
    ) -> Result<ValidationError, AllocError>
        ensures { IfOk result (λ e.
            finding_of e
            ≡ finding (env_at self.now) loc
            (unexpected_type (in_order (expected_types expected.entry)) (ty_of found.now))) }
    {
        let policy_id = self.policy_id.clone()?;
        let types = expected.types(self.alloc)?;
        let actual = found.clone()?;
        Ok(ValidationError::expected_one_of_types(loc, policy_id, types, actual))
    }
}
