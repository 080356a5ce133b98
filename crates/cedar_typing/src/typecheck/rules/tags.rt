// `hasTag` and `getTag`.
ghost use Rattle.std.specs.Prelude.{◌≡◌, [], ◌∷◌, None, IfOk, map, option_map, if◌then◌else◌};
ghost use Rattle.cedar_types.specs.Types.Bounds.{list_lub};
ghost use Rattle.cedar_types.specs.Capability.{cap_of};
ghost use Rattle.cedar_types.specs.Errors.{internal_invariant_violation, unsafe_tag_access};
ghost use Rattle.cedar_types.specs.Types.Lookups.{tag_types};
ghost use Rattle.cedar_types.specs.Names.{type_of};
ghost use Rattle.cedar_types.specs.Types.{ty_of, lub_of};
ghost use Rattle.cedar_types.specs.Expressions.View.{written};
ghost use Rattle.cedar_typing.specs.Capabilities.{single};
ghost use Rattle.cedar_typing.specs.Eager.{gives, refuses};
ghost use Rattle.cedar_typing.specs.Rules.Tags.{tag_of, has_tag_type, has_tag_table, types_named, only_type, get_known_tag, get_tag_table};
ghost use Rattle.cedar_typing.specs.TypeEnv.{finding};
ghost use Rattle.cedar_typing.specs.Views.{env_at, decision_of};
ghost use Rattle.cedar_typing.specs.Capabilities.Priors.{known_in};

use crate::typecheck::capabilities::one_capability;
use crate::typecheck::prior::Prior;
use crate::typecheck::rules::decisions::Operands;
use crate::typecheck::rules::eager::{Decision, gives, refuses_with};
use crate::typecheck::type_env::TypeEnv;
use crate::typecheck::type_tests::{any_bool, is_never_type, named_types};
use cedar_types::base::{
    BoolType, CedarType, EntityLUB, EntityType, Loc, LubContext, ValidationError,
};
use cedar_types::types::capability::Capability;
use std::alloc::{AllocError, Global};
use std::collections::BTreeSet;

/// That the left has the tag whose name the right gives.
fn tag_of<'a>(operands: Operands<'a>) -> Capability<'a>
    ensures { cap_of result
        ≡ tag_of (written operands.entry.left.now) (written operands.entry.right.now) }
{
    Capability::new_borrowed_tag(operands.left, operands.right)
}

impl TypeEnv<'_, '_, '_, '_> {
    /// The type of `left.hasTag(right)`, by that of the left, or an error at `loc`.
    pub(crate) fn decide_has_tag<'a>(
        &self,
        prior: &Prior<'_, 'a>,
        loc: Option<Loc>,
        operands: Operands<'a>,
        found: &Option<CedarType>,
    ) -> Result<Decision<'a>, AllocError>
        ensures { IfOk result (λ d. decision_of d
            ≡ has_tag_table (env_at self.now) loc
            (tag_of (written operands.entry.left.now) (written operands.entry.right.now))
            (known_in prior.now
            (tag_of (written operands.entry.left.now) (written operands.entry.right.now)))
            (option_map ty_of found.now)) }
    {
        let Some(ty) = found else {
            return Ok(Decision::Refuses(None, Vec::new(self.alloc)));
        };
        if is_never_type(ty) {
            let decision = self.tag_of_never(loc)?;
            return Ok(decision);
        }
        let there = tag_of(operands);
        let is_known = prior.contains(&there);
        self.has_tag_of(there, is_known, ty)
    }

    /// The type of `left.getTag(right)`, by that of the left, or an error at `loc`.
    pub(crate) fn decide_get_tag<'a>(
        &self,
        prior: &Prior<'_, 'a>,
        loc: Option<Loc>,
        operands: Operands<'a>,
        found: &Option<CedarType>,
    ) -> Result<Decision<'a>, AllocError>
        ensures { IfOk result (λ d. decision_of d
            ≡ get_tag_table (env_at self.now) loc
            (known_in prior.now
            (tag_of (written operands.entry.left.now) (written operands.entry.right.now)))
            (option_map ty_of found.now)) }
    {
        let Some(ty) = found else {
            return Ok(Decision::Refuses(None, Vec::new(self.alloc)));
        };
        if is_never_type(ty) {
            let decision = self.tag_of_never(loc)?;
            return Ok(decision);
        }
        let is_known = prior.contains(&tag_of(operands));
        self.get_tag_of(loc, is_known, ty)
    }

    /// `hasTag` of a type other than Never, which earns that the tag is there.
    fn has_tag_of<'a>(
        &self,
        there: Capability<'a>,
        is_known: bool,
        ty: &CedarType,
    ) -> Result<Decision<'a>, AllocError>
        ensures { IfOk result (λ d. decision_of d
            ≡ gives (has_tag_type (tag_types (env_at self.now).schema (ty_of ty.now)) is_known)
            (single (cap_of there.entry))) }
    {
        let tags = self.tag_types(ty)?;
        let ty = has_tag_type(&tags, is_known);
        Ok(Decision::Gives(ty, one_capability(self.alloc, there)?))
    }

    /// `getTag` of a type other than Never, which wants that the tag is known to be there.
    fn get_tag_of<'a>(
        &self,
        loc: Option<Loc>,
        is_known: bool,
        ty: &CedarType,
    ) -> Result<Decision<'a>, AllocError>
        ensures { IfOk result (λ d. decision_of d
            ≡ if is_known
            then get_known_tag (env_at self.now) loc (ty_of ty.now)
            (tag_types (env_at self.now).schema (ty_of ty.now))
            else refuses None
            (finding (env_at self.now) loc (unsafe_tag_access (types_named (ty_of ty.now))) ∷ [])) }
    {
        // no schema requires a tag, so each access needs a test before it
        if !is_known {
            let policy_id = self.policy_id.clone()?;
            let error = ValidationError::unsafe_tag_access(loc, policy_id, types_named(ty)?);
            return refuses_with(self.alloc, None, error);
        }
        let tags = self.tag_types(ty)?;
        self.decide_known_tag(loc, ty, tags)
    }

    /// Of a tag that is known to be there: the bound of the types that it may have.
    fn decide_known_tag<'a>(
        &self,
        loc: Option<Loc>,
        ty: &CedarType,
        tags: BTreeSet<CedarType>,
    ) -> Result<Decision<'a>, AllocError>
        ensures { IfOk result (λ d. decision_of d
            ≡ get_known_tag (env_at self.now) loc (ty_of ty.now) (map ty_of tags.keys)) }
    {
        if tags.is_empty() {
            let policy_id = self.policy_id.clone()?;
            let error = ValidationError::no_tags_allowed(loc, policy_id, only_type(ty)?);
            return refuses_with(self.alloc, None, error);
        }
        let bound = self.bound_of(&tags)?;
        match bound {
            Some(ty) => Ok(gives(self.alloc, ty)),
            None => {
                let policy_id = self.policy_id.clone()?;
                let context = LubContext::GetTag;
                let error = ValidationError::incompatible_types(loc, policy_id, tags, context);
                refuses_with(self.alloc, None, error)
            }
        }
    }

    /// The bound of types, from the first on.
    fn bound_of(&self, types: &BTreeSet<CedarType>) -> Result<Option<CedarType>, AllocError>
        ensures { IfOk result (λ o.
            option_map ty_of o ≡ list_lub (env_at self.now).mode (map ty_of types.now.keys)) }
    {
        let mut listed = Vec::new(self.alloc);
        for ty in types {
            listed.push(ty)?;
        }
        CedarType::reduce_to_least_upper_bound(self.alloc, &listed, self.mode)
    }

    /// The types that a tag of a value of this type may have.
    fn tag_types(&self, ty: &CedarType) -> Result<BTreeSet<CedarType>, AllocError>
        ensures { IfOk result (λ s.
            map ty_of s.keys ≡ tag_types (env_at self.now).schema (ty_of ty.now)) }
    {
        match ty {
            CedarType::Entity(kind) => self.schema.tag_types(self.alloc, kind),
            CedarType::Never | CedarType::Bool(_) => Ok(BTreeSet::new(self.alloc)),
            CedarType::Long | CedarType::String => Ok(BTreeSet::new(self.alloc)),
            CedarType::Set(_) | CedarType::AnySet => Ok(BTreeSet::new(self.alloc)),
            CedarType::Record { .. } | CedarType::Extension(_) => Ok(BTreeSet::new(self.alloc)),
        }
    }

    /// Of Never there is no rule, which is an error.
    fn tag_of_never<'a>(&self, loc: Option<Loc>) -> Result<Decision<'a>, AllocError>
        ensures { IfOk result (λ d. decision_of d
            ≡ refuses None (finding (env_at self.now) loc internal_invariant_violation ∷ [])) }
    {
        let policy_id = self.policy_id.clone()?;
        let error = ValidationError::internal_invariant_violation(loc, policy_id);
        refuses_with(self.alloc, None, error)
    }
}

fn has_tag_type(tags: &BTreeSet<CedarType>, is_known: bool) -> CedarType
    ensures { ty_of result ≡ has_tag_type (map ty_of tags.now.keys) is_known }
{
    if tags.is_empty() {
        return CedarType::Bool(BoolType::False);
    }
    if is_known {
        CedarType::Bool(BoolType::True)
    } else {
        any_bool()
    }
}

/// A copy of the entity types that a type names, if it names some.
fn types_named(ty: &CedarType) -> Result<Option<EntityLUB>, AllocError>
    ensures { IfOk result (λ o. option_map lub_of o ≡ types_named (ty_of ty.now)) }
{
    match named_types(ty) {
        Some(types) => Ok(Some(types.clone()?)),
        None => Ok(None),
    }
}

/// A copy of the entity type that a type names, if it names one alone.
fn only_type(ty: &CedarType) -> Result<Option<EntityType>, AllocError>
    ensures { IfOk result (λ o. option_map type_of o ≡ only_type (types_named (ty_of ty.now))) }
{
    let Some(types) = named_types(ty) else {
        return Ok(None);
    };
    match types.get_single_entity() {
        Some(entity_type) => Ok(Some(entity_type.clone()?)),
        None => Ok(None),
    }
}
