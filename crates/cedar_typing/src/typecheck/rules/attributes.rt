// The rules of `e has x` and `e.x`.
ghost use Rattle.std.specs.Prelude.{◌≡◌, IfOk, IfSome, option_map};
ghost use Rattle.cedar_types.specs.Names.{text_of};
ghost use Rattle.cedar_types.specs.Types.{ty_of};
ghost use Rattle.cedar_types.specs.Expressions.View.{written};
ghost use Rattle.cedar_types.specs.Capability.{cap_of, expr_in};
ghost use Rattle.cedar_types.specs.Types.Lookups.{attribute_type};
ghost use Rattle.cedar_types.specs.Errors.{finding_of, unsafe_optional_attribute_access};
ghost use Rattle.cedar_typing.specs.Rules.Attributes.{attribute_of, declared_has, undeclared_has, has_table, get_decides, get_table, undeclared_get};
ghost use Rattle.cedar_typing.specs.TypeEnv.{finding};
ghost use Rattle.cedar_typing.specs.Views.{env_at, decision_of};
ghost use Rattle.cedar_typing.specs.Capabilities.Priors.{known_in};

use crate::typecheck::capabilities::{no_capabilities, one_capability};
use crate::typecheck::prior::Prior;
use crate::typecheck::rules::eager::{Decision, refuses_with};
use crate::typecheck::type_env::TypeEnv;
use crate::typecheck::type_tests::{any_bool, is_record_type};
use cedar_types::base::{BoolType, CedarType, Loc, ValidationError, ValidationMode};
use cedar_types::types::capability::{Capability, DigestedBase};
use std::alloc::AllocError;
use std::rc::RcStr;

/// The capability that the base has the attribute.
fn attribute_of<'a>(base: &mut DigestedBase<'a>, attr: &RcStr) -> Result<Capability<'a>, AllocError>
    ensures of_it { IfOk result (λ c.
        cap_of c ≡ attribute_of (written (expr_in base.old)) (text_of attr.now)) }
    ensures kept { expr_in base.new ≡ expr_in base.old }
{
    base.attribute(attr)
}

impl TypeEnv<'_, '_, '_, '_> {
    /// The type of `base has attr` by the base's type. If that type declares the attribute, the whole produces that it is
    /// there.
    pub(crate) fn decide_has<'a>(
        &self,
        prior: &Prior<'_, 'a>,
        base: &mut DigestedBase<'a>,
        attr: &RcStr,
        found: &Option<CedarType>,
    ) -> Result<Decision<'a>, AllocError>
        ensures decides { IfOk result (λ d. decision_of d
            ≡ has_table (env_at self.now) (text_of attr.now)
            (attribute_of (written (expr_in base.old)) (text_of attr.now))
            (known_in prior.now (attribute_of (written (expr_in base.old)) (text_of attr.now)))
            (option_map ty_of found.now)) }
        ensures kept { expr_in base.new ≡ expr_in base.old }
    {
        // a base without a type has failed already, and the test is still a Boolean
        let Some(owner) = found else {
            return Ok(Decision::Gives(any_bool(), no_capabilities(self.alloc)));
        };
        match self.required(owner, attr)? {
            None => {
                // no capability is produced, because no access of an undeclared attribute asks for one
                let ty = self.undeclared_type(owner, attr);
                Ok(Decision::Gives(ty, no_capabilities(self.alloc)))
            }
            Some(is_required) => {
                // where `has` is true the attribute is there, so the rest of the condition may access it
                let there = attribute_of(base, attr)?;
                let ty = declared_type(owner, is_required, prior.contains(&there));
                Ok(Decision::Gives(ty, one_capability(self.alloc, there)?))
            }
        }
    }

    /// Whether the type requires the attribute; `None` if it does not declare it.
    pub(crate) fn required(
        &self,
        owner: &CedarType,
        attr: &RcStr,
    ) -> Result<Option<bool>, AllocError>
        ensures { IfOk result (λ o. o
            ≡ option_map (λ t. t.1)
            (attribute_type (env_at self.now).schema (ty_of owner.now) (text_of attr.now))) }
    {
        match CedarType::lookup_attribute_type(self.alloc, self.schema, owner, attr)? {
            Some(found) => {
                let is_required = found.is_required;
                drop(found);
                Ok(Some(is_required))
            }
            None => Ok(None),
        }
    }

    /// The type of `has` for an attribute that the owner's type does not declare.
    pub(crate) fn undeclared_type(&self, owner: &CedarType, attr: &RcStr) -> CedarType
        ensures { ty_of result
            ≡ undeclared_has (env_at self.now).schema (ty_of owner.now) (text_of attr.now) }
    {
        // an open record, or a union of several entity types, may have an attribute that its type does not declare
        if CedarType::may_have_attr(self.schema, owner, attr) {
            CedarType::Bool(BoolType::AnyBool)
        } else {
            CedarType::Bool(BoolType::False)
        }
    }

    /// The decision on `base.attr` by the base's type: the attribute's type, or an error at `loc`.
    pub(crate) fn decide_get<'a>(
        &self,
        prior: &Prior<'_, 'a>,
        loc: Option<Loc>,
        base: &mut DigestedBase<'a>,
        attr: &RcStr,
        found: &Option<CedarType>,
    ) -> Result<Decision<'a>, AllocError>
        ensures decides { IfOk result (λ d. decision_of d
            ≡ get_table (env_at self.now) loc (text_of attr.now)
            (known_in prior.now (attribute_of (written (expr_in base.old)) (text_of attr.now)))
            (option_map ty_of found.now)) }
        ensures kept { expr_in base.new ≡ expr_in base.old }
    {
        // a base without a type has failed already, and does not tell the type of its attribute
        let Some(owner) = found else {
            return Ok(Decision::Refuses(None, Vec::new(self.alloc)));
        };
        // A required attribute needs no guard, so we do not ask the prior capabilities: a first question costs a walk over
        // the base.
        if let Some(decision) = self.decide_required(owner, attr)? {
            return Ok(decision);
        }
        let is_known = prior.contains(&attribute_of(base, attr)?);
        self.decide_access(loc, attr, owner, is_known)
    }

    /// The decision on `base.attr` if the base's type requires the attribute, whatever is known; otherwise `None`.
    fn decide_required<'a>(
        &self,
        owner: &CedarType,
        attr: &RcStr,
    ) -> Result<Option<Decision<'a>>, AllocError>
        ensures { IfOk result (λ o. IfSome o (λ d. (l : _) → (known : _)
            → decision_of d
            ≡ get_decides (env_at self.now) l (text_of attr.now) known (ty_of owner.now)
            (attribute_type (env_at self.now).schema (ty_of owner.now) (text_of attr.now)))) }
    {
        match CedarType::lookup_attribute_type(self.alloc, self.schema, owner, attr)? {
            Some(found) if found.is_required => {
                let decision = Decision::Gives(found.attr_type, no_capabilities(self.alloc));
                Ok(Some(decision))
            }
            _ => Ok(None),
        }
    }

    /// The decision on `base.attr` by the base's type, and by whether the attribute is known to be there.
    pub(crate) fn decide_access<'a>(
        &self,
        loc: Option<Loc>,
        attr: &RcStr,
        owner: &CedarType,
        is_known: bool,
    ) -> Result<Decision<'a>, AllocError>
        ensures { IfOk result (λ d. decision_of d
            ≡ get_decides (env_at self.now) loc (text_of attr.now) is_known (ty_of owner.now)
            (attribute_type (env_at self.now).schema (ty_of owner.now) (text_of attr.now))) }
    {
        match CedarType::lookup_attribute_type(self.alloc, self.schema, owner, attr)? {
            None => { self.decide_undeclared(loc, attr, owner) }
            Some(found) => {
                if found.is_required | is_known {
                    return Ok(Decision::Gives(found.attr_type, no_capabilities(self.alloc)));
                }
                let error = self.unguarded(loc, attr, owner)?;
                // the access keeps its declared type, so that a wrong use of its value further up is found too
                refuses_with(self.alloc, Some(found.attr_type), error)
            }
        }
    }

    /// The decision on an undeclared attribute: in Partial the type Never if the attribute may be there, otherwise an error.
    fn decide_undeclared<'a>(
        &self,
        loc: Option<Loc>,
        attr: &RcStr,
        owner: &CedarType,
    ) -> Result<Decision<'a>, AllocError>
        ensures { IfOk result (λ d. decision_of d
            ≡ undeclared_get (env_at self.now) loc (text_of attr.now) (ty_of owner.now)) }
    {
        let may_exist = CedarType::may_have_attr(self.schema, owner, attr);
        // in Partial the schema need not declare all attributes, so an undeclared one may be there, of a type that is not
        // known
        if (self.mode == ValidationMode::Partial) & may_exist {
            return Ok(Decision::Gives(CedarType::Never, no_capabilities(self.alloc)));
        }
        let policy_id = self.policy_id.clone()?;
        let owner = CedarType::clone(owner)?;
        let attr = attr.clone()?;
        let error = ValidationError::unsafe_attribute_access(
            loc, policy_id, owner, attr, may_exist,
        );
        refuses_with(self.alloc, None, error)
    }

    /// The error of an access to an optional attribute that is not known to be there.
    fn unguarded(
        &self,
        loc: Option<Loc>,
        attr: &RcStr,
        owner: &CedarType,
    ) -> Result<ValidationError, AllocError>
        ensures { IfOk result (λ e. finding_of e
            ≡ finding (env_at self.now) loc
            (unsafe_optional_attribute_access (ty_of owner.now) (text_of attr.now))) }
    {
        let policy_id = self.policy_id.clone()?;
        let owner = CedarType::clone(owner)?;
        let attr = attr.clone()?;
        Ok(ValidationError::unsafe_optional_attribute_access(loc, policy_id, owner, attr))
    }
}

/// The type of `has` for a declared attribute, by whether the type requires it and whether it is known to be there.
pub(crate) fn declared_type(owner: &CedarType, is_required: bool, is_known: bool) -> CedarType
    ensures { ty_of result ≡ declared_has (ty_of owner.now) is_required is_known }
{
    // an earlier test on the way here has decided this one
    if is_known {
        return CedarType::Bool(BoolType::True);
    }
    // an entity may be missing from the store, and `has` is false then; a record has each attribute that its type requires
    if is_required && is_record_type(owner) {
        CedarType::Bool(BoolType::True)
    } else {
        CedarType::Bool(BoolType::AnyBool)
    }
}
