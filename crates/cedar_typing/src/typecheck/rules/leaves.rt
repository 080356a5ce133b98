// The rules of expressions without parts: literals, variables, slots and unknowns.
ghost use Rattle.std.specs.Prelude.{◌≡◌, is_some, IfOk, None, Some, option_map};
ghost use Rattle.cedar_types.specs.Names.{uid_of, path_of};
ghost use Rattle.cedar_types.specs.Types.{ty_of};
ghost use Rattle.cedar_types.specs.Expressions.Tree.{entity, lit, var, slot as slot_tree};
ghost use Rattle.cedar_types.specs.Expressions.View.{lit_of, lit_places};
ghost use Rattle.cedar_typing.specs.Capabilities.{no_caps};
ghost use Rattle.cedar_typing.specs.Infer.Leaves.{infer_leaf, infer_unknown};
ghost use Rattle.cedar_typing.specs.Infer.Parts.{answer_if};
ghost use Rattle.cedar_typing.specs.Rules.Leaves.{bool_ty, slot_ty, type_of_literal, variable_type};
ghost use Rattle.cedar_typing.specs.TypedExpr.{typed_tree};
ghost use Rattle.cedar_typing.specs.Views.{env_at, answer_of, findings, at};

use crate::typecheck::answer::TypecheckAnswer;
use crate::typecheck::type_env::TypeEnv;
use crate::typecheck::typed_nodes::{node, without_capabilities};
use crate::typecheck::variable_types::type_of_entities;
use cedar_types::base::{
    BoolType, CedarType, EntityUID, ExprKind, Literal, Loc, Name, SlotId, ValidationError,
    ValidationMode, Var,
};
use std::alloc::{AllocError, Global};
use std::rc::RcStr;

impl TypeEnv<'_, '_, '_, '_> {
    /// Types a literal. An entity whose type the schema does not know fails without an error,
    /// because the passes over names report it.
    #[inline(never)]
    pub(crate) fn check_literal<'a>(
        &self,
        loc: Option<Loc>,
        literal: &Literal,
    ) -> Result<TypecheckAnswer<'a>, AllocError>
        ensures { IfOk result (λ r.
            answer_of r
            ≡ infer_leaf (type_of_literal (env_at self.now) (lit_of literal.now))
            (record { place = loc; names = lit_places literal.now })
            (λ k. lit k (lit_of literal.now))) }
    {
        let annotation = self.declared_type_of(literal)?;
        let kind = ExprKind::Lit(literal.clone()?);
        let answer = self.leaf_answer(loc, annotation, kind)?;
        Ok(answer)
    }

    /// Types a variable. `action` fails without an error if the schema does not declare the
    /// environment's action.
    #[inline(never)]
    pub(crate) fn type_variable<'a>(
        &self,
        loc: Option<Loc>,
        variable: Var,
    ) -> Result<TypecheckAnswer<'a>, AllocError>
        ensures { IfOk result (λ r.
            answer_of r
            ≡ infer_leaf (variable_type (env_at self.now) variable) (at loc)
            (λ k. var k variable)) }
    {
        let annotation = self.type_of_variable(variable)?;
        let answer = self.leaf_answer(loc, annotation, ExprKind::Var(variable))?;
        Ok(answer)
    }

    /// The type of a variable, if it has one.
    #[tactic(auto, using(crate::proofs::TypeTests::VariableTypes::some_is_kept))]
    fn type_of_variable(&self, variable: Var) -> Result<Option<CedarType>, AllocError>
        ensures { IfOk result (λ o. option_map ty_of o ≡ variable_type (env_at self.now) variable) }
    {
        match variable {
            Var::Principal => Ok(Some(self.variables.principal.clone()?)),
            Var::Action => self.request_env.action_type(self.alloc, self.schema),
            Var::Resource => Ok(Some(self.variables.resource.clone()?)),
            Var::Context => Ok(Some(self.variables.context.clone()?)),
        }
    }

    /// Types a slot: it has the type to which it is linked, else any entity.
    #[inline(never)]
    pub(crate) fn type_slot<'a>(
        &self,
        loc: Option<Loc>,
        slot: SlotId,
    ) -> Result<TypecheckAnswer<'a>, AllocError>
        ensures { IfOk result (λ r.
            answer_of r
            ≡ infer_leaf (Some (slot_ty (env_at self.now).request_env slot)) (at loc)
            (λ k. slot_tree k slot)) }
    {
        let linked = match slot {
            SlotId::Principal => self.request_env.principal_slot(),
            SlotId::Resource => self.request_env.resource_slot(),
        };
        // a slot that is linked to no type may be bound to any entity
        let linked = type_of_entities(self.alloc, self.schema, linked)?;
        self.leaf_answer(loc, Some(linked), ExprKind::Slot(slot))
    }

    /// The answer for an expression without parts, of this type. Without a type it fails, and adds
    /// no error.
    fn leaf_answer<'a>(
        &self,
        loc: Option<Loc>,
        annotation: Option<CedarType>,
        kind: ExprKind<Option<CedarType>>,
    ) -> Result<TypecheckAnswer<'a>, AllocError>
        ensures { IfOk result (λ r. answer_of r
            ≡ answer_if (is_some annotation)
            (typed_tree (record { annotation = annotation; loc = loc; kind = kind })) no_caps) }
    {
        let succeeded = annotation.is_some();
        let typed = node(self.alloc, loc, annotation, kind)?;
        Ok(without_capabilities(self.alloc, succeeded, typed))
    }

    /// Types an unknown: it fails, without a type, and its typed copy has no place.
    #[inline(never)]
    pub(crate) fn type_unknown<'a>(&self, name: &Name) -> Result<TypecheckAnswer<'a>, AllocError>
        ensures { IfOk result (λ r. answer_of r ≡ infer_unknown (path_of name.now) (at None)) }
    {
        let kind = ExprKind::Unknown(name.clone()?);
        let typed = node(self.alloc, None, None, kind)?;
        Ok(TypecheckAnswer::fail(typed))
    }

    /// The type of a literal, if it has one.
    fn declared_type_of(&self, literal: &Literal) -> Result<Option<CedarType>, AllocError>
        ensures { IfOk result (λ o.
            option_map ty_of o
            ≡ type_of_literal (env_at self.now) (lit_of literal.now)) }
    {
        match literal {
            Literal::Bool(b) => Ok(Some(bool_type(*b))),
            Literal::Long(_) => Ok(Some(CedarType::Long)),
            Literal::String(_) => Ok(Some(CedarType::String)),
            Literal::EntityUID(uid) => self.entity_literal_type(uid),
        }
    }

    /// The type of an entity literal. An action has one only if that very action is declared.
    fn entity_literal_type(&self, uid: &EntityUID) -> Result<Option<CedarType>, AllocError>
        ensures { IfOk result (λ o.
            option_map ty_of o
            ≡ type_of_literal (env_at self.now) (entity (uid_of uid.now))) }
    {
        if let Some(known) = CedarType::euid_literal(self.alloc, uid, self.schema)? {
            return Ok(Some(known));
        }
        // a Partial schema need not declare every type, so an unknown one is no mistake
        if self.mode == ValidationMode::Partial {
            let named = CedarType::entity_reference(self.alloc, &uid.entity_type, self.schema)?;
            return Ok(Some(named));
        }
        // there is no error here, because the passes over names report the type or the action, once
        // for all environments
        Ok(None)
    }
}

/// The type of a Boolean literal: True or False.
pub(crate) fn bool_type(b: bool) -> CedarType
    ensures { ty_of result ≡ bool_ty b }
{
    if b {
        CedarType::Bool(BoolType::True)
    } else {
        CedarType::Bool(BoolType::False)
    }
}
