// The walk over the targets of a typed condition, whose values are entities that are dereferenced.
ghost use Rattle.std.specs.Prelude.{◌≡◌, option_map, IfOk, OnOk, if◌then◌else◌};
ghost use Rattle.cedar_types.specs.Names.{text_of, uid_of, text_eq, uid_eq};
ghost use Rattle.cedar_types.specs.Expressions.View.{lit_of};
ghost use Rattle.cedar_typing.specs.TypedExpr.{typed_tree};
ghost use Rattle.cedar_typechecker.specs.Levels.Chains.{is_get_tag, good_leaf, literal_leaf, entity_leaf};
ghost use Rattle.cedar_typechecker.specs.Levels.Demands.{counted_level, counted_at_key, has_key};
ghost use Rattle.cedar_typechecker.specs.Levels.Paths.{keys_along};
ghost use Rattle.cedar_typechecker.specs.Levels.Steps.{Adds, of_target, of_access_target, access_level, of_record_target, record_level, of_followed, of_literal_target, of_need};
ghost use Rattle.cedar_typechecker.specs.Levels.Views.{need_of, typed_fields};

use crate::level_validate::bases::{Base, base_of, is_constant};
use crate::level_validate::demands::{Demand, Need};
use crate::level_validate::paths::{Path, longer, split};
use crate::level_validate::walk::LevelWalk;
use cedar_types::base::{BinaryOp, CedarType, EntityUID, Expr, ExprKind, Literal, Loc};
use std::alloc::AllocError;
use std::collections::BTreeMap;
use std::rc::RcStr;

impl LevelWalk<'_> {
    /// The level of a target along a path. The demands of the target and of the parts below it are added. Levels are
    /// counted up to the greatest `u64`, which changes no error, because a maximum has 32 bits.
    #[cycle(levels)]
    pub(crate) fn target_level(
        &self,
        e: &Expr<Option<CedarType>>,
        path: Path<'_>,
        found: &mut Vec<Demand>,
    ) -> Result<u64, AllocError>
        ensures level { IfOk result (λ k. k
            ≡ counted_level (typed_tree e.now) (keys_along path.entry)) }
        ensures demands { OnOk result
            (Adds (of_target self.now (typed_tree e.now) (keys_along path.entry))
            found.old.items found.new.items) }
    {
        match &e.kind {
            // a request has the ids of its entities, so nothing is dereferenced to get them
            ExprKind::Var(_) => Ok(0),
            ExprKind::Lit(literal) => self.literal_target(e.loc, literal, found),
            // a slice begins at the request, and the entity to which a slot is bound need not be in the request
            ExprKind::Slot(_) => self.refused_target(e.loc, Need::NoLiteral, found),
            ExprKind::If {
                test_expr,
                then_expr,
                else_expr,
            } => {
                self.check(test_expr, found)?;
                let first = self.target_level(then_expr, path, found)?;
                // a constant test leaves one shared tree for both branches, so both have one level
                if is_constant(test_expr) {
                    return Ok(first);
                }
                let second = self.target_level(else_expr, path, found)?;
                // either branch may give the entity, so the deeper one counts
                Ok(first.max(second))
            }
            ExprKind::GetAttr(base, attr) => self.access_target(e.loc, base, attr, path, found),
            // `getTag` dereferences its left operand, and the name of the tag is evaluated too
            ExprKind::BinaryApp(op, left, right) if is_get_tag(*op) => {
                let level = self.target_level(left, path, found)?;
                self.check(right, found)?;
                Ok(level.saturating_add(1))
            }
            ExprKind::Record(fields) => self.record_target(e.loc, fields, path, found),
            // no other form of a typed condition has an entity as its value, so it is an internal error here
            ExprKind::Unknown(_)
            | ExprKind::And(_, _)
            | ExprKind::Or(_, _)
            | ExprKind::UnaryApp(_, _)
            | ExprKind::BinaryApp(_, _, _)
            | ExprKind::ExtensionFunctionApp(_, _)
            | ExprKind::HasAttr(_, _)
            | ExprKind::ExtHasAttr(_, _)
            | ExprKind::Like(_, _)
            | ExprKind::Is(_, _)
            | ExprKind::Set(_) => self.refused_target(e.loc, Need::Rule, found),
        }
    }

    /// The level of `b.x` as a target: an entity b is dereferenced once more; for a record b the path is longer by x.
    #[cycle(levels)]
    fn access_target(
        &self,
        loc: Option<Loc>,
        base: &Expr<Option<CedarType>>,
        attr: &RcStr,
        path: Path<'_>,
        found: &mut Vec<Demand>,
    ) -> Result<u64, AllocError>
        ensures level { IfOk result (λ k. k
            ≡ access_level (typed_tree base.now) (text_of attr.now) (keys_along path.entry)) }
        ensures demands { OnOk result (Adds
            (of_access_target self.now loc (typed_tree base.now) (text_of attr.now)
            (keys_along path.entry))
            found.old.items found.new.items) }
    {
        match base_of(base) {
            Base::Entity => {
                let level = self.target_level(base, path, found)?;
                Ok(level.saturating_add(1))
            }
            // a record is part of the entry of its entity, so no further entity is reached
            Base::Record => self.target_level(base, longer(attr, &path), found),
            Base::Other => self.refused_target(loc, Need::Rule, found),
        }
    }

    /// The level of a record literal as a target: the value at the first key of the path is followed, and the others
    /// are checked, because they are evaluated too.
    #[cycle(levels)]
    fn record_target(
        &self,
        loc: Option<Loc>,
        fields: &BTreeMap<RcStr, Expr<Option<CedarType>>>,
        path: Path<'_>,
        found: &mut Vec<Demand>,
    ) -> Result<u64, AllocError>
        ensures level { IfOk result (λ k. k
            ≡ record_level (typed_fields fields.now.entries) (keys_along path.entry)) }
        ensures demands { OnOk result (Adds
            (of_record_target self.now loc (typed_fields fields.now.entries)
            (keys_along path.entry))
            found.old.items found.new.items) }
    {
        let Some((key, rest)) = split(path) else {
            return self.refused_target(loc, Need::Rule, found);
        };
        if !has_key(fields, key) {
            return self.refused_target(loc, Need::Rule, found);
        }
        self.follow(fields, key, rest, found)
    }

    #[cycle(levels)]
    fn follow(
        &self,
        fields: &BTreeMap<RcStr, Expr<Option<CedarType>>>,
        key: &RcStr,
        rest: Path<'_>,
        found: &mut Vec<Demand>,
    ) -> Result<u64, AllocError>
        ensures level { IfOk result (λ k. k
            ≡ counted_at_key (typed_fields fields.now.entries) (text_of key.now)
            (keys_along rest.entry)) }
        ensures demands { OnOk result (Adds
            (of_followed self.now (typed_fields fields.now.entries) (text_of key.now)
            (keys_along rest.entry))
            found.old.items found.new.items) }
    {
        let mut level = None;
        for (own, value) in fields.iter() {
            if level.is_none() && is_same_key(key, own) {
                level = Some(self.target_level(value, rest, found)?);
            } else {
                self.check(value, found)?;
            }
        }
        Ok(level.unwrap_or(0))
    }

    /// The level of a literal as a target: the environment's own action is a good leaf, and any other literal adds a
    /// demand that no level meets.
    fn literal_target(
        &self,
        loc: Option<Loc>,
        literal: &Literal,
        found: &mut Vec<Demand>,
    ) -> Result<u64, AllocError>
        ensures level { IfOk result (λ k. k ≡ 0) }
        ensures demands { OnOk result (Adds (of_literal_target self.now loc (lit_of literal.now))
            found.old.items found.new.items) }
    {
        match literal {
            Literal::EntityUID(uid) => {
                if self.is_own_action(uid) {
                    return Ok(0);
                }
                self.refused_target(loc, Need::NoLiteral, found)
            }
            Literal::Bool(_) => self.refused_target(loc, Need::Rule, found),
            Literal::Long(_) => self.refused_target(loc, Need::Rule, found),
            Literal::String(_) => self.refused_target(loc, Need::Rule, found),
        }
    }

    /// Adds the demand of a target for which no level is enough, and answers the target's level, 0. It needs no literal if it
    /// is one entity in all requests, as an entity literal or a slot is; it needs a rule if no typed condition that passes
    /// has it.
    pub(crate) fn refused_target(
        &self,
        loc: Option<Loc>,
        need: Need,
        found: &mut Vec<Demand>,
    ) -> Result<u64, AllocError>
        ensures level { IfOk result (λ k. k ≡ 0) }
        ensures demands { OnOk result (Adds (of_need self.now loc (need_of need))
            found.old.items found.new.items) }
    {
        self.demand(loc, need, found)?;
        Ok(0)
    }

    /// Whether the entity is the environment's own action.
    fn is_own_action(&self, uid: &EntityUID) -> bool
        ensures { (if result then good_leaf else literal_leaf)
            ≡ entity_leaf (option_map (λ u. uid_of u.now) self.now.action) (uid_of uid.now) }
    {
        match self.action {
            // each slice has the action of its request
            Some(action) => is_same_entity(uid, action),
            None => false,
        }
    }
}

/// Whether the operator dereferences its left operand to give an entity, as `getTag` does.
fn is_get_tag(op: BinaryOp) -> bool
    ensures { result ≡ is_get_tag op }
{
    match op {
        BinaryOp::GetTag => true,
        _ => false,
    }
}

fn is_same_entity(one: &EntityUID, other: &EntityUID) -> bool
    ensures { result ≡ uid_eq (uid_of one.now) (uid_of other.now) }
{
    one == other
}

/// Whether a record literal has this key.
fn has_key(fields: &BTreeMap<RcStr, Expr<Option<CedarType>>>, key: &RcStr) -> bool
    ensures { result ≡ has_key (text_of key.now) (typed_fields fields.now.entries) }
{
    for (own, _) in fields.iter() {
        if is_same_key(key, own) {
            return true;
        }
    }
    false
}

fn is_same_key(one: &RcStr, other: &RcStr) -> bool
    ensures { result ≡ text_eq (text_of one.now) (text_of other.now) }
{
    one == other
}
