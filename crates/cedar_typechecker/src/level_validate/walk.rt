// The walk over the checked parts of a typed condition.
ghost use Rattle.std.specs.Prelude.{◌≡◌, map, max, OnOk};
ghost use Rattle.cedar_types.specs.Types.{ty_of};
ghost use Rattle.cedar_types.specs.Expressions.View.{chain_of, trees_of};
ghost use Rattle.cedar_typing.specs.TypedExpr.{typed_tree};
ghost use Rattle.cedar_typechecker.specs.Levels.Demands.{add_all_demands, add_field_demands};
ghost use Rattle.cedar_typechecker.specs.Levels.Dereferences.{accesses_first};
ghost use Rattle.cedar_typechecker.specs.Levels.Paths.{keys_along};
ghost use Rattle.cedar_typechecker.specs.Levels.Steps.{Adds, of_checked, of_first, of_access, of_chain, of_typed_chain, of_reached, of_need};
ghost use Rattle.cedar_typechecker.specs.Levels.Views.{need_of, surroundings_of, typed_fields};

use crate::level_validate::bases::{Base, base_of, base_of_type, is_constant};
use crate::level_validate::costs::{chain_cost, keys_to_entity};
use crate::level_validate::demands::{Demand, Need};
use crate::level_validate::paths::{Path, longer};
use cedar_types::base::{
    AttrChain, BinaryOp, CedarType, EntityUID, Expr, ExprKind, Loc, ValidatorSchema,
};
use std::alloc::{AllocError, Global};
use std::collections::BTreeMap;
use std::rc::RcStr;

/// The walk that finds the demands of a typed condition in one environment.
#[derive(Drop)]
pub(crate) struct LevelWalk<'a> {
    pub alloc: Global,
    pub schema: &'a ValidatorSchema,
    /// The environment's action, if it is known.
    pub action: Option<&'a EntityUID>,
    /// At a maximum below this, the error of a node above stands for all demands that the walk finds.
    pub hidden_below: u64,
}

impl LevelWalk<'_> {
    /// Adds the demands at a checked expression and below it.
    #[cycle(levels)]
    pub(crate) fn check(
        &self,
        e: &Expr<Option<CedarType>>,
        found: &mut Vec<Demand>,
    ) -> Result<(), AllocError>
        ensures { OnOk result (Adds (of_checked self.now (typed_tree e.now))
            found.old.items found.new.items) }
    {
        match &e.kind {
            ExprKind::Lit(_) => Ok(()),
            ExprKind::Var(_) => Ok(()),
            ExprKind::Slot(_) => Ok(()),
            ExprKind::Unknown(_) => Ok(()),
            ExprKind::If {
                test_expr,
                then_expr,
                else_expr,
            } => {
                self.check(test_expr, found)?;
                self.check(then_expr, found)?;
                // a constant test leaves one shared tree for both branches, so the second walk would find nothing new,
                // and 64 nested ones would be walked 2^64 times
                if is_constant(test_expr) {
                    return Ok(());
                }
                self.check(else_expr, found)
            }
            ExprKind::And(left, right) => {
                self.check(left, found)?;
                self.check(right, found)
            }
            ExprKind::Or(left, right) => {
                self.check(left, found)?;
                self.check(right, found)
            }
            ExprKind::UnaryApp(_, operand) => self.check(operand, found),
            ExprKind::BinaryApp(op, left, right) => {
                self.check_first(e.loc, *op, left, found)?;
                self.check(right, found)
            }
            ExprKind::ExtensionFunctionApp(_, arguments) => self.check_all(arguments, found),
            ExprKind::GetAttr(base, _) => self.check_access(e.loc, base, found),
            ExprKind::HasAttr(base, _) => self.check_access(e.loc, base, found),
            ExprKind::ExtHasAttr(base, chain) => self.check_chain(e.loc, base, chain, found),
            ExprKind::Like(operand, _) => self.check(operand, found),
            ExprKind::Is(operand, _) => self.check(operand, found),
            ExprKind::Set(elements) => self.check_all(elements, found),
            ExprKind::Record(fields) => self.check_fields(fields, found),
        }
    }

    #[cycle(levels)]
    fn check_all(
        &self,
        exprs: &Vec<Expr<Option<CedarType>>>,
        found: &mut Vec<Demand>,
    ) -> Result<(), AllocError>
        ensures { OnOk result (Adds (add_all_demands (surroundings_of self.now)
            (trees_of (map typed_tree exprs.now.items)) self.now.hidden_below)
            found.old.items found.new.items) }
    {
        for e in exprs {
            self.check(e, found)?;
        }
        Ok(())
    }

    #[cycle(levels)]
    fn check_fields(
        &self,
        fields: &BTreeMap<RcStr, Expr<Option<CedarType>>>,
        found: &mut Vec<Demand>,
    ) -> Result<(), AllocError>
        ensures { OnOk result (Adds (add_field_demands (surroundings_of self.now)
            (typed_fields fields.now.entries) self.now.hidden_below)
            found.old.items found.new.items) }
    {
        for (_, value) in fields.iter() {
            self.check(value, found)?;
        }
        Ok(())
    }

    /// Adds the demands at the first operand of an operator, which `in`, `hasTag` and `getTag` dereference.
    #[cycle(levels)]
    fn check_first(
        &self,
        loc: Option<Loc>,
        op: BinaryOp,
        left: &Expr<Option<CedarType>>,
        found: &mut Vec<Demand>,
    ) -> Result<(), AllocError>
        ensures { OnOk result (Adds (of_first self.now loc op (typed_tree left.now))
            found.old.items found.new.items) }
    {
        if accesses_first(op) {
            return self.check_reach(loc, left, Path::Keys(&[]), 1, found);
        }
        self.check(left, found)
    }

    /// Adds the demands of an access of an attribute, its own at `loc`.
    #[cycle(levels)]
    fn check_access(
        &self,
        loc: Option<Loc>,
        base: &Expr<Option<CedarType>>,
        found: &mut Vec<Demand>,
    ) -> Result<(), AllocError>
        ensures { OnOk result (Adds (of_access self.now loc (typed_tree base.now))
            found.old.items found.new.items) }
    {
        match base_of(base) {
            // both `.` and `has` look up the entry of the entity
            Base::Entity => self.check_reach(loc, base, Path::Keys(&[]), 1, found),
            Base::Record => self.check(base, found),
            Base::Other => self.demand(loc, Need::Rule, found),
        }
    }

    /// Adds the demands of extended `has`, its own at `loc`.
    #[tactic(auto, using(crate::proofs::Levels::TypedViews::annotation_is))]
    #[cycle(levels)]
    fn check_chain(
        &self,
        loc: Option<Loc>,
        base: &Expr<Option<CedarType>>,
        chain: &AttrChain,
        found: &mut Vec<Demand>,
    ) -> Result<(), AllocError>
        ensures { OnOk result
            (Adds (of_chain self.now loc (typed_tree base.now) (chain_of chain.now))
            found.old.items found.new.items) }
    {
        match &base.annotation {
            None => self.check(base, found),
            Some(ty) => self.check_typed_chain(loc, base, ty, chain, found),
        }
    }

    #[cycle(levels)]
    fn check_typed_chain(
        &self,
        loc: Option<Loc>,
        base: &Expr<Option<CedarType>>,
        ty: &CedarType,
        chain: &AttrChain,
        found: &mut Vec<Demand>,
    ) -> Result<(), AllocError>
        ensures { OnOk result (Adds
            (of_typed_chain self.now loc (typed_tree base.now) (ty_of ty.now) (chain_of chain.now))
            found.old.items found.new.items) }
    {
        let kind = base_of_type(ty);
        // a chain of several attributes on any other value is an error of typing, so only the base is walked
        if let Base::Other = kind {
            return self.check(base, found);
        }
        let rest = chain.rest.as_slice();
        let cost = chain_cost(self.alloc, self.schema, ty, &chain.first, rest)?;
        self.demand(loc, Need::Level(cost), found)?;
        // at a maximum below the cost, the error of the cost stands for all that is found below
        let below = self.hidden_until(cost);
        if let Base::Entity = kind {
            return below.check_reach(loc, base, Path::Keys(&[]), cost, found);
        }
        below.check(base, found)?;
        let keys = keys_to_entity(self.alloc, self.schema, ty, &chain.first, rest)?;
        let Some(keys) = keys else {
            return Ok(());
        };
        let later = Path::Keys(keys);
        below.check_reach(loc, base, longer(&chain.first, &later), cost, found)
    }

    /// Adds the demands of an entity that is dereferenced at this cost, with that of its level at `loc`.
    #[cycle(levels)]
    fn check_reach(
        &self,
        loc: Option<Loc>,
        base: &Expr<Option<CedarType>>,
        path: Path<'_>,
        cost: u64,
        found: &mut Vec<Demand>,
    ) -> Result<(), AllocError>
        ensures { OnOk result (Adds
            (of_reached self.now loc (typed_tree base.now) (keys_along path.entry) cost)
            found.old.items found.new.items) }
    {
        let level = self.target_level(base, path, found)?;
        self.demand(loc, Need::Level(level.saturating_add(cost)), found)
    }

    /// Adds the demand of this need at `loc`.
    pub(crate) fn demand(
        &self,
        loc: Option<Loc>,
        need: Need,
        found: &mut Vec<Demand>,
    ) -> Result<(), AllocError>
        ensures { OnOk result (Adds (of_need self.now loc (need_of need))
            found.old.items found.new.items) }
    {
        found.push(Demand {
            loc,
            need,
            hidden_below: self.hidden_below,
        })?;
        Ok(())
    }

    /// The walk below an error that stands for all demands there at a maximum below `cost`.
    fn hidden_until(&self, cost: u64) -> LevelWalk<'_>
        ensures surroundings { surroundings_of result ≡ surroundings_of self.now }
        ensures hidden { result.hidden_below ≡ max self.now.hidden_below cost }
    {
        LevelWalk {
            alloc: self.alloc,
            schema: self.schema,
            action: self.action,
            hidden_below: self.hidden_below.max(cost),
        }
    }
}

/// Whether the operator dereferences its first operand.
fn accesses_first(op: BinaryOp) -> bool
    ensures { result ≡ accesses_first op }
{
    match op {
        BinaryOp::In => true,
        BinaryOp::HasTag => true,
        BinaryOp::GetTag => true,
        _ => false,
    }
}
