// What an expression reads of its environment.
ghost use Rattle.std.specs.Prelude.{◌≡◌, ◌↔◌, IfOk, IsTrue};
ghost use Rattle.cedar_types.specs.Environments.RequestEnvs.{env_of};
ghost use Rattle.cedar_types.specs.Expressions.View.{written};
ghost use Rattle.cedar_typing.specs.TypedExpr.{Source};
ghost use Rattle.cedar_alike.specs.Flags.{AreReads, with_node, has_variable, has_slot};
ghost use Rattle.cedar_alike.specs.Reads.{AgreeOn, SameVariable, SameSlot};
ghost use Rattle.cedar_alike.specs.TypedOnce.{IsTypedOnceInAll};

use crate::environments::{same_slot, same_variable};
use cedar_types::base::{Expr, ExprKind, SlotId, Var};
use cedar_types::types::request_env::RequestEnv;
use std::alloc::{AllocError, Global};

/// The variables and slots that an expression reads: each field is true exactly if its variable or
/// slot occurs in the expression.
#[derive(Clone, Copy, PartialEq, Eq, Debug)]
pub struct Reads {
    pub principal: bool,
    pub action: bool,
    pub resource: bool,
    pub context: bool,
    /// Whether `?principal` occurs.
    pub principal_slot: bool,
    /// Whether `?resource` occurs.
    pub resource_slot: bool,
}

impl Reads {
    /// What the expression reads.
    ///
    /// The walk does not recurse. If memory for the expressions still to visit is refused, the
    /// answer is an `AllocError`.
    pub fn of<T>(alloc: Global, expr: &Expr<T>) -> Result<Reads, AllocError>
        ensures { IfOk result (λ f. AreReads f (written expr.now)) }
    {
        let mut reads = Reads {
            principal: false,
            action: false,
            resource: false,
            context: false,
            principal_slot: false,
            resource_slot: false,
        };
        for item in expr.subexpressions(alloc)? {
            reads = reads.with_node(item?);
        }
        Ok(reads)
    }

    /// Whether two environments agree on what is read. If they do, an expression that reads this,
    /// and nothing else, is typed once for both: inference has one answer, with one typed copy,
    /// the same errors and the same capabilities.
    ///
    /// The environments agree on a variable or a slot if its type is equal in both. They agree on
    /// `action` if it is one action in both, or if neither action is declared. The call takes no
    /// memory.
    pub fn agree(&self, one: &RequestEnv<'_>, other: &RequestEnv<'_>) -> bool
        ensures exact { (e : Source) → AreReads self.now e
            → (IsTrue result ↔ AgreeOn (env_of one.now) (env_of other.now) e) }
        ensures once { (e : Source) → AreReads self.now e → IsTrue result
            → IsTypedOnceInAll (env_of one.now) (env_of other.now) e }
    {
        let principal = variable_agrees(self.principal, Var::Principal, one, other);
        let action = variable_agrees(self.action, Var::Action, one, other);
        let resource = variable_agrees(self.resource, Var::Resource, one, other);
        let context = variable_agrees(self.context, Var::Context, one, other);
        let principal_slot = slot_agrees(self.principal_slot, SlotId::Principal, one, other);
        let resource_slot = slot_agrees(self.resource_slot, SlotId::Resource, one, other);
        principal & action & resource & context & principal_slot & resource_slot
    }

    /// What is read, with what the root of an expression is, if it is a variable or a slot.
    fn with_node<T>(self, root: &Expr<T>) -> Reads
        ensures { result ≡ with_node self (written root.now) }
    {
        match &root.kind {
            ExprKind::Var(Var::Principal) => Reads {
                principal: true,
                ..self
            },
            ExprKind::Var(Var::Action) => Reads {
                action: true,
                ..self
            },
            ExprKind::Var(Var::Resource) => Reads {
                resource: true,
                ..self
            },
            ExprKind::Var(Var::Context) => Reads {
                context: true,
                ..self
            },
            ExprKind::Slot(SlotId::Principal) => Reads {
                principal_slot: true,
                ..self
            },
            ExprKind::Slot(SlotId::Resource) => Reads {
                resource_slot: true,
                ..self
            },
            _ => self,
        }
    }
}

/// Whether the variable is the same in both environments, if it is read.
fn variable_agrees(is_read: bool, var: Var, one: &RequestEnv<'_>, other: &RequestEnv<'_>) -> bool
    ensures { IsTrue result ↔
        (IsTrue is_read → SameVariable (env_of one.now) (env_of other.now) var) }
{
    !is_read || same_variable(var, one, other)
}

/// Whether the slot is the same in both environments, if it is read.
fn slot_agrees(is_read: bool, slot: SlotId, one: &RequestEnv<'_>, other: &RequestEnv<'_>) -> bool
    ensures { IsTrue result ↔
        (IsTrue is_read → SameSlot (env_of one.now) (env_of other.now) slot) }
{
    !is_read || same_slot(slot, one, other)
}
