// Typed nodes, and the answers that are made of them.
ghost use Rattle.std.specs.Prelude.{◌≡◌, IfOk, map, option_map};
ghost use Rattle.cedar_types.specs.Capability.{caps};
ghost use Rattle.cedar_types.specs.Names.{path_of};
ghost use Rattle.cedar_types.specs.Expressions.Tree.{call};
ghost use Rattle.cedar_types.specs.Types.{ty_of};
ghost use Rattle.cedar_types.specs.Expressions.View.{trees_of};
ghost use Rattle.cedar_typing.specs.Capabilities.{no_caps};
ghost use Rattle.cedar_typing.specs.Infer.Parts.{answer_if};
ghost use Rattle.cedar_typing.specs.TypedExpr.{typed_as, typed_tree, at_place};
ghost use Rattle.cedar_typing.specs.Views.{answer_of, at};

use crate::typecheck::answer::TypecheckAnswer;
use cedar_types::base::{CedarType, Expr, ExprKind, Loc, Name};
use cedar_types::types::capability::CapabilitySet;
use std::alloc::{AllocError, Global};

/// A success with these capabilities, or a failure, which has none.
pub(crate) fn with_capabilities<'a>(
    succeeded: bool,
    typed: Box<Expr<Option<CedarType>>>,
    capabilities: CapabilitySet<'a>,
) -> TypecheckAnswer<'a>
    ensures { answer_of result
        ≡ answer_if succeeded (typed_tree typed.value) (caps capabilities.entry) }
{
    if succeeded {
        TypecheckAnswer::success_with_capability(typed, capabilities)
    } else {
        TypecheckAnswer::fail(typed)
    }
}

/// A success or a failure without capabilities. It takes no memory.
pub(crate) fn without_capabilities<'a>(
    alloc: Global,
    succeeded: bool,
    typed: Box<Expr<Option<CedarType>>>,
) -> TypecheckAnswer<'a>
    ensures { answer_of result ≡ answer_if succeeded (typed_tree typed.value) no_caps }
{
    if succeeded {
        TypecheckAnswer::success(alloc, typed)
    } else {
        TypecheckAnswer::fail(typed)
    }
}

/// The typed expression, moved to another place.
pub(crate) fn at_place(
    mut typed: Box<Expr<Option<CedarType>>>,
    loc: Option<Loc>,
) -> Box<Expr<Option<CedarType>>>
    ensures { typed_tree result.value ≡ at_place loc (typed_tree typed.value) }
{
    typed.loc = loc;
    typed
}

/// A typed expression of this form, in a box of its own.
pub(crate) fn node(
    alloc: Global,
    loc: Option<Loc>,
    annotation: Option<CedarType>,
    kind: ExprKind<Option<CedarType>>,
) -> Result<Box<Expr<Option<CedarType>>>, AllocError>
    ensures { IfOk result (λ e. e.value
        ≡ record { annotation = annotation; loc = loc; kind = kind }) }
{
    let typed = Expr {
        annotation,
        loc,
        kind,
    };
    Ok(Box::new(alloc, typed)?)
}

/// A typed call of this function, with typed arguments.
pub(crate) fn call_node(
    alloc: Global,
    loc: Option<Loc>,
    name: &Name,
    ty: Option<CedarType>,
    arguments: Vec<Expr<Option<CedarType>>>,
) -> Result<Box<Expr<Option<CedarType>>>, AllocError>
    ensures { IfOk result (λ e. typed_tree e.value
        ≡ call (typed_as (option_map ty_of ty) (at loc)) (path_of name.now)
        (trees_of (map typed_tree arguments.items))) }
{
    let kind = ExprKind::ExtensionFunctionApp(name.clone()?, arguments);
    node(alloc, loc, ty, kind)
}
