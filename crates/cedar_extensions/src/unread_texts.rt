//! Calls that make extension values, on texts that stand for no value. They are found even in parts that typing never looks at.
ghost use Rattle.std.specs.Prelude.{◌≡◌, IfOk, map, option_map};
ghost use Rattle.cedar_types.specs.Errors.{finding_of};
ghost use Rattle.cedar_types.specs.Expressions.View.{written};
ghost use Rattle.cedar_types.specs.Names.{path_of, text_of};
ghost use Rattle.cedar_types.specs.Templates.{template_of};
ghost use Rattle.cedar_extensions.specs.Calls.{constructor_at, unread_call, unread_in};

use crate::checks::{Constructor, only_text};
use cedar_types::base::{Expr, ExprKind, Name, PolicyID, Template, ValidationError};
use std::alloc::{AllocError, Global};

/// An error for each call in the condition whose text stands for no value, wherever the call is, in the order of
/// `subexpressions`. If memory is refused, the answer is an `AllocError`.
pub fn unread_texts(alloc: Global, policy: &Template) -> Result<Vec<ValidationError>, AllocError>
    ensures { IfOk result (λ v. map finding_of v.items ≡ unread_in (template_of policy.now)) }
{
    let mut errors = Vec::new(alloc);
    let Some(condition) = &policy.non_scope_constraints else {
        return Ok(errors);
    };
    for item in condition.subexpressions(alloc)? {
        if let Some(error) = find_unread(alloc, &policy.id, item?)? {
            errors.push(error)?;
        }
    }
    Ok(errors)
}

/// The error of a part, if it is a call of a constructor on a text that stands for no value.
fn find_unread(
    alloc: Global,
    policy: &PolicyID,
    part: &Expr,
) -> Result<Option<ValidationError>, AllocError>
    ensures { IfOk result (λ o. option_map finding_of o
        ≡ unread_call (text_of policy.now.text) (written part.now)) }
{
    let ExprKind::ExtensionFunctionApp(name, arguments) = &part.kind else {
        return Ok(None);
    };
    let Some(function) = constructor_at(name) else {
        return Ok(None);
    };
    let Some(text) = only_text(arguments.as_slice()) else {
        return Ok(None);
    };
    if function.reads(text) {
        return Ok(None);
    }
    let why = function.why_unread(alloc, text)?;
    let error = ValidationError::function_argument_validation(part.loc, policy.clone()?, why);
    Ok(Some(error))
}

/// The constructor of this name, if it is one of them.
fn constructor_at(name: &Name) -> Option<Constructor>
    ensures { result ≡ constructor_at (path_of name.now) }
{
    if !name.path.is_empty() {
        return None;
    }
    Constructor::from_name(name.basename.as_str())
}
