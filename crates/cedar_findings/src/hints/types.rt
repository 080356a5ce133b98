// Hints against types that are not the expected ones, or do not agree.
use crate::hints::calls::is_plain;
use crate::hints::records::difference;
use crate::parts::{Operation, operation_at, operation_in, part_around, text_at};
use cedar_extensions::checks::Constructor;
use cedar_types::base::{
    BinaryOp, CedarType, EntityKind, Expr, ExprKind, IncompatibleTypes, Literal, LubContext,
    Template, UnaryOp, UnexpectedType,
};
use std::alloc::{AllocError, Global};

/// The hint at a part with another type than is expected.
pub fn hint_for_unexpected(
    alloc: Global,
    policy: &Template,
    text: &str,
    found: &UnexpectedType,
) -> Result<String, AllocError> {
    let Some(around) = part_around(alloc, policy, found.source_loc)? else {
        return Ok(String::new(alloc));
    };
    if let ExprKind::HasAttr(base, attribute) = &around.kind {
        return hint_for_has(alloc, text, base, attribute.as_str(), &found.actual);
    }
    if let ExprKind::UnaryApp(operator, operand) = &around.kind {
        if matches!(operator, UnaryOp::Not) {
            if let Some(hint) = hint_for_not(alloc, policy, text, around, operand)? {
                return Ok(hint);
            }
        }
        return String::from_str(alloc, hint_for_one_operand(&found.actual));
    }
    match operation_in(around) {
        Some(it) => hint_for_operand(alloc, text, it, found),
        None => Ok(String::new(alloc)),
    }
}

/// The hint against `has` on a set.
fn hint_for_has(
    alloc: Global,
    text: &str,
    base: &Expr,
    attribute: &str,
    actual: &CedarType,
) -> Result<String, AllocError> {
    if !is_set(actual) {
        return Ok(String::new(alloc));
    }
    let base = text_at(text, base.loc).unwrap_or("a");
    let attribute = if is_plain(attribute) { attribute } else { "b" };
    format!(in alloc; "`contains` looks into a set: `{base}.contains(\"{attribute}\")`")
}

/// The hint against `!a == b`, in which `!` binds stronger than `==`.
fn hint_for_not(
    alloc: Global,
    policy: &Template,
    text: &str,
    negation: &Expr,
    operand: &Expr,
) -> Result<Option<String>, AllocError> {
    let Some(around) = part_around(alloc, policy, negation.loc)? else {
        return Ok(None);
    };
    let operands = match operation_in(around) {
        Some(it) if it.operator == BinaryOp::Eq && it.left.loc == negation.loc => {
            (text_at(text, operand.loc), text_at(text, it.right.loc))
        }
        _ => return Ok(None),
    };
    let (Some(left), Some(right)) = operands else {
        return Ok(None);
    };
    Ok(Some(format!(in alloc; "`!` negates `{left}` alone: did you mean `{left} != {right}`?")?))
}

fn hint_for_one_operand(actual: &CedarType) -> &'static str {
    match actual {
        CedarType::String => "a text is compared with `== \"\"`, and `like` looks into it",
        _ => "",
    }
}

/// The hint against an operation on an operand of this type.
fn hint_for_operand(
    alloc: Global,
    text: &str,
    operation: Operation<'_>,
    found: &UnexpectedType,
) -> Result<String, AllocError> {
    let is_left = operation.left.loc == found.source_loc;
    match operation.operator {
        BinaryOp::Contains if is_left && is_text(&found.actual) => {
            hint_for_contains(alloc, text, operation)
        }
        BinaryOp::ContainsAll | BinaryOp::ContainsAny if is_left && is_text(&found.actual) => {
            String::from_str(alloc, "`like` looks into a text, as in `a like \"*b*\"`")
        }
        BinaryOp::ContainsAll | BinaryOp::ContainsAny if !is_left => {
            String::from_str(alloc, hint_for_set(&found.actual))
        }
        BinaryOp::In => hint_for_in(alloc, text, operation, is_left, &found.actual),
        BinaryOp::Less | BinaryOp::LessEq => {
            let operand = if is_left {
                operation.left
            } else {
                operation.right
            };
            hint_for_comparison(alloc, operand, &found.actual)
        }
        BinaryOp::Add | BinaryOp::Sub | BinaryOp::Mul if is_text(&found.actual) => {
            String::from_str(
                alloc,
                "numbers alone are reckoned with: texts cannot be joined",
            )
        }
        _ => Ok(String::new(alloc)),
    }
}

/// The hint for a type that stands in place of a set.
fn hint_for_set(actual: &CedarType) -> &'static str {
    if is_set(actual) {
        ""
    } else {
        "a set stands in brackets, as in `[a, b]`, and `contains` looks for one element"
    }
}

fn is_text(actual: &CedarType) -> bool {
    matches!(actual, CedarType::String)
}

fn is_set(actual: &CedarType) -> bool {
    matches!(actual, CedarType::Set(_) | CedarType::AnySet)
}

/// The way to look into a text, for a `contains` on one.
fn hint_for_contains(
    alloc: Global,
    text: &str,
    operation: Operation<'_>,
) -> Result<String, AllocError> {
    let base = text_at(text, operation.left.loc).unwrap_or("a");
    let part = match &operation.right.kind {
        ExprKind::Lit(Literal::String(literal)) if is_plain(literal.as_str()) => literal.as_str(),
        _ => return String::from_str(alloc, "`like` looks into a text, as in `a like \"*b*\"`"),
    };
    format!(in alloc; "`like` looks into a text: `{base} like \"*{part}*\"`")
}

/// The hint against `in` on a value that is no entity.
fn hint_for_in(
    alloc: Global,
    text: &str,
    operation: Operation<'_>,
    is_left: bool,
    actual: &CedarType,
) -> Result<String, AllocError> {
    let left = text_at(text, operation.left.loc);
    let right = text_at(text, operation.right.loc);
    match (left, right) {
        (Some(left), Some(right)) if looks_for_value(operation, is_left, actual) => {
            format!(in alloc; "`contains` looks into a set: `{right}.contains({left})`")
        }
        _ if is_set(actual) => {
            String::from_str(alloc, "`contains` looks into a set, as in `a.contains(b)`")
        }
        _ if is_text(actual) => {
            String::from_str(
                alloc,
                "an entity has its type before it, as `User::\"ann\"`",
            )
        }
        _ => Ok(String::new(alloc)),
    }
}

/// Whether an operation with `in` seems to look for a value in a set: for a literal, or in a set of listed values.
fn looks_for_value(operation: Operation<'_>, is_left: bool, actual: &CedarType) -> bool {
    let is_listed = matches!(operation.right.kind, ExprKind::Set(_));
    match &operation.left.kind {
        ExprKind::Var(_) => false,
        ExprKind::GetAttr(_, _) if is_listed => is_left || is_set(actual),
        _ => is_value(operation.left) && (is_left || is_set(actual)),
    }
}

/// Whether an expression is a literal that is no entity.
fn is_value(expr: &Expr) -> bool {
    match &expr.kind {
        ExprKind::Lit(Literal::EntityUID(_)) => false,
        ExprKind::Lit(_) => true,
        _ => false,
    }
}

/// The time or the number that may be meant by a text in a comparison, or an empty text.
fn hint_for_text(alloc: Global, literal: &str) -> Result<String, AllocError> {
    for function in [Constructor::Datetime, Constructor::Duration] {
        if function.reads(literal) {
            let name = function.name();
            return format!(in alloc; "a time is written `{name}(\"{literal}\")`");
        }
    }
    let is_number = literal.parse::<i64>().is_ok();
    String::from_str(
        alloc,
        if is_number {
            "numbers stand without quotes"
        } else {
            ""
        },
    )
}

/// The hint against `<` or `<=` on values that they do not compare.
fn hint_for_comparison(
    alloc: Global,
    operand: &Expr,
    actual: &CedarType,
) -> Result<String, AllocError> {
    if let ExprKind::Lit(Literal::String(literal)) = &operand.kind {
        let hint = hint_for_text(alloc, literal.as_str())?;
        if !hint.is_empty() {
            return Ok(hint);
        }
    }
    match actual {
        CedarType::String => {
            String::from_str(
                alloc,
                "texts have no order: `==` and `like` are there for them",
            )
        }
        CedarType::Extension(name) if name.basename.as_str() == "decimal" => String::from_str(
            alloc,
            "decimals are compared by `.lessThan()`, `.greaterThan()` and the like",
        ),
        _ => Ok(String::new(alloc)),
    }
}

/// The types that must agree, and their difference.
pub fn hint_for_incompatible(
    alloc: Global,
    policy: &Template,
    text: &str,
    found: &IncompatibleTypes,
) -> Result<String, AllocError> {
    let mut hint = String::from_str(alloc, wanted_in(found.context))?;
    if let Some(difference) = difference(alloc, &found.types)? {
        write!(hint, ": {difference}")?;
        return Ok(hint);
    }
    if let Some(entity) = entity_meant(alloc, policy, text, found)? {
        write!(hint, "; did you mean `{entity}`?")?;
    }
    Ok(hint)
}

/// The rule by which types must agree.
fn wanted_in(context: LubContext) -> &'static str {
    match context {
        LubContext::Conditional => "both branches of an `if` have to be of one type",
        LubContext::Set => "the elements of a set have to be of one type",
        LubContext::Equality => "both sides of `==` have to be of one type",
        LubContext::Contains => "what is looked for has to be of the type of the set's elements",
        LubContext::ContainsAnyAll => "the elements of both sets have to be of one type",
        LubContext::GetTag => "the tags of all these entity types have to be of one type",
    }
}

/// The entity that may be meant by a text, if a text is compared with an entity.
fn entity_meant(
    alloc: Global,
    policy: &Template,
    text: &str,
    found: &IncompatibleTypes,
) -> Result<Option<String>, AllocError> {
    let mut entity_type = None;
    for ty in found.types.iter() {
        if let CedarType::Entity(EntityKind::Entity(types)) = ty {
            entity_type = types.get_single_entity();
        }
    }
    let Some(entity_type) = entity_type else {
        return Ok(None);
    };
    let Some(operation) = operation_at(alloc, policy, found.source_loc)? else {
        return Ok(None);
    };
    let operand = match (&operation.left.kind, &operation.right.kind) {
        (_, ExprKind::Lit(Literal::String(_))) => operation.right,
        (ExprKind::Lit(Literal::String(_)), _) => operation.left,
        _ => return Ok(None),
    };
    match text_at(text, operand.loc) {
        Some(id) => Ok(Some(format!(in alloc; "{entity_type}::{id}")?)),
        None => Ok(None),
    }
}
