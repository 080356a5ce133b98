// Operators of expressions, and their trees on operands that were read.
use crate::forms::{FormError, FormFault, Object, expected, text_of};
use crate::policies::binaries::{Binary, apply_binary, binary_of};
use crate::policies::entities::entity_type;
use crate::policies::patterns::pattern;
use crate::values::{Value, ValueKind};
use cedar_types::base::{AttrChain, EntityType, Expr, Loc, Var};
use std::alloc::Global;

/// The number of attributes that may stand behind `has`.
const MAX_ATTRIBUTES: usize = 800;

/// An operator.
#[derive(Clone, Copy, PartialEq, Eq, Debug)]
pub enum Operator {
    Not,
    Negate,
    IsEmpty,
    GetAttribute,
    HasAttribute,
    Like,
    Is,
    Conditional,
    Binary(Binary),
}

/// Returns the operator of this key, if the key names one.
pub fn operator_of(key: &str) -> Option<Operator> {
    match key {
        "!" => Some(Operator::Not),
        "neg" => Some(Operator::Negate),
        "isEmpty" => Some(Operator::IsEmpty),
        "." => Some(Operator::GetAttribute),
        "has" => Some(Operator::HasAttribute),
        "like" => Some(Operator::Like),
        "is" => Some(Operator::Is),
        "if-then-else" => Some(Operator::Conditional),
        _ => binary_of(key).map(Operator::Binary),
    }
}

impl Operator {
    /// The keys of an object that holds the operands.
    pub fn keys(self) -> &'static [&'static str] {
        match self {
            Operator::Not | Operator::Negate | Operator::IsEmpty => &["arg"],
            Operator::GetAttribute | Operator::HasAttribute => &["left", "attr"],
            Operator::Like => &["left", "pattern"],
            Operator::Is => &["left", "entity_type", "in"],
            Operator::Conditional => &["if", "then", "else"],
            Operator::Binary(_) => &["left", "right"],
        }
    }

    /// The keys of those operands that this object has.
    pub fn operand_keys(self, object: Object<'_>) -> &'static [&'static str] {
        match self {
            Operator::Not | Operator::Negate | Operator::IsEmpty => &["arg"],
            Operator::GetAttribute | Operator::HasAttribute | Operator::Like => &["left"],
            Operator::Is if self.is_doubled(object) => &["left", "in"],
            Operator::Is => &["left"],
            Operator::Conditional => &["if", "then", "else"],
            Operator::Binary(_) => &["left", "right"],
        }
    }

    /// Returns whether the tree has the first operand twice: it does for `a is T in b`.
    pub fn is_doubled(self, object: Object<'_>) -> bool {
        self == Operator::Is && object.given("in").is_some()
    }
}

/// Applies the operator of this object to its operands.
pub fn apply(
    alloc: Global,
    operator: Operator,
    object: Object<'_>,
    mut operands: Vec<Expr>,
) -> Result<Expr, FormError> {
    let last = take(&mut operands, object)?;
    match operator {
        Operator::Not => Ok(Expr::not(alloc, last)?),
        Operator::Negate => Ok(Expr::neg(alloc, last)?),
        Operator::IsEmpty => Ok(Expr::is_empty(alloc, last)?),
        Operator::GetAttribute => {
            let attr = text_of(object.need("attr")?)?;
            Ok(Expr::get_attr(alloc, last, attr)?)
        }
        Operator::HasAttribute => has(alloc, last, object.need("attr")?),
        Operator::Like => Ok(Expr::like(alloc, last, pattern(alloc, object.need("pattern")?)?)?),
        Operator::Is => is(alloc, object, operands, last),
        Operator::Conditional => {
            let then = take(&mut operands, object)?;
            let test = take(&mut operands, object)?;
            Ok(Expr::ite(alloc, test, then, last)?)
        }
        Operator::Binary(binary) => {
            let left = take(&mut operands, object)?;
            Ok(apply_binary(alloc, binary, left, last, object.place)?)
        }
    }
}

/// Takes the last operand away and returns it.
fn take(operands: &mut Vec<Expr>, object: Object<'_>) -> Result<Expr, FormError> {
    match operands.pop() {
        Some(operand) => Ok(operand),
        None => Err(FormError::At(object.place.start, FormFault::Missing("left"))),
    }
}

/// Builds `operand is T`, or `operand is T in last` as two tests at one place.
fn is(
    alloc: Global,
    object: Object<'_>,
    mut operands: Vec<Expr>,
    last: Expr,
) -> Result<Expr, FormError> {
    let named = entity_type(alloc, object.need("entity_type")?)?;
    match operands.pop() {
        None => Ok(Expr::is_entity_type(alloc, last, named)?),
        Some(operand) => is_in(alloc, operand, named, last, object.place),
    }
}

fn is_in(
    alloc: Global,
    operand: Expr,
    named: EntityType,
    above: Expr,
    place: Loc,
) -> Result<Expr, FormError> {
    let again = operand.try_clone(alloc)?;
    let place = Some(place);
    let is = Expr::is_entity_type(alloc, operand, named)?.with_maybe_source_loc(place);
    let is_in = Expr::is_in(alloc, again, above)?.with_maybe_source_loc(place);
    Ok(Expr::and(alloc, is, is_in)?)
}

/// Builds `operand has attr`. `attr` is one attribute or a list of them, one after another.
fn has(alloc: Global, operand: Expr, attr: &Value) -> Result<Expr, FormError> {
    let ValueKind::Array(attributes) = &attr.kind else {
        return Ok(Expr::has_attr(alloc, operand, text_of(attr)?)?);
    };
    if attributes.len() > MAX_ATTRIBUTES {
        return Err(FormError::At(attr.place.start, FormFault::TooDeep));
    }
    let mut names = Vec::new(alloc);
    for attribute in attributes {
        names.push(text_of(attribute)?)?;
    }
    match names.as_slice() {
        [] => Err(expected(attr, "an attribute")),
        [only] => Ok(Expr::has_attr(alloc, operand, only)?),
        [first, rest @ ..] => {
            let chain = AttrChain::new(alloc, first, rest)?;
            Ok(Expr::extended_has_attr(alloc, operand, chain)?)
        }
    }
}

/// Reads a variable.
pub fn variable(value: &Value) -> Result<Expr, FormError> {
    match text_of(value)? {
        "principal" => Ok(Expr::var(Var::Principal)),
        "action" => Ok(Expr::var(Var::Action)),
        "resource" => Ok(Expr::var(Var::Resource)),
        "context" => Ok(Expr::var(Var::Context)),
        _ => Err(expected(value, "`principal`, `action`, `resource` or `context`")),
    }
}
