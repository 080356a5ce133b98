// Expressions. Each call goes one step deeper into the value, up to `MAX_DEPTH`.
ghost use Rattle.std.specs.Prelude.{◌≡◌, ◌+◌, IfOk};

use crate::forms::{FormError, FormFault, Object, items_of};
use crate::policies::entities::{Slots, name_at};
use crate::policies::leaves::{leaf, only_entry};
use crate::policies::operators::{Operator, apply, operator_of};
use crate::values::Value;
use cedar_types::base::{Expr, Loc};
use std::alloc::Global;
use std::collections::BTreeMap;
use std::rc::RcStr;

/// The state of the reader at an expression.
#[derive(Clone, Copy)]
pub struct Depth {
    pub alloc: Global,
    /// The number of steps that the reader may go deeper.
    pub left: usize,
    /// Whether the expression stands in the tree twice.
    pub is_copied: bool,
}

impl Depth {
    /// Goes one step deeper. If no step is left, the fault stands at `place`.
    fn deeper(self, place: Loc) -> Result<Depth, FormError>
        ensures { IfOk result (λ d. d.left + 1 ≡ self.left) }
    {
        match self.left.checked_sub(1) {
            Some(left) => Ok(Depth { left, ..self }),
            None => Err(FormError::At(place.start, FormFault::TooDeep)),
        }
    }

    /// Marks the expression as one that stands in the tree twice, if `is_copied` says so.
    fn copied(self, is_copied: bool) -> Depth
        ensures { result.left ≡ self.left }
    {
        Depth {
            is_copied: self.is_copied || is_copied,
            ..self
        }
    }
}

/// Reads an expression.
#[cycle(expressions)]
pub fn expression(slots: &Slots, value: &Value, depth: Depth) -> Result<Expr, FormError> {
    let inner = depth.deeper(value.place)?;
    let (key, part) = only_entry(Object::of(value)?)?;
    let whole = match key.name.as_str() {
        "Value" | "Var" | "Slot" | "Unknown" => leaf(depth.alloc, slots, key, part)?,
        "Set" => Expr::set(members(slots, part, inner)?),
        "Record" => Expr::record(fields(slots, Object::of(part)?, inner)?),
        name => match operator_of(name) {
            Some(operator) => operation(slots, operator, Object::of(part)?, inner)?,
            None => {
                let function = name_at(depth.alloc, name, key.place)?;
                Expr::call_extension_fn(function, members(slots, part, inner)?)
            }
        },
    };
    Ok(whole.with_maybe_source_loc(Some(value.place)))
}

/// Reads the members of a set, or the arguments of a call.
#[cycle(expressions)]
fn members(slots: &Slots, list: &Value, depth: Depth) -> Result<Vec<Expr>, FormError> {
    let inner = depth.deeper(list.place)?;
    let mut read = Vec::new(depth.alloc);
    for item in items_of(list)? {
        read.push(expression(slots, item, inner)?)?;
    }
    Ok(read)
}

/// Reads the fields of a record.
#[cycle(expressions)]
fn fields(
    slots: &Slots,
    object: Object<'_>,
    depth: Depth,
) -> Result<BTreeMap<RcStr, Expr>, FormError> {
    let inner = depth.deeper(object.place)?;
    let mut read = BTreeMap::new(depth.alloc);
    for (key, value) in object.entries {
        let field = expression(slots, value, inner)?;
        read.insert(key.name.clone()?, field)?;
    }
    Ok(read)
}

/// Reads an operator: its operands, and its other parts.
#[cycle(expressions)]
fn operation(
    slots: &Slots,
    operator: Operator,
    object: Object<'_>,
    depth: Depth,
) -> Result<Expr, FormError> {
    let inner = depth.deeper(object.place)?;
    object.allow(operator.keys())?;
    let is_doubled = operator.is_doubled(object);
    if is_doubled && depth.is_copied {
        return Err(FormError::At(object.place.start, FormFault::Twice));
    }
    let mut operands = Vec::new(depth.alloc);
    for key in operator.operand_keys(object) {
        let inside = inner.copied(is_doubled && *key == "left");
        operands.push(expression(slots, object.need(key)?, inside)?)?;
    }
    apply(depth.alloc, operator, object, operands)
}
