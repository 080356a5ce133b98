// The forms of expressions in Cedar's own form of JSON: their names, and those that are written at
// once.
use crate::writer::Answer;
use cedar_types::base::{AttrChain, BinaryOp, Literal, PatternElem, SlotId, UnaryOp, Var};
use std::alloc::{AllocError, Global};

/// The attribute of a chain that stands behind the first and `before` others.
pub fn attribute_behind(chain: &AttrChain, before: usize) -> &str {
    match chain.rest.get(before) {
        Some(attribute) => attribute.as_str(),
        None => chain.first.as_str(),
    }
}

/// Begins an expression of this form, whose members come next.
pub fn begin_form(answer: &mut Answer, form: &str) -> Result<(), AllocError> {
    answer.begin_object()?;
    answer.begin_object_at(form)
}

/// Writes an object of one key and a text.
pub fn write_word(answer: &mut Answer, key: &str, word: &str) -> Result<(), AllocError> {
    answer.begin_object()?;
    answer.text_at(key, word)?;
    answer.end_object()
}

pub fn write_unknown(answer: &mut Answer, name: &str) -> Result<(), AllocError> {
    begin_form(answer, "Unknown")?;
    answer.text_at("name", name)?;
    answer.end_object()?;
    answer.end_object()
}

/// Writes a literal.
pub fn write_literal(
    alloc: Global,
    answer: &mut Answer,
    literal: &Literal,
) -> Result<(), AllocError> {
    answer.begin_object()?;
    answer.key("Value")?;
    match literal {
        Literal::Bool(truth) => answer.boolean(*truth)?,
        Literal::Long(number) => answer.long(*number)?,
        Literal::String(text) => answer.text(text.as_str())?,
        Literal::EntityUID(uid) => {
            let name = uid.entity_type.to_string(alloc)?;
            write_uid(answer, name.as_str(), uid.eid.as_str())?;
        }
    }
    answer.end_object()
}

/// Writes `true` or `false` as a value.
pub fn write_truth(answer: &mut Answer, truth: bool) -> Result<(), AllocError> {
    answer.begin_object()?;
    answer.boolean_at("Value", truth)?;
    answer.end_object()
}

/// Writes the id of an entity as a value.
fn write_uid(answer: &mut Answer, entity_type: &str, eid: &str) -> Result<(), AllocError> {
    begin_form(answer, "__entity")?;
    answer.text_at("type", entity_type)?;
    answer.text_at("id", eid)?;
    answer.end_object()?;
    answer.end_object()
}

/// Writes a pattern, a list of its parts.
pub fn write_pattern(answer: &mut Answer, pattern: &[PatternElem]) -> Result<(), AllocError> {
    answer.begin_list()?;
    for elem in pattern {
        write_elem(answer, *elem)?;
    }
    answer.end_list()
}

fn write_elem(answer: &mut Answer, elem: PatternElem) -> Result<(), AllocError> {
    match elem {
        PatternElem::Wildcard => answer.text("Wildcard"),
        PatternElem::Char(c) => {
            answer.begin_object()?;
            answer.character_at("Literal", c)?;
            answer.end_object()
        }
    }
}

pub fn name_of_var(var: Var) -> &'static str {
    match var {
        Var::Principal => "principal",
        Var::Action => "action",
        Var::Resource => "resource",
        Var::Context => "context",
    }
}

pub fn name_of_slot(slot: SlotId) -> &'static str {
    match slot {
        SlotId::Principal => "?principal",
        SlotId::Resource => "?resource",
    }
}

pub fn name_of_unary(op: UnaryOp) -> &'static str {
    match op {
        UnaryOp::Not => "!",
        UnaryOp::Neg => "neg",
        UnaryOp::IsEmpty => "isEmpty",
    }
}

pub fn name_of_binary(op: BinaryOp) -> &'static str {
    match op {
        BinaryOp::Eq => "==",
        BinaryOp::Less => "<",
        BinaryOp::LessEq => "<=",
        BinaryOp::Add => "+",
        BinaryOp::Sub => "-",
        BinaryOp::Mul => "*",
        BinaryOp::In => "in",
        BinaryOp::Contains => "contains",
        BinaryOp::ContainsAll => "containsAll",
        BinaryOp::ContainsAny => "containsAny",
        BinaryOp::GetTag => "getTag",
        BinaryOp::HasTag => "hasTag",
    }
}
