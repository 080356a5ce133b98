// Applications: the principals, resources and contexts of actions.
use crate::cursor::{Cursor, MAX_GRAMMAR_STEPS};
use crate::faults::{Expected, Fault, ReadError};
use crate::notes::Met;
use crate::schemas::entity_types::meant_entity_type;
use crate::schemas::expansions::Expansions;
use crate::schemas::lists::one_or_more;
use crate::schemas::meanings::Names;
use crate::schemas::meant_types::{meant_name, meant_type};
use crate::schemas::types::written_type;
use crate::schemas::written::{Mention, Role, WrittenName, WrittenPart, WrittenType};
use cedar_types::base::{Attributes, CedarType, EntityType, OpenTag, ValidatorApplySpec};
use std::alloc::{AllocError, Global};
use std::collections::{BTreeMap, BTreeSet};
use std::rc::Rc;

/// The parts of `appliesTo` that are read.
#[derive(Clone, Copy)]
struct PartsRead {
    has_principals: bool,
    has_resources: bool,
    has_context: bool,
}

impl PartsRead {
    /// Reads a part that was not read before. It fails at a part that was.
    fn read_part(&mut self, cursor: &mut Cursor<'_>) -> Result<WrittenPart, ReadError> {
        match cursor.peek().text {
            "principal" if !self.has_principals => {
                self.has_principals = true;
                Ok(WrittenPart::Principals(applied_types(cursor, "principal")?))
            }
            "resource" if !self.has_resources => {
                self.has_resources = true;
                Ok(WrittenPart::Resources(applied_types(cursor, "resource")?))
            }
            "context" if !self.has_context => {
                self.has_context = true;
                cursor.take();
                cursor.expect(":")?;
                Ok(WrittenPart::Context(context(cursor)?))
            }
            "principal" | "resource" | "context" => {
                Err(cursor.fault(Fault::Expected(Expected::OtherApplication)))
            }
            _ => Err(cursor.fault(Fault::Expected(Expected::Application))),
        }
    }

    /// Fails if there are no principals or no resources, because `appliesTo` has to have both.
    fn check(self, cursor: &Cursor<'_>) -> Result<(), ReadError> {
        if !self.has_principals {
            return Err(cursor.fault(Fault::Expected(Expected::Principal)));
        }
        if !self.has_resources {
            return Err(cursor.fault(Fault::Expected(Expected::Resource)));
        }
        Ok(())
    }
}

/// Reads the parts of `appliesTo`: the principals, the resources, and perhaps a context, in any
/// order.
pub fn application(cursor: &mut Cursor<'_>) -> Result<Vec<WrittenPart>, ReadError> {
    cursor.expect("{")?;
    let mut read = PartsRead {
        has_principals: false,
        has_resources: false,
        has_context: false,
    };
    let mut parts = Vec::new(cursor.alloc);
    for _ in 0..cursor.most_left() {
        if cursor.is_at("}") {
            break;
        }
        parts.push(read.read_part(cursor)?)?;
        if !cursor.takes(",") {
            break;
        }
    }
    read.check(cursor)?;
    cursor.expect("}")?;
    Ok(parts)
}

/// Reads the word `principal` or `resource`, and the types behind it.
fn applied_types(
    cursor: &mut Cursor<'_>,
    variable: &'static str,
) -> Result<Vec<WrittenName>, ReadError> {
    cursor.expect(variable)?;
    cursor.expect(":")?;
    let start = cursor.start();
    let types = one_or_more(cursor)?;
    // an action that applies to nothing has no `appliesTo`
    if types.is_empty() {
        let none = Met::Fault(Fault::Expected(Expected::SomeType));
        cursor.notes.meet(start, none)?;
    }
    Ok(types)
}

/// Reads the type of a context.
fn context(cursor: &mut Cursor<'_>) -> Result<WrittenType, ReadError> {
    let read = written_type(cursor, MAX_GRAMMAR_STEPS)?;
    if let WrittenType::Named(name) = &read {
        cursor.notes.mention(name, Role::Context)?;
    }
    // the fault is noted here too, because the declaration may have another fault behind it
    let is_set = matches!(&read, WrittenType::Set(_, _) | WrittenType::Known(_, _));
    if is_set && cursor.notes.are_taken() {
        cursor.notes.meet(read.start(), Met::VagueContext)?;
    }
    Ok(read)
}

/// The meaning of these parts together. Without parts the action applies to nothing.
pub fn meant_application(
    parts: &Vec<WrittenPart>,
    names: &Names<'_>,
    expansions: &mut Expansions,
) -> Result<ValidatorApplySpec, ReadError> {
    let mut meant = application_to_nothing(names.alloc)?;
    for part in parts {
        match part {
            WrittenPart::Principals(types) => {
                meant.principal_apply_spec = meant_applied(types, names, expansions)?;
            }
            WrittenPart::Resources(types) => {
                meant.resource_apply_spec = meant_applied(types, names, expansions)?;
            }
            WrittenPart::Context(written) => {
                let context = meant_context(written, names, expansions)?;
                meant.context = Rc::new(names.alloc, context)?;
            }
        }
    }
    Ok(meant)
}

fn meant_applied(
    written: &Vec<WrittenName>,
    names: &Names<'_>,
    expansions: &mut Expansions,
) -> Result<BTreeSet<EntityType>, ReadError> {
    let mut types = BTreeSet::new(names.alloc);
    for name in written {
        types.insert(meant_entity_type(name, names, expansions)?)?;
    }
    Ok(types)
}

/// The type of a context, which has to be a record if names have to be known.
fn meant_context(
    written: &WrittenType,
    names: &Names<'_>,
    expansions: &mut Expansions,
) -> Result<CedarType, ReadError> {
    let context = meant_type(written, names, MAX_GRAMMAR_STEPS, expansions)?;
    check_context(&context, written.start(), names, expansions)?;
    Ok(context)
}

fn check_context(
    context: &CedarType,
    start: usize,
    names: &Names<'_>,
    expansions: &mut Expansions,
) -> Result<(), ReadError> {
    if names.have_to_be_known && !matches!(context, CedarType::Record { .. }) {
        return expansions.notes.meet(start, Met::VagueContext);
    }
    Ok(())
}

/// Notes the faults of a name in a declaration with a fault behind that name.
pub fn check_mention(
    mention: &Mention,
    names: &Names<'_>,
    expansions: &mut Expansions,
) -> Result<(), ReadError> {
    let name = &mention.name;
    if mention.role == Role::EntityType {
        meant_entity_type(name, names, expansions)?;
        return Ok(());
    }
    let meant = meant_name(name, names, MAX_GRAMMAR_STEPS, expansions)?;
    if mention.role == Role::Context {
        check_context(&meant, name.start, names, expansions)?;
    }
    Ok(())
}

/// The application of an action without `appliesTo`.
pub fn application_to_nothing(alloc: Global) -> Result<ValidatorApplySpec, AllocError> {
    Ok(ValidatorApplySpec {
        principal_apply_spec: BTreeSet::new(alloc),
        resource_apply_spec: BTreeSet::new(alloc),
        context: Rc::new(alloc, empty_record(alloc)?)?,
    })
}

/// The type of a context that is not given: an empty record.
pub fn empty_record(alloc: Global) -> Result<CedarType, AllocError> {
    let attributes = Attributes::with_attributes(alloc, BTreeMap::new(alloc))?;
    Ok(CedarType::record_with_attributes(attributes, OpenTag::ClosedAttributes))
}
