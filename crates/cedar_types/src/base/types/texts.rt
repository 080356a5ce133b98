// Displays of types.
use crate::base::types::entity_sets::EntityLUB;
use crate::base::types::{AttributeType, Attributes, BoolType, CedarType, EntityKind, OpenTag};
use std::fmt;
use std::rc::RcStr;

impl fmt::Display for BoolType {
    fn fmt<W: fmt::Write>(&self, f: &mut fmt::Formatter<W>) -> fmt::Result {
        match self {
            BoolType::AnyBool => write!(f, "Bool"),
            BoolType::True => write!(f, "True"),
            BoolType::False => write!(f, "False"),
        }
    }
}

impl fmt::Display for EntityLUB {
    fn fmt<W: fmt::Write>(&self, f: &mut fmt::Formatter<W>) -> fmt::Result {
        let mut is_first = true;
        for entity_type in self.iter() {
            if !is_first {
                write!(f, "|")?;
            }
            write!(f, "{entity_type}")?;
            is_first = false;
        }
        Ok(())
    }
}

impl fmt::Display for EntityKind {
    fn fmt<W: fmt::Write>(&self, f: &mut fmt::Formatter<W>) -> fmt::Result {
        match self {
            EntityKind::Entity(lub) => write!(f, "{lub}"),
            EntityKind::AnyEntity => write!(f, "entity"),
        }
    }
}

impl fmt::Display for CedarType {
    #[cycle(shown)]
    fn fmt<W: fmt::Write>(&self, f: &mut fmt::Formatter<W>) -> fmt::Result {
        match self {
            CedarType::Never => write!(f, "Never"),
            CedarType::Bool(kind) => write!(f, "{kind}"),
            CedarType::Long => write!(f, "Long"),
            CedarType::String => write!(f, "String"),
            CedarType::Set(element) => write!(f, "Set<{element}>"),
            CedarType::AnySet => write!(f, "Set"),
            CedarType::Record {
                attributes,
                is_open,
            } => write_record(attributes, *is_open, f),
            CedarType::Entity(kind) => write!(f, "{kind}"),
            CedarType::Extension(name) => write!(f, "{name}"),
        }
    }
}

/// Writes the attributes of a record in braces, and two dots as the last item if it is open.
#[cycle(shown)]
fn write_record<W: fmt::Write>(
    attributes: &Attributes,
    is_open: OpenTag,
    f: &mut fmt::Formatter<W>,
) -> fmt::Result {
    write!(f, "{{")?;
    let mut is_first = true;
    for (name, attribute) in attributes.attrs.iter() {
        if !is_first {
            write!(f, ", ")?;
        }
        write_attribute(name, attribute, f)?;
        is_first = false;
    }
    match is_open {
        OpenTag::OpenAttributes if is_first => write!(f, "..}}"),
        OpenTag::OpenAttributes => write!(f, ", ..}}"),
        OpenTag::ClosedAttributes => write!(f, "}}"),
    }
}

/// Writes the name of an attribute, a question mark if it is optional, and its type.
#[cycle(shown)]
fn write_attribute<W: fmt::Write>(
    name: &RcStr,
    attribute: &AttributeType,
    f: &mut fmt::Formatter<W>,
) -> fmt::Result {
    let ty = &attribute.attr_type;
    if attribute.is_required {
        write!(f, "{name}: {ty}")
    } else {
        write!(f, "{name}?: {ty}")
    }
}
