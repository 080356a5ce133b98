//! Completions: names that may be written at a position.
use crate::checks::CheckedPolicy;
use crate::expected::{Expected, end_of_id, expected_behind, name_start, tokens_of};
use crate::items::{
    Form, Item, ItemKind, OF_SETS, OPERANDS, add_actions, add_all, add_entities, add_entity_types,
    writing_of,
};
use crate::members::{Member, member_of, owner_type};
use crate::readings::read_policy;
use crate::spots::{Spot, spot_at};
use crate::tokens::{TokenKind, is_in_word};
use crate::typed_parts::{TypedPart, types_of};
use cedar_types::base::{ArgumentCheck, CedarType, Loc, Template, ValidatorSchema};
use cedar_verdicts::settings::Settings;
use std::alloc::{AllocError, Global};
use std::collections::BTreeMap;
use std::rc::RcStr;

/// The name that stands for a name that is not written yet.
const PLACEHOLDER: &str = "not_written_yet";

/// The items that may be written at a place of a policy.
#[derive(Drop)]
pub struct Completion {
    /// The place of the text that is written so far, which an item replaces.
    pub place: Loc,
    pub items: Vec<Item>,
}

/// A name that is written so far.
#[derive(Clone, Copy)]
struct Begun {
    /// The place of the name in the text that is read.
    own: Loc,
    /// The place of the name in the policy.
    place: Loc,
    /// The byte at which the mark or the word before the name begins.
    before: usize,
    /// The name is a text in quotes.
    is_quoted: bool,
}

/// The completion at a byte of a policy: the items that may be written there. Each is read as the name that it shows. If memory
/// is refused, the answer is an `AllocError`.
pub fn completion_at<C: ArgumentCheck>(
    alloc: Global,
    settings: &Settings<'_, C>,
    policy: &CheckedPolicy,
    byte: usize,
) -> Result<Completion, AllocError> {
    let own = policy.text.as_str();
    if let Some(before) = own.get(..byte) {
        return completion_behind(alloc, settings, own, before, 0);
    }
    // a blank stands for those between the text of the policy and the byte
    let text = format!(in alloc; "{own} ")?;
    let moved = byte.saturating_sub(text.len());
    completion_behind(alloc, settings, text.as_str(), text.as_str(), moved)
}

/// The completion behind the beginning of a policy's text. Places behind it are moved by so many bytes.
fn completion_behind<C: ArgumentCheck>(
    alloc: Global,
    settings: &Settings<'_, C>,
    text: &str,
    front: &str,
    moved: usize,
) -> Result<Completion, AllocError> {
    let byte = front.len();
    let tokens = tokens_of(alloc, front)?;
    let name = name_start(tokens.as_slice(), byte);
    let count = tokens.iter().take_while(|it| it.place.start < name).count();
    let expected = expected_behind(tokens.get(..count).unwrap_or(&[]));
    let start = match expected {
        Expected::Operand | Expected::Nothing => front.trim_end_matches(is_in_word).len(),
        _ => name,
    };
    let own = Loc {
        start,
        end: end_of_id(text, Loc { start, end: byte }),
    };
    let begun = Begun {
        own,
        place: Loc {
            start: own.start.saturating_add(moved),
            end: own.end.saturating_add(moved),
        },
        before: match count.checked_sub(1).and_then(|last| tokens.get(last)) {
            Some(token) => token.place.start,
            None => 0,
        },
        is_quoted: match tokens.get(count) {
            Some(token) => token.kind == TokenKind::Text,
            None => false,
        },
    };
    let mut items = Vec::new(alloc);
    add_items(alloc, settings, text, expected, begun, &mut items)?;
    Ok(Completion {
        place: begun.place,
        items,
    })
}

/// Adds the items of the kind that is expected.
fn add_items<C: ArgumentCheck>(
    alloc: Global,
    settings: &Settings<'_, C>,
    text: &str,
    expected: Expected,
    begun: Begun,
    items: &mut Vec<Item>,
) -> Result<(), AllocError> {
    let schema = settings.validator.schema();
    match expected {
        Expected::Member | Expected::Attribute => add_members(alloc, settings, text, begun, items),
        Expected::EntityType => add_entity_types(alloc, schema, items),
        Expected::Entity => add_entities(alloc, schema, begun.place, items),
        Expected::Action => add_actions(alloc, schema, items),
        Expected::Operand => add_all(alloc, ItemKind::Operand, &OPERANDS, begun.place, items),
        Expected::Nothing => Ok(()),
    }
}

/// Adds the attributes of the expression before a name, and after `.` also its methods: each that one of its types has.
fn add_members<C: ArgumentCheck>(
    alloc: Global,
    settings: &Settings<'_, C>,
    text: &str,
    begun: Begun,
    items: &mut Vec<Item>,
) -> Result<(), AllocError> {
    let front = text.get(..begun.own.start).unwrap_or("");
    let behind = text.get(begun.own.end..).unwrap_or("");
    let rest = behind.trim_start_matches(is_in_word);
    let whole = format!(in alloc; "{front}{PLACEHOLDER}{rest}")?;
    let functions = settings.validator.extensions();
    let Some(reading) = read_policy(alloc, functions, whole.as_str())? else {
        return Ok(());
    };
    let template = reading.into_template();
    add_members_of(alloc, settings, &template, begun, items)
}

/// Adds the members that the placeholder in a policy may stand for.
fn add_members_of<C: ArgumentCheck>(
    alloc: Global,
    settings: &Settings<'_, C>,
    template: &Template,
    begun: Begun,
    items: &mut Vec<Item>,
) -> Result<(), AllocError> {
    let Some(condition) = &template.non_scope_constraints else {
        return Ok(());
    };
    let Some(spot) = spot_at(alloc, condition, begun.own.start)? else {
        return Ok(());
    };
    add_members_at(alloc, settings, template, &spot, begun, items)
}

/// Adds the members that the placeholder at a spot may stand for.
fn add_members_at<C: ArgumentCheck>(
    alloc: Global,
    settings: &Settings<'_, C>,
    template: &Template,
    spot: &Spot<'_>,
    begun: Begun,
    items: &mut Vec<Item>,
) -> Result<(), AllocError> {
    let Some(member) = member_of(spot.part) else {
        return Ok(());
    };
    if member.attr.as_str() != PLACEHOLDER {
        return Ok(());
    }
    let schema = settings.validator.schema();
    let mut found: BTreeMap<RcStr, Item> = BTreeMap::new(alloc);
    for typed in types_of(
        alloc,
        settings,
        template,
        spot.guards.as_slice(),
        member.base,
    )? {
        add_attributes(alloc, schema, &typed, member, begun, &mut found)?;
        if member.is_access && matches!(&typed.ty, CedarType::Set(_) | CedarType::AnySet) {
            add_all(alloc, ItemKind::Method, &OF_SETS, begun.place, items)?;
        }
    }
    for (_, item) in found {
        items.push(item)?;
    }
    Ok(())
}

/// The form in which an attribute is written in the place of a name.
fn form_of(member: Member<'_>, begun: Begun) -> Form {
    if member.is_access {
        Form::Access {
            point: begun.before,
        }
    } else if member.first.is_some() {
        Form::FurtherTest
    } else if begun.is_quoted {
        Form::QuotedTest
    } else {
        Form::Test
    }
}

/// Adds the attributes of a type, each with its own type. The detail of an optional one says whether `has` must guard it.
fn add_attributes(
    alloc: Global,
    schema: &ValidatorSchema,
    typed: &TypedPart,
    member: Member<'_>,
    begun: Begun,
    found: &mut BTreeMap<RcStr, Item>,
) -> Result<(), AllocError> {
    let Some(owner) = owner_type(alloc, schema, &typed.ty, member)? else {
        return Ok(());
    };
    let form = form_of(member, begun);
    let attributes = owner.attributes(alloc, schema)?;
    for (name, attribute) in attributes.attrs.iter() {
        let Some(writing) = writing_of(alloc, form, begun.place, name.as_str())? else {
            continue;
        };
        let is_known = member.first.is_none() && typed.known.iter().any(|it| it == name);
        let note = match (attribute.is_required, is_known) {
            (true, _) => "",
            (false, true) => ", optional: known to be there",
            (false, false) => ", optional: needs `has`",
        };
        let ty = &attribute.attr_type;
        let item = Item {
            label: String::from_str(alloc, name.as_str())?,
            kind: ItemKind::Attribute,
            detail: format!(in alloc; "{ty}{note}")?,
            writing,
        };
        found.insert(name.clone()?, item)?;
    }
    Ok(())
}
