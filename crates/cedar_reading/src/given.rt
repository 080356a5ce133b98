// Declarations that are given one by one, in the notation of test cases and worked rows. Cedar's
// own syntax cannot write them, and its reader knows nothing of them.
use crate::cursor::{Cursor, MAX_GRAMMAR_STEPS};
use crate::faults::{Expected, Fault, ReadError};
use crate::names::{PlacedName, placed_name};
use crate::schemas::applications::{application_to_nothing, empty_record};
use crate::schemas::closed::{copy_of_action_kind, copy_of_kind};
use crate::schemas::entity_types::ids;
use crate::schemas::lists::{Listing, one_or_in_brackets};
use crate::schemas::{SchemaDeclarations, SchemaReadError, schema_of};
use crate::shown_types::read_shown_type;
use crate::texts::text;
use crate::tokens::TokenKind;
use cedar_types::base::{
    Attributes, CedarType, EntityType, EntityUID, Name, OpenTag, StandardValidatorEntityType,
    ValidatorActionId, ValidatorActionKind, ValidatorApplySpec, ValidatorEntityType,
    ValidatorEntityTypeKind, ValidatorSchema,
};
use std::alloc::{AllocError, Global};
use std::collections::{BTreeMap, BTreeSet};
use std::rc::Rc;

/// The schema of declarations that are given one by one. A type may be any type that is shown.
/// `above [B, C]` in the place of `in` gives the descendants, and none are added. An action may be
/// named by its whole id, and `external` may stand before `entity` or `action`. A name without a
/// path is one of its namespace. It fails as `schema` does.
pub fn schema_as_given(alloc: Global, text: &str) -> Result<ValidatorSchema, SchemaReadError> {
    schema_of(alloc, declarations_as_given(alloc, text)?)
}

/// The declarations of the text, each name on its own. It fails if the text cannot be read.
pub fn declarations_as_given(alloc: Global, text: &str) -> Result<SchemaDeclarations, ReadError> {
    let mut cursor = Cursor::new(alloc, text)?;
    let mut given = SchemaDeclarations {
        entity_types: Vec::new(alloc),
        actions: Vec::new(alloc),
    };
    for _ in 0..cursor.most_left() {
        if cursor.is_at_end() {
            break;
        }
        block(&mut cursor, &mut given)?;
    }
    Ok(given)
}

/// Reads a namespace, or a declaration outside of namespaces.
fn block(cursor: &mut Cursor<'_>, given: &mut SchemaDeclarations) -> Result<(), ReadError> {
    if !cursor.takes("namespace") {
        return declaration(cursor, &[], given);
    }
    let namespace = cursor.word()?;
    cursor.expect("{")?;
    for _ in 0..cursor.most_left() {
        if cursor.takes("}") {
            break;
        }
        declaration(cursor, &[namespace], given)?;
    }
    Ok(())
}

/// Reads a declaration and adds it to `given`.
fn declaration(
    cursor: &mut Cursor<'_>,
    namespace: &[&str],
    given: &mut SchemaDeclarations,
) -> Result<(), ReadError> {
    let is_external = cursor.takes("external");
    if cursor.takes("entity") {
        add_types(cursor, namespace, is_external, &mut given.entity_types)
    } else if cursor.takes("action") {
        add_actions(cursor, namespace, is_external, &mut given.actions)
    } else {
        Err(cursor.fault(Fault::Expected(Expected::Declaration)))
    }
}

/// Reads entity types behind the word `entity`, and adds them.
fn add_types(
    cursor: &mut Cursor<'_>,
    namespace: &[&str],
    is_external: bool,
    given: &mut Vec<ValidatorEntityType>,
) -> Result<(), ReadError> {
    let names = names::<EntityType>(cursor, namespace, Listing::WithCommas)?;
    let descendants = descendants::<EntityType>(cursor, namespace)?;
    let kind = if is_external {
        ValidatorEntityTypeKind::External
    } else {
        kind_of_types(cursor)?
    };
    cursor.expect(";")?;
    for name in names {
        given.push(ValidatorEntityType {
            name,
            descendants: descendants.clone()?,
            kind: copy_of_kind(cursor.alloc, &kind)?,
        })?;
    }
    Ok(())
}

/// Reads the ids of an enumerated type, or the attributes and tags of another type.
fn kind_of_types(cursor: &mut Cursor<'_>) -> Result<ValidatorEntityTypeKind, ReadError> {
    if cursor.takes("enum") {
        return Ok(ValidatorEntityTypeKind::Enum(ids(cursor)?));
    }
    let attributes = attributes(cursor)?;
    let tags = if cursor.takes("tags") {
        Some(shown_type(cursor)?)
    } else {
        None
    };
    Ok(ValidatorEntityTypeKind::Standard(StandardValidatorEntityType { attributes, tags }))
}

/// Reads attributes, which may be missing, as the type of a closed record.
fn attributes(cursor: &mut Cursor<'_>) -> Result<Attributes, ReadError> {
    if !cursor.is_at("{") {
        return Ok(Attributes::with_attributes(cursor.alloc, BTreeMap::new(cursor.alloc))?);
    }
    match &shown_type(cursor)? {
        CedarType::Record {
            attributes,
            is_open: OpenTag::ClosedAttributes,
        } => Ok(attributes.clone()?),
        _ => Err(cursor.fault(Fault::Expected(Expected::Attribute))),
    }
}

fn shown_type(cursor: &mut Cursor<'_>) -> Result<CedarType, ReadError> {
    read_shown_type(cursor, MAX_GRAMMAR_STEPS)
}

/// Reads actions behind the word `action`, and adds them.
fn add_actions(
    cursor: &mut Cursor<'_>,
    namespace: &[&str],
    is_external: bool,
    given: &mut Vec<ValidatorActionId>,
) -> Result<(), ReadError> {
    let names = names::<EntityUID>(cursor, namespace, Listing::WithCommas)?;
    let descendants = descendants::<EntityUID>(cursor, namespace)?;
    let kind = if is_external {
        ValidatorActionKind::External
    } else {
        ValidatorActionKind::Defined(application(cursor, namespace)?)
    };
    cursor.expect(";")?;
    for name in names {
        given.push(ValidatorActionId {
            name,
            descendants: descendants.clone()?,
            kind: copy_of_action_kind(&kind)?,
        })?;
    }
    Ok(())
}

/// Reads the `appliesTo` of an action: its principals, its resources, and perhaps a context. An
/// action without `appliesTo` applies to nothing.
fn application(
    cursor: &mut Cursor<'_>,
    namespace: &[&str],
) -> Result<ValidatorApplySpec, ReadError> {
    if !cursor.takes("appliesTo") {
        return Ok(application_to_nothing(cursor.alloc)?);
    }
    cursor.expect("{")?;
    expect_part(cursor, "principal")?;
    let principal_apply_spec = name_set(cursor, namespace)?;
    cursor.expect(",")?;
    expect_part(cursor, "resource")?;
    let resource_apply_spec = name_set(cursor, namespace)?;
    let mut context = empty_record(cursor.alloc)?;
    if cursor.takes(",") {
        expect_part(cursor, "context")?;
        context = shown_type(cursor)?;
    }
    cursor.expect("}")?;
    Ok(ValidatorApplySpec {
        principal_apply_spec,
        resource_apply_spec,
        context: Rc::new(cursor.alloc, context)?,
    })
}

fn expect_part(cursor: &mut Cursor<'_>, word: &'static str) -> Result<(), ReadError> {
    cursor.expect(word)?;
    cursor.expect(":")
}

/// A kind of name that declarations have: an entity type, or an action.
trait GivenName: Sized + Ord + Drop {
    /// Reads a name. A name without a path is one of the namespace.
    fn read(cursor: &mut Cursor<'_>, namespace: &[&str]) -> Result<Self, ReadError>;
}

impl GivenName for EntityType {
    fn read(cursor: &mut Cursor<'_>, namespace: &[&str]) -> Result<EntityType, ReadError> {
        let name = placed_name(cursor)?.name;
        if name.path.is_empty() {
            return Ok(own_type(cursor.alloc, name.basename.as_str(), namespace)?);
        }
        Ok(EntityType::new(name, None))
    }
}

impl GivenName for EntityUID {
    /// Reads the id of an action: a whole id, a word, or a text.
    fn read(cursor: &mut Cursor<'_>, namespace: &[&str]) -> Result<EntityUID, ReadError> {
        let alloc = cursor.alloc;
        let own = own_type(alloc, "Action", namespace)?;
        if cursor.peek().kind != TokenKind::Word {
            let eid = text(cursor)?;
            return Ok(EntityUID::from_components(alloc, own, eid.as_str(), None)?);
        }
        let PlacedName {
            name,
            place: _place,
            is_of_id,
        } = placed_name(cursor)?;
        if !is_of_id {
            return Ok(EntityUID::from_components(alloc, own, name.basename.as_str(), None)?);
        }
        let eid = text(cursor)?;
        Ok(EntityUID::from_components(alloc, EntityType::new(name, None), eid.as_str(), None)?)
    }
}

fn own_type(alloc: Global, basename: &str, namespace: &[&str]) -> Result<EntityType, AllocError> {
    Ok(EntityType::new(Name::new(alloc, basename, namespace)?, None))
}

/// Reads names, as many as `listing` allows.
fn names<N: GivenName>(
    cursor: &mut Cursor<'_>,
    namespace: &[&str],
    listing: Listing,
) -> Result<Vec<N>, ReadError> {
    let mut names = Vec::new(cursor.alloc);
    for _ in 0..cursor.most_left() {
        if !listing.goes_on(cursor, names.len())? {
            break;
        }
        names.push(N::read(cursor, namespace)?)?;
    }
    Ok(names)
}

/// Reads a name, or any number of them in brackets, as a set.
fn name_set<N: GivenName>(
    cursor: &mut Cursor<'_>,
    namespace: &[&str],
) -> Result<BTreeSet<N>, ReadError> {
    let listing = one_or_in_brackets(cursor);
    let mut set = BTreeSet::new(cursor.alloc);
    for name in names::<N>(cursor, namespace, listing)? {
        set.insert(name)?;
    }
    Ok(set)
}

/// Reads the descendants behind `above`; there are none if it is missing.
fn descendants<N: GivenName>(
    cursor: &mut Cursor<'_>,
    namespace: &[&str],
) -> Result<BTreeSet<N>, ReadError> {
    if cursor.takes("above") {
        name_set(cursor, namespace)
    } else {
        Ok(BTreeSet::new(cursor.alloc))
    }
}
