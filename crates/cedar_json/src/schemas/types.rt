// Types. Each call goes one step deeper into the value, up to `MAX_DEPTH`. The writer notes the
// faults of a type, and writes a record without attributes in its place, because such a record may
// stand anywhere.
use crate::forms::{FormError, FormFault, Object, check_annotations, expected, text_of, truth_of};
use crate::names::{is_extension_type, is_name, path_of};
use crate::schemas::declared::Declared;
use crate::schemas::meanings::{Meaning, NameOf, Spaces, meaning_of, put_type_name};
use crate::translations::Translation;
use crate::values::{Key, Value};
use cedar_types::base::Loc;
use std::rc::RcStr;

/// Writes a type.
#[cycle(types)]
pub fn put_type(
    out: &mut Translation,
    declared: &Declared<'_>,
    spaces: &Spaces,
    value: &Value,
    left: usize,
) -> Result<(), FormError> {
    let Some(left) = left.checked_sub(1) else {
        return Err(FormError::At(value.place.start, FormFault::TooDeep));
    };
    let Some(TypeParts { object, named }) = out.noted(TypeParts::of(value))? else {
        return put_unsure(out, value.place);
    };
    out.noted(check_annotations(object))?;
    match text_of(named)? {
        "Record" => return put_record(out, declared, spaces, object, left),
        "Set" => {}
        _ => return put_plain_type(out, declared, spaces, object, named),
    }
    out.allow(object, &["type", "element", "annotations", "required"])?;
    let Some(element) = out.noted(object.need("element"))? else {
        return put_unsure(out, value.place);
    };
    out.put_from(named.place, "Set<");
    put_type(out, declared, spaces, element, left)?;
    out.put(">");
    Ok(())
}

/// The required parts of a type.
#[derive(Clone, Copy)]
struct TypeParts<'a> {
    object: Object<'a>,
    /// The text that names the kind of the type.
    named: &'a Value,
}

impl<'a> TypeParts<'a> {
    /// Reads the required parts of a type.
    fn of(value: &'a Value) -> Result<TypeParts<'a>, FormError> {
        let object = Object::of(value)?;
        let named = object.need("type")?;
        text_of(named)?;
        Ok(TypeParts { object, named })
    }
}

/// Writes a record without attributes.
fn put_unsure(out: &mut Translation, place: Loc) -> Result<(), FormError> {
    out.put_from(place, "{}");
    Ok(())
}

/// The keys of a record.
const KEYS_OF_RECORD: [&str; 5] = [
    "type",
    "attributes",
    "additionalAttributes",
    "annotations",
    "required",
];

/// Writes a record: its attributes in braces.
#[cycle(types)]
pub fn put_record(
    out: &mut Translation,
    declared: &Declared<'_>,
    spaces: &Spaces,
    object: Object<'_>,
    left: usize,
) -> Result<(), FormError> {
    let Some(left) = left.checked_sub(1) else {
        return Err(FormError::At(object.place.start, FormFault::TooDeep));
    };
    out.allow(object, &KEYS_OF_RECORD)?;
    out.noted(check_closed(object))?;
    out.put_from(object.place, "{");
    for (key, value) in out.entries_at(object, "attributes")? {
        put_key(out, key, value)?;
        put_type(out, declared, spaces, value, left)?;
        out.put(", ");
    }
    out.put_from(object.place, "}");
    Ok(())
}

/// Fails if a record may have further attributes.
fn check_closed(object: Object<'_>) -> Result<(), FormError> {
    match object.get("additionalAttributes") {
        Some(value) if truth_of(value)? => {
            Err(FormError::At(value.place.start, FormFault::OpenRecord))
        }
        _ => Ok(()),
    }
}

/// Writes the key of an attribute, and a `?` if it is not required.
fn put_key(out: &mut Translation, key: &Key, value: &Value) -> Result<(), FormError> {
    out.put_quoted(key.place, key.name.as_str());
    let is_required = out.noted(is_required(value))?.unwrap_or(true);
    out.put(if is_required { ": " } else { "?: " });
    Ok(())
}

/// Returns whether an attribute of this type is required.
fn is_required(value: &Value) -> Result<bool, FormError> {
    match Object::of(value)?.get("required") {
        Some(required) => truth_of(required),
        None => Ok(true),
    }
}

/// Writes a type without parts.
fn put_plain_type(
    out: &mut Translation,
    declared: &Declared<'_>,
    spaces: &Spaces,
    object: Object<'_>,
    named: &Value,
) -> Result<(), FormError> {
    let written = put_name_of_type(out, declared, spaces, object, named);
    match out.noted(written)? {
        Some(()) => Ok(()),
        None => put_unsure(out, object.place),
    }
}

/// Writes the name of a type without parts. If it has a fault, the call fails and writes nothing.
fn put_name_of_type(
    out: &mut Translation,
    declared: &Declared<'_>,
    spaces: &Spaces,
    object: Object<'_>,
    named: &Value,
) -> Result<(), FormError> {
    let kind = text_of(named)?;
    if matches!(kind, "Entity" | "EntityOrCommon" | "Extension") {
        out.allow(object, &["type", "name", "annotations", "required"])?;
    } else {
        out.allow(object, &["type", "annotations", "required"])?;
    }
    match kind {
        "Long" => {
            out.put_from(named.place, "__cedar::Long");
            Ok(())
        }
        "String" => {
            out.put_from(named.place, "__cedar::String");
            Ok(())
        }
        "Boolean" | "Bool" => {
            out.put_from(named.place, "__cedar::Bool");
            Ok(())
        }
        "Extension" => put_extension(out, object.need("name")?),
        "Entity" => {
            put_type_name(
                out,
                declared,
                spaces,
                object.need("name")?,
                NameOf::EntityType,
            )
        }
        "EntityOrCommon" => {
            put_type_name(out, declared, spaces, object.need("name")?, NameOf::Either)
        }
        _ => put_common_type_name(out, declared, spaces, named),
    }
}

/// Writes the name of a common type; if no common type has it, that of an extension type.
fn put_common_type_name(
    out: &mut Translation,
    declared: &Declared<'_>,
    spaces: &Spaces,
    named: &Value,
) -> Result<(), FormError> {
    let name = text_of(named)?;
    if is_extension_type(name) {
        let space = spaces.declared.as_str();
        let meant = meaning_of(declared, space, name, NameOf::CommonType)?;
        if meant == Meaning::Nothing {
            return put_extension(out, named);
        }
    }
    put_type_name(out, declared, spaces, named, NameOf::CommonType)
}

/// Writes the extension type of a name that is not a primitive type.
fn put_extension(out: &mut Translation, named: &Value) -> Result<(), FormError> {
    let name = text_of(named)?;
    if !is_name(name) {
        return Err(FormError::At(named.place.start, FormFault::Name));
    }
    if matches!(name, "Long" | "String" | "Bool") {
        return Err(FormError::At(named.place.start, FormFault::Undeclared));
    }
    out.put_from(named.place, "__cedar::");
    out.put(name);
    Ok(())
}

/// Writes the attributes of an entity type, which have to be a record. A common type that is a
/// record is written out, because Cedar's syntax allows no name there.
pub fn put_shape(
    out: &mut Translation,
    declared: &Declared<'_>,
    namespace: &RcStr,
    shape: &Value,
    left: usize,
) -> Result<(), FormError> {
    let Some((record, declared_in)) = out.noted(record_of(declared, namespace, shape))? else {
        return put_unsure(out, shape.place);
    };
    let spaces = Spaces {
        written: namespace.clone()?,
        declared: declared_in,
    };
    put_record(out, declared, &spaces, record, left)
}

/// Returns the record of a shape, and the namespace in which it was declared.
fn record_of<'r>(
    declared: &'r Declared<'_>,
    namespace: &RcStr,
    shape: &'r Value,
) -> Result<(Object<'r>, RcStr), FormError> {
    let mut space = namespace.clone()?;
    let mut current = shape;
    for _ in 0..declared.common_types.len().saturating_add(1) {
        let object = Object::of(current)?;
        check_annotations(object)?;
        let named = object.need("type")?;
        if text_of(named)? == "Record" {
            return Ok((object, space));
        }
        let whole = common_type(declared, space.as_str(), object, named)?;
        space = RcStr::from_str(declared.alloc, path_of(whole.as_str()))?;
        current = match declared.common_types.get(&whole) {
            Some(body) => *body,
            None => return Err(expected(named, "a record")),
        };
    }
    Err(FormError::At(shape.place.start, FormFault::Circular))
}

/// Returns the whole name of the common type that stands for a shape.
fn common_type(
    declared: &Declared<'_>,
    namespace: &str,
    object: Object<'_>,
    named: &Value,
) -> Result<String, FormError> {
    let (name, of) = match text_of(named)? {
        "EntityOrCommon" => (object.need("name")?, NameOf::Either),
        "Entity" | "Set" | "Extension" | "Long" | "String" | "Boolean" | "Bool" => {
            return Err(expected(named, "a record"));
        }
        _ => (named, NameOf::CommonType),
    };
    let word = text_of(name)?;
    match meaning_of(declared, namespace, word, of)? {
        Meaning::CommonType(whole) => Ok(whole),
        Meaning::EntityType(_) => Err(expected(name, "a record")),
        Meaning::Nothing if is_extension_type(word) => Err(expected(name, "a record")),
        Meaning::Nothing => Err(FormError::At(name.place.start, FormFault::Undeclared)),
    }
}
