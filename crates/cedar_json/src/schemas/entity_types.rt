// Entity types: their declarations.
use crate::forms::{FormError, Object, check_annotations, items_of, text_of};
use crate::schemas::declared::Declared;
use crate::schemas::meanings::{Spaces, names_in, put_entity_types};
use crate::schemas::types::{put_shape, put_type};
use crate::translations::Translation;
use crate::values::{Key, MAX_DEPTH, Value};
use std::rc::RcStr;

/// Writes the declaration of an entity type.
pub fn put_entity_type(
    out: &mut Translation,
    declared: &Declared<'_>,
    namespace: &RcStr,
    key: &Key,
    body: &Value,
) -> Result<(), FormError> {
    out.put("entity ");
    out.put_from(key.place, key.name.as_str());
    if let Some(body) = out.noted(Object::of(body))? {
        out.noted(check_annotations(body))?;
        match body.get("enum") {
            Some(ids) => {
                out.allow(body, &["enum", "annotations"])?;
                put_ids(out, ids)?;
            }
            None => put_standard(out, declared, namespace, body)?,
        }
    }
    out.put(";\n");
    Ok(())
}

/// Writes the ids of an enumerated type. An item that is no text becomes the empty text.
fn put_ids(out: &mut Translation, ids: &Value) -> Result<(), FormError> {
    let Some(items) = out.noted(items_of(ids))? else {
        return Ok(());
    };
    out.put_from(ids.place, " enum [");
    for id in items {
        let text = out.noted(text_of(id))?.unwrap_or("");
        out.put_quoted(id.place, text);
        out.put(", ");
    }
    out.put("]");
    Ok(())
}

/// Writes the parents, the attributes and the tags of a type, each of which may be missing.
fn put_standard(
    out: &mut Translation,
    declared: &Declared<'_>,
    namespace: &RcStr,
    body: Object<'_>,
) -> Result<(), FormError> {
    out.allow(body, &["memberOfTypes", "shape", "tags", "annotations"])?;
    if let Some(parents) = body.get("memberOfTypes") {
        let names = names_in(declared.alloc, out, parents)?;
        out.put_from(parents.place, " in ");
        put_entity_types(out, &names)?;
    }
    if let Some(shape) = body.get("shape") {
        out.put_from(shape.place, " = ");
        put_shape(out, declared, namespace, shape, MAX_DEPTH)?;
    }
    if let Some(tags) = body.given("tags") {
        out.put_from(tags.place, " tags ");
        let spaces = Spaces::of(namespace)?;
        put_type(out, declared, &spaces, tags, MAX_DEPTH)?;
    }
    Ok(())
}
