// Actions: their declarations.
use crate::forms::{FormError, FormFault, Object, check_annotations, items_of, text_of};
use crate::schemas::declared::Declared;
use crate::schemas::meanings::{NamedType, Spaces, name_of, names_in, put_entity_types};
use crate::schemas::types::put_type;
use crate::translations::Translation;
use crate::values::{Key, MAX_DEPTH, Value};
use std::alloc::{AllocError, Global};
use std::rc::RcStr;

/// Writes the declaration of an action.
pub fn put_action(
    out: &mut Translation,
    declared: &Declared<'_>,
    namespace: &RcStr,
    key: &Key,
    body: &Value,
) -> Result<(), FormError> {
    out.put("action ");
    out.put_quoted(key.place, key.name.as_str());
    if let Some(body) = out.noted(Object::of(body))? {
        put_body(out, declared, namespace, body)?;
    }
    out.put(";\n");
    Ok(())
}

/// Writes the parents of an action, and its application.
fn put_body(
    out: &mut Translation,
    declared: &Declared<'_>,
    namespace: &RcStr,
    body: Object<'_>,
) -> Result<(), FormError> {
    out.allow(
        body,
        &["memberOf", "appliesTo", "attributes", "annotations"],
    )?;
    out.noted(check_annotations(body))?;
    out.noted(check_no_attributes(body))?;
    if let Some(parents) = body.given("memberOf") {
        out.put_from(parents.place, " in [");
        for parent in out.noted(items_of(parents))?.unwrap_or(&[]) {
            let written = put_parent(out, parent);
            out.noted(written)?;
        }
        out.put("]");
    }
    let Some(applies_to) = body.given("appliesTo") else {
        return Ok(());
    };
    match out.noted(Object::of(applies_to))? {
        Some(applies_to) => put_application(out, declared, namespace, applies_to),
        None => Ok(()),
    }
}

/// Fails if an action has attributes.
fn check_no_attributes(body: Object<'_>) -> Result<(), FormError> {
    let Some(attributes) = body.given("attributes") else {
        return Ok(());
    };
    if Object::of(attributes)?.entries.is_empty() {
        return Ok(());
    }
    Err(FormError::At(attributes.place.start, FormFault::ActionAttributes))
}

/// Writes a parent of an action. If the parent has a fault, the call fails and writes nothing.
fn put_parent(out: &mut Translation, parent: &Value) -> Result<(), FormError> {
    let parent = Object::of(parent)?;
    out.allow(parent, &["id", "type"])?;
    let id = parent.need("id")?;
    let eid = text_of(id)?;
    if let Some(own_type) = parent.given("type") {
        let name = name_of(own_type)?;
        out.put_from(own_type.place, name);
        out.put("::");
    }
    out.put_quoted(id.place, eid);
    out.put(", ");
    Ok(())
}

/// Writes the application of an action: nothing, if no principal type or no resource type without a
/// fault is left.
fn put_application(
    out: &mut Translation,
    declared: &Declared<'_>,
    namespace: &RcStr,
    body: Object<'_>,
) -> Result<(), FormError> {
    out.allow(body, &["principalTypes", "resourceTypes", "context"])?;
    let principals = names_at(declared.alloc, out, body, "principalTypes")?;
    let resources = names_at(declared.alloc, out, body, "resourceTypes")?;
    if principals.is_empty() || resources.is_empty() {
        return Ok(());
    }
    out.put_from(body.place, " appliesTo { principal: ");
    put_entity_types(out, &principals)?;
    out.put_from(body.place, ", resource: ");
    put_entity_types(out, &resources)?;
    if let Some(context) = body.get("context") {
        put_context(out, declared, namespace, context)?;
    }
    out.put_from(body.place, " }");
    Ok(())
}

/// Returns the names in the list at this key. A fault is noted, also the fault of a missing key.
fn names_at<'a>(
    alloc: Global,
    out: &mut Translation,
    body: Object<'a>,
    key: &'static str,
) -> Result<Vec<NamedType<'a>>, AllocError> {
    match out.noted(body.need(key))? {
        Some(list) => names_in(alloc, out, list),
        None => Ok(Vec::new(alloc)),
    }
}

/// Writes the type of a context.
fn put_context(
    out: &mut Translation,
    declared: &Declared<'_>,
    namespace: &RcStr,
    context: &Value,
) -> Result<(), FormError> {
    let spaces = Spaces::of(namespace)?;
    out.put_from(context.place, ", context: ");
    put_type(out, declared, &spaces, context, MAX_DEPTH)
}
