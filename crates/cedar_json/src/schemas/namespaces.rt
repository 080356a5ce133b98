// Namespaces: their declarations.
use crate::forms::{FormError, Object, check_annotations};
use crate::schemas::actions::put_action;
use crate::schemas::declared::Declared;
use crate::schemas::entity_types::put_entity_type;
use crate::schemas::meanings::Spaces;
use crate::schemas::types::put_type;
use crate::translations::Translation;
use crate::values::{Key, MAX_DEPTH, Value};
use std::rc::RcStr;

/// Writes a namespace; that of no name stands outside of namespaces. The caller noted the faults of
/// its declared names.
pub fn put_namespace(
    out: &mut Translation,
    declared: &Declared<'_>,
    key: &Key,
    body: Object<'_>,
) -> Result<(), FormError> {
    out.noted(check_annotations(body))?;
    let name = key.name.as_str();
    if name.is_empty() {
        return put_declarations(out, declared, &key.name, body);
    }
    out.put("namespace ");
    out.put_from(key.place, name);
    out.put(" {\n");
    put_declarations(out, declared, &key.name, body)?;
    out.put("}\n");
    Ok(())
}

/// Writes the declarations of a namespace.
fn put_declarations(
    out: &mut Translation,
    declared: &Declared<'_>,
    namespace: &RcStr,
    body: Object<'_>,
) -> Result<(), FormError> {
    for (key, value) in out.entries_at(body, "commonTypes")? {
        put_common_type(out, declared, namespace, key, value)?;
    }
    for (key, value) in out.entries_at(body, "entityTypes")? {
        put_entity_type(out, declared, namespace, key, value)?;
    }
    for (key, value) in out.entries_at(body, "actions")? {
        put_action(out, declared, namespace, key, value)?;
    }
    Ok(())
}

/// Writes the declaration of a common type.
fn put_common_type(
    out: &mut Translation,
    declared: &Declared<'_>,
    namespace: &RcStr,
    key: &Key,
    value: &Value,
) -> Result<(), FormError> {
    out.put("type ");
    out.put_from(key.place, key.name.as_str());
    out.put(" = ");
    let spaces = Spaces::of(namespace)?;
    put_type(out, declared, &spaces, value, MAX_DEPTH)?;
    out.put(";\n");
    Ok(())
}
