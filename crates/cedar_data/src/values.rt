// Values of JSON, read as values of Cedar. The schema's type of a value decides between its forms:
// without a type, an object is a record, unless its key is `__entity` or `__extn`.
use crate::collected::{Collected, ExtensionText};
use crate::times::offset;
use cedar_conformance::values::{Record, Value};
use cedar_extensions::checks::Constructor;
use cedar_json::{FormError, FormFault, Key, Object, ValueKind, entity_uid, expected, text_of};
use cedar_types::base::{AttributeType, Attributes, CedarType, Name};
use std::alloc::AllocError;
use std::collections::BTreeMap;
use std::rc::RcStr;

/// The expected function names, for the fault of any other name.
const CONSTRUCTOR: &str = "`ip`, `decimal`, `datetime` or `duration`";

/// The function by which Cedar writes each `datetime`: a point in time, and a duration behind it.
const OFFSET: &str = "offset";

/// Reads a value, which has this type by the schema.
#[cycle(read_values)]
pub(crate) fn read_value(
    value: &cedar_json::Value,
    collected: &mut Collected<'_>,
    ty: Option<&CedarType>,
) -> Result<Value, FormError> {
    match &value.kind {
        ValueKind::Boolean(truth) => Ok(Value::Bool(*truth)),
        ValueKind::Integer(number) => Ok(Value::Long(*number)),
        ValueKind::Null => Err(expected(value, "a value")),
        ValueKind::Text(text) => text_or_extension(collected, value, text, ty),
        ValueKind::Array(items) => read_set(items, collected, element_type(ty)),
        ValueKind::Object(entries) => match object_form(value, ty)? {
            ObjectForm::Entity => read_entity(collected, value),
            ObjectForm::Call(call) => read_call(collected, call),
            ObjectForm::Record => read_fields(entries, collected, attributes_in(ty)),
        },
    }
}

/// Reads the members of a set.
#[cycle(read_values)]
fn read_set(
    items: &Vec<cedar_json::Value>,
    collected: &mut Collected<'_>,
    ty: Option<&CedarType>,
) -> Result<Value, FormError> {
    let mut members = Vec::with_capacity(collected.alloc, items.len())?;
    for item in items {
        members.push(read_value(item, collected, ty)?)?;
    }
    Ok(Value::Set(members))
}

/// Reads the entries of a record.
#[cycle(read_values)]
fn read_fields(
    entries: &Vec<(Key, cedar_json::Value)>,
    collected: &mut Collected<'_>,
    attributes: Option<&Attributes>,
) -> Result<Value, FormError> {
    let mut fields = BTreeMap::new(collected.alloc);
    for (key, value) in entries {
        let field = read_value(value, collected, type_of_attribute(attributes, &key.name))?;
        drop(fields.insert(key.name.clone()?, field)?);
    }
    Ok(Value::Record(fields))
}

/// Reads the entries of an object as a record, and lists the entries of another form than expected.
pub(crate) fn read_record(
    collected: &mut Collected<'_>,
    object: Object<'_>,
    types: Types<'_>,
) -> Result<Record, AllocError> {
    let mut fields = BTreeMap::new(collected.alloc);
    for (key, value) in object.entries {
        let read = read_value(value, collected, types.of(&key.name));
        if let Some(field) = collected.keep(read)? {
            drop(fields.insert(key.name.clone()?, field)?);
        }
    }
    Ok(fields)
}

/// The types of the entries of a record, by the schema.
#[derive(Clone, Copy)]
pub(crate) enum Types<'a> {
    /// The types are not known.
    Unknown,
    /// Each entry has its own type.
    Attributes(&'a Attributes),
    /// All entries have one type.
    Tags(&'a CedarType),
}

impl<'a> Types<'a> {
    fn of(self, name: &RcStr) -> Option<&'a CedarType> {
        match self {
            Types::Unknown => None,
            Types::Attributes(attributes) => type_of_attribute(Some(attributes), name),
            Types::Tags(ty) => Some(ty),
        }
    }
}

/// The form of an object.
#[derive(Clone, Copy)]
enum ObjectForm<'a> {
    Entity,
    /// The call of a constructor.
    Call(Object<'a>),
    Record,
}

/// Returns the form of an object that stands in the place of a value of this type.
fn object_form<'a>(
    value: &'a cedar_json::Value,
    ty: Option<&CedarType>,
) -> Result<ObjectForm<'a>, FormError> {
    let object = Object::of(value)?;
    if let Some(inner) = object.get("__expr") {
        return Err(expected(
            inner,
            "a value in place of `__expr`, which Cedar no longer reads",
        ));
    }
    if object.get("__entity").is_some() {
        return Ok(ObjectForm::Entity);
    }
    if let Some(call) = object.get("__extn") {
        object.allow(&["__extn"])?;
        return Ok(ObjectForm::Call(Object::of(call)?));
    }
    let is_id = object.get("type").is_some() || object.get("id").is_some();
    let is_call = object.get("fn").is_some();
    match ty {
        Some(CedarType::Entity(_)) if is_id => Ok(ObjectForm::Entity),
        Some(CedarType::Extension(_)) if is_call => Ok(ObjectForm::Call(object)),
        _ => Ok(ObjectForm::Record),
    }
}

/// Reads the id of an entity.
fn read_entity(
    collected: &mut Collected<'_>,
    value: &cedar_json::Value,
) -> Result<Value, FormError> {
    let id = entity_uid(collected.alloc, value)?;
    collected.check_id(value.place, &id)?;
    Ok(Value::EntityUID(id))
}

/// Reads a call of a constructor of extension values, on a text as `arg`, or as the only item of
/// `args`; or a call of `offset` on two of them.
fn read_call(collected: &mut Collected<'_>, call: Object<'_>) -> Result<Value, FormError> {
    call.allow(&["fn", "arg", "args"])?;
    let function = call.need("fn")?;
    let name = text_of(function)?;
    if name == OFFSET {
        return read_offset(collected, call);
    }
    let Some(constructor) = Constructor::from_name(name) else {
        return Err(expected(function, CONSTRUCTOR));
    };
    let argument = argument_of(call)?;
    extension_of(collected, argument, constructor, text_of(argument)?)
}

/// Reads the call of `offset` on a `datetime` and a `duration`, as the `datetime` that it makes.
fn read_offset(collected: &mut Collected<'_>, call: Object<'_>) -> Result<Value, FormError> {
    call.allow(&["fn", "args"])?;
    let arguments = call.need("args")?;
    let items = match &arguments.kind {
        ValueKind::Array(items) => items.as_slice(),
        _ => return Err(expected(arguments, "a list")),
    };
    let [datetime, duration] = items else {
        return Err(expected(arguments, "a `datetime` and a `duration`"));
    };
    let datetime = argument_for(datetime, Constructor::Datetime, "a `datetime`")?;
    let duration = argument_for(duration, Constructor::Duration, "a `duration`")?;
    let (time, span) = (text_of(datetime)?, text_of(duration)?);
    if let Some(text) = offset(collected.alloc, time, span)? {
        return extension_of(collected, datetime, Constructor::Datetime, text.as_str());
    }
    if Constructor::Datetime.reads(time) && Constructor::Duration.reads(span) {
        return Err(expected(duration, "a time in the years 0 to 9999"));
    }
    // a text that cannot be read is a mistake of its own
    drop(extension_of(collected, duration, Constructor::Duration, span)?);
    extension_of(collected, datetime, Constructor::Datetime, time)
}

/// Returns the argument of a call of this constructor, which stands with `__extn` or without it.
fn argument_for<'a>(
    value: &'a cedar_json::Value,
    constructor: Constructor,
    wanted: &'static str,
) -> Result<&'a cedar_json::Value, FormError> {
    let object = Object::of(value)?;
    let call = match object.get("__extn") {
        Some(call) => {
            object.allow(&["__extn"])?;
            Object::of(call)?
        }
        None => object,
    };
    call.allow(&["fn", "arg", "args"])?;
    let function = call.need("fn")?;
    if text_of(function)? != constructor.name() {
        return Err(expected(function, wanted));
    }
    argument_of(call)
}

/// Returns the value that a constructor makes of a text, and lists the text, which stands at the
/// place of `argument`.
fn extension_of(
    collected: &mut Collected<'_>,
    argument: &cedar_json::Value,
    constructor: Constructor,
    text: &str,
) -> Result<Value, FormError> {
    let text = RcStr::from_str(collected.alloc, text)?;
    collected.texts.push(ExtensionText {
        place: argument.place,
        constructor,
        text: text.clone()?,
    })?;
    let type_name = Name::unqualified_name(collected.alloc, constructor.makes().name())?;
    Ok(Value::Extension { type_name, text })
}

/// Returns the argument of a constructor call.
fn argument_of(call: Object<'_>) -> Result<&cedar_json::Value, FormError> {
    let Some(arguments) = call.get("args") else {
        return call.need("arg");
    };
    match &arguments.kind {
        ValueKind::Array(items) => match items.as_slice() {
            [argument] if call.get("arg").is_none() => Ok(argument),
            _ => Err(expected(arguments, "one argument")),
        },
        _ => Err(expected(arguments, "a list")),
    }
}

/// Returns the value of a text: an extension value if one belongs there, and otherwise the text.
fn text_or_extension(
    collected: &mut Collected<'_>,
    value: &cedar_json::Value,
    text: &RcStr,
    ty: Option<&CedarType>,
) -> Result<Value, FormError> {
    let Some(CedarType::Extension(name)) = ty else {
        return Ok(Value::String(text.clone()?));
    };
    if let Some(constructor) = Constructor::of_type(name) {
        collected.texts.push(ExtensionText {
            place: value.place,
            constructor,
            text: text.clone()?,
        })?;
    }
    let type_name: &Name = name;
    Ok(Value::Extension {
        type_name: type_name.clone()?,
        text: text.clone()?,
    })
}

/// Returns the type of the members of a set of this type, if it is known.
fn element_type(ty: Option<&CedarType>) -> Option<&CedarType> {
    match ty {
        Some(CedarType::Set(element)) => Some(element),
        _ => None,
    }
}

/// Returns the attributes of a record of this type, if they are known.
fn attributes_in(ty: Option<&CedarType>) -> Option<&Attributes> {
    match ty {
        Some(CedarType::Record { attributes, .. }) => Some(attributes),
        _ => None,
    }
}

fn type_of_attribute<'a>(
    attributes: Option<&'a Attributes>,
    name: &RcStr,
) -> Option<&'a CedarType> {
    let found: Option<&AttributeType> = attributes?.get_attr(name);
    Some(&found?.attr_type)
}
