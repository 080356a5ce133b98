// Hints against calls of undefined functions.
use crate::parts::{arguments_at, text_at};
use crate::similar::Search;
use cedar_extensions::checks::{CONSTRUCTORS, Constructor};
use cedar_extensions::functions::{is_constructor, is_method};
use cedar_extensions::methods::METHODS as EXTENSION_METHODS;
use cedar_types::base::{Expr, ExprKind, Literal, Loc, Name, Template, UndefinedFunction};
use std::alloc::{AllocError, Global};

/// The methods of the language itself.
const METHODS: [&str; 6] = [
    "contains",
    "containsAll",
    "containsAny",
    "isEmpty",
    "hasTag",
    "getTag",
];

/// The hint that lists all functions and methods.
const ALL: &str = "there are `contains`, `containsAll`, `containsAny`, `isEmpty`, `hasTag`, \
     `getTag`, and the functions of the extensions";

/// The hint against a call of an undefined function that validation found.
pub fn hint_for_function(
    alloc: Global,
    policy: &Template,
    text: &str,
    found: &UndefinedFunction,
) -> Result<String, AllocError> {
    let arguments = arguments_at(alloc, policy, found.source_loc)?.unwrap_or(&[]);
    hint_for_call(alloc, text, &found.name, arguments)
}

/// The hint against a call of an undefined function, by its name and its arguments: that functions have no path, that the name
/// is one of a method, the nearest function or method, or a list of all.
pub fn hint_for_call(
    alloc: Global,
    text: &str,
    name: &Name,
    arguments: &[Expr],
) -> Result<String, AllocError> {
    let has_path = !name.path.is_empty();
    let name = name.basename.as_str();
    if has_path && (is_constructor(name) || is_method(name)) {
        return format!(in alloc; "`{name}` stands without a path");
    }
    if METHODS.contains(&name) {
        return hint_for_method(alloc, text, name, arguments);
    }
    if let Some(hint) = hint_for_text(alloc, text, name, arguments)? {
        return Ok(hint);
    }
    if let "size" | "length" | "len" | "count" = name {
        return String::from_str(
            alloc,
            "there are no sizes; `.isEmpty()` asks whether a set has no elements",
        );
    }
    match nearest_name(alloc, name)? {
        Some(nearest) => format!(in alloc; "did you mean `{nearest}`?"),
        None => String::from_str(alloc, ALL),
    }
}

/// The way to call a method on these arguments.
fn hint_for_method(
    alloc: Global,
    text: &str,
    name: &str,
    arguments: &[Expr],
) -> Result<String, AllocError> {
    let mut shown = arguments.iter().map(|argument| text_at(text, argument.loc));
    let (base, argument) = (shown.next().flatten(), shown.next().flatten());
    match (base, argument) {
        (Some(base), Some(argument)) if name != "isEmpty" => {
            format!(in alloc; "it is a method: `{base}.{name}({argument})`")
        }
        (Some(base), _) if name == "isEmpty" => {
            format!(in alloc; "it is a method: `{base}.isEmpty()`")
        }
        _ if name == "isEmpty" => String::from_str(alloc, "it is a method, as in `a.isEmpty()`"),
        _ => format!(in alloc; "it is a method, as in `a.{name}(b)`"),
    }
}

/// The hint against the call at a place, whose function cannot read its text: the zone of a time may be missing.
pub fn hint_for_unread(
    alloc: Global,
    policy: &Template,
    place: Option<Loc>,
) -> Result<String, AllocError> {
    let [argument] = arguments_at(alloc, policy, place)?.unwrap_or(&[]) else {
        return Ok(String::new(alloc));
    };
    let ExprKind::Lit(Literal::String(literal)) = &argument.kind else {
        return Ok(String::new(alloc));
    };
    let in_utc = format!(in alloc; "{literal}Z")?;
    if !Constructor::Datetime.reads(in_utc.as_str()) {
        return Ok(String::new(alloc));
    }
    format!(in alloc; "a time of the day has its zone behind it: `datetime(\"{in_utc}\")`")
}

/// The way to look into a text that a function of this name gives in other languages.
fn hint_for_text(
    alloc: Global,
    text: &str,
    name: &str,
    arguments: &[Expr],
) -> Result<Option<String>, AllocError> {
    let (front, back) = match name {
        "startsWith" | "starts_with" | "hasPrefix" => ("", "*"),
        "endsWith" | "ends_with" | "hasSuffix" => ("*", ""),
        _ => return Ok(None),
    };
    let [base, part] = arguments else {
        return Ok(None);
    };
    let ExprKind::Lit(Literal::String(literal)) = &part.kind else {
        return Ok(None);
    };
    let base = text_at(text, base.loc).unwrap_or("a");
    let literal = if is_plain(literal.as_str()) {
        literal.as_str()
    } else {
        "b"
    };
    let hint = format!(in alloc;
        "`like` looks into a text: `{base} like \"{front}{literal}{back}\"`"
    )?;
    Ok(Some(hint))
}

/// Whether a text stands in a pattern as it is.
pub fn is_plain(text: &str) -> bool {
    !text.contains('"') && !text.contains('\\') && !text.contains('*')
}

/// The nearest name of a function or a method.
fn nearest_name(alloc: Global, unknown: &str) -> Result<Option<&'static str>, AllocError> {
    let mut search = Search::new(alloc, unknown)?;
    let mut nearest = None;
    for name in &METHODS {
        if search.is_nearer(name, false)? {
            nearest = Some(*name);
        }
    }
    for constructor in &CONSTRUCTORS {
        if search.is_nearer(constructor.name(), false)? {
            nearest = Some(constructor.name());
        }
    }
    for method in &EXTENSION_METHODS {
        if search.is_nearer(method.name, false)? {
            nearest = Some(method.name);
        }
    }
    Ok(nearest)
}
