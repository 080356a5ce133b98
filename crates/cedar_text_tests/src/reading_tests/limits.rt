// Limits of schemas: the largest that are read, and the places at which larger ones are refused.
use cedar_reading::{Position, ReadError, schema_declarations, token_text};
use std::alloc::{AllocError, Global};
use std::test::Fail;

/// `read`, or the place and the words of a schema's fault.
fn answer(alloc: Global, text: &str) -> Result<String, AllocError> {
    match schema_declarations(alloc, text) {
        Ok(_) => String::from_str(alloc, "read"),
        Err(ReadError::Memory(error)) => Err(error),
        Err(ReadError::At(at, fault)) => {
            let place = Position::in_text(text, at);
            let token = token_text(text, at);
            format!(in alloc; "{}:{} `{token}`: {fault}", place.line, place.column)
        }
    }
}

/// Adds `count` names of a letter and a number, with a text between them and one behind the last.
fn push_names(
    text: &mut String,
    letter: char,
    count: usize,
    between: &str,
    behind: &str,
) -> Result<(), AllocError> {
    for number in 0..count {
        if number > 0 {
            text.push_str(between)?;
        }
        write!(text, "{letter}{number}")?;
    }
    text.push_str(behind)
}

/// A namespace whose name has so many parts.
fn long_namespace(alloc: Global, parts: usize) -> Result<String, AllocError> {
    let mut text = String::from_str(alloc, "namespace ")?;
    push_names(&mut text, 'A', parts, "::", " { entity E; }")?;
    Ok(text)
}

/// Two actions, each by 256 principal types and so many resource types.
fn environments(alloc: Global, resources: usize) -> Result<String, AllocError> {
    let mut text = String::from_str(alloc, "action a, b appliesTo { principal: [")?;
    push_names(&mut text, 'P', 256, ", ", "], resource: [")?;
    push_names(&mut text, 'R', resources, ", ", "] };")?;
    Ok(text)
}

/// A chain of so many types, of which each is in the one before.
fn chain(alloc: Global, types: usize) -> Result<String, AllocError> {
    let mut text = String::from_str(alloc, "entity T0;\n")?;
    for before in 0..types.saturating_sub(1) {
        let own = before.saturating_add(1);
        write!(text, "entity T{own} in T{before};\n")?;
    }
    Ok(text)
}

/// So many types, each in as many others.
fn parents(alloc: Global, count: usize) -> Result<String, AllocError> {
    let mut text = String::from_str(alloc, "entity ")?;
    push_names(&mut text, 'A', count, ", ", " in [")?;
    push_names(&mut text, 'B', count, ", ", "];\nentity ")?;
    push_names(&mut text, 'B', count, ", ", ";\n")?;
    Ok(text)
}

/// 1,025 types with so many attributes in one declaration.
fn repeated(alloc: Global, attributes: usize) -> Result<String, AllocError> {
    let mut text = String::from_str(alloc, "entity ")?;
    push_names(&mut text, 'E', 1025, ", ", " { ")?;
    push_names(&mut text, 'a', attributes, ": Long, ", ": Long };")?;
    Ok(text)
}

/// What a schema has many of.
#[derive(Clone, Copy, Debug)]
enum Many {
    NamespaceParts,
    ResourceTypes,
    TypesInAChain,
    Parents,
    Attributes,
}

fn schema_of(alloc: Global, many: Many, size: usize) -> Result<String, AllocError> {
    match many {
        Many::NamespaceParts => long_namespace(alloc, size),
        Many::ResourceTypes => environments(alloc, size),
        Many::TypesInAChain => chain(alloc, size),
        Many::Parents => parents(alloc, size),
        Many::Attributes => repeated(alloc, size),
    }
}

/// Sizes of schemas, and what comes of them. n types in a chain have n (n - 1) / 2 descendants:
/// 512 have 130,816, and 513 have 131,328; the first of them has the most. 363 types in 363 others
/// have 131,769 parents. k attributes are 4 k + 2 words with their braces, commas and the `;`
/// behind them, and 1,024 further names repeat them: 255 make 1,046,528 words, and 256 make
/// 1,050,624. Ten of the first 64 parts of a name have two letters, and the others three.
const LIMITS: [(Many, usize, &str); 9] = [
    (Many::NamespaceParts, 64, "read"),
    (
        Many::NamespaceParts,
        65,
        "1:321 `A64`: a namespace of more than 64 parts",
    ),
    (Many::ResourceTypes, 256, "read"),
    (
        Many::ResourceTypes,
        257,
        "1:8 `a`: actions that apply to more than 131,072 pairs of principal and resource types",
    ),
    (Many::TypesInAChain, 512, "read"),
    (
        Many::TypesInAChain,
        513,
        "1:8 `T0`: more than 131,072 descendants of entity types, or of actions, together",
    ),
    (
        Many::Parents,
        363,
        "1:8 `A0`: more than 131,072 descendants of entity types, or of actions, together",
    ),
    (Many::Attributes, 255, "read"),
    (
        Many::Attributes,
        256,
        "1:8 `E0`: declarations of several names that repeat more than a million words",
    ),
];

#[test]
fn schemas_at_a_limit(rt: HostRuntime) -> Result<(), Fail> {
    let alloc = rt.alloc();
    for (many, size, want) in &LIMITS {
        let text = schema_of(alloc, *many, *size)?;
        let got = answer(alloc, text.as_str())?;
        assert_eq!(rt; got.as_str(), *want, "{size} {many:?}");
    }
    Ok(())
}
