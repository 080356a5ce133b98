// Declarations of schemas, as an outline shows them.
use crate::editor_tests::judged::text_at;
use cedar_editor::outlines::{DeclaredKind, find_declared, outline};
use cedar_editor::symbols::{SymbolKind, schema_symbols};
use std::alloc::{AllocError, Global};
use std::test::Fail;

/// A schema with each kind of declaration.
const SHOP: &str = r#"namespace Shop {
  @doc("action not_this;") // entity Nor_this;
  entity User, Guest in [Group] = { name: String } tags Long;
  entity Group enum ["entity", "b"];
  type Meta = { "type": Long, at?: Set<{ action: Long }> };
  action view, "edit it" in [any] appliesTo { principal: User, resource: [Group], context: Meta };
}
action any;
entity Last;
"#;

/// The lines on the declarations of the shop.
const LINES: &str = r#"EntityType Shop::User `User` in `entity` with `{ name: String } tags Long;`
EntityType Shop::Guest `Guest` in `entity` with `{ name: String } tags Long;`
EntityType Shop::Group `Group` in `entity`
CommonType Shop::Meta `Meta` in `type` with ` { "type": Long, at?: Set<{ action: Long }> };`
Action Shop::Action::"view" `view` in `action` with ` Meta };`
Action Shop::Action::"edit it" `"edit it"` in `action` with ` Meta };`
Action Action::"any" `any` in `action`
EntityType Last `Last` in `entity`
"#;

/// The declarations of a schema, a line for each: its kind, its name, the text of the name, the first word of the whole, and
/// the rest of the whole from the type of its attributes on.
fn lines_of(alloc: Global, text: &str) -> Result<String, AllocError> {
    let mut lines = String::new(alloc);
    for it in outline(alloc, text)? {
        let (kind, name, own) = (it.kind, it.name.as_str(), text_at(text, it.place));
        let whole = text_at(text, it.whole);
        let word = whole.split(' ').next().unwrap_or("");
        write!(lines, "{kind:?} {name} `{own}` in `{word}`")?;
        if let Some(body) = it.body {
            let rest = text.get(body..it.whole.end).unwrap_or("no text");
            write!(lines, " with `{rest}`")?;
        }
        lines.push_str("\n")?;
    }
    Ok(lines)
}

/// Names, and whether the shop declares them.
const NAMES: [(DeclaredKind, &str, bool); 7] = [
    (DeclaredKind::EntityType, "Shop::User", true),
    (DeclaredKind::EntityType, "User", false),
    (DeclaredKind::Action, "Shop::User", false),
    (DeclaredKind::Action, r#"Shop::Action::"edit it""#, true),
    (DeclaredKind::Action, r#"Action::"any""#, true),
    (DeclaredKind::CommonType, "Shop::Meta", true),
    (DeclaredKind::EntityType, "Nor_this", false),
];

/// Schemas with a fault, and the names that they declare all the same.
const FAULTY: [(&str, &str); 13] = [
    ("entity ; entity B;", "B"),
    ("} entity A { x: ? }; entity B;", "A B"),
    ("entity A { x: \"; entity B;", "A"),
    ("permit(principal); entity A; entity B", "A B"),
    ("namespace N { entity A; type ; } entity B;", "N::A B"),
    // a brace that is not closed
    ("entity A { x: ;\nentity B;", "A B"),
    ("entity A { x: \nentity B;", "A B"),
    // an end that is missing
    ("entity A { x: Long }\nentity B;", "A B"),
    ("entity A, B\nentity C;", "A B C"),
    ("namespace N { entity A }\nentity B;", "N::A B"),
    (
        "action a appliesTo { principal: \ntype T = Long;",
        "Action::\"a\" T",
    ),
    // a word for a declaration is no declaration without a name
    (
        "entity A { entity: Long, \"type\": Long, action?: Long };\nentity B in [type];",
        "A B",
    ),
    ("entity A in type tags Long; entity B;", "A B"),
];

#[test]
fn declarations(rt: HostRuntime) -> Result<(), Fail> {
    let alloc = rt.alloc();
    let lines = lines_of(alloc, SHOP)?;
    assert_eq!(rt; lines.as_str(), LINES);
    let declared = outline(alloc, SHOP)?;
    for (kind, name, is_there) in &NAMES {
        let found = find_declared(declared.as_slice(), *kind, name);
        assert_eq!(rt; found.is_some(), *is_there, "{name}");
    }
    let symbols = schema_symbols(alloc, declared.as_slice())?;
    assert_eq!(rt; symbols.len(), declared.len());
    for (number, symbol) in symbols.iter().enumerate() {
        let it = declared.get(number).ok_or("a declaration")?;
        assert_eq!(rt; symbol.name.as_str(), it.name.as_str());
        assert_eq!(rt; symbol.kind, SymbolKind::Declared(it.kind));
        assert_eq!(rt; symbol.whole, it.whole);
        assert_eq!(rt; symbol.own, it.place);
    }
    // a fault elsewhere hides no declaration
    for (text, wanted) in &FAULTY {
        let mut names = String::new(alloc);
        for it in outline(alloc, text)? {
            names.push_str(if names.is_empty() { "" } else { " " })?;
            names.push_str(it.name.as_str())?;
        }
        assert_eq!(rt; names.as_str(), *wanted, "{text}");
    }
    Ok(())
}
