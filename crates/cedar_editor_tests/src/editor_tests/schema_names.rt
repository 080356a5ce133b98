// Names inside of schemas, and the declarations that they mean.
use crate::editor_tests::judged::{Check, text_at, unmarked};
use cedar_editor::schema_names::{declaration_at, schema_hover_at};
use cedar_editor::schemas::{SchemaDocument, SchemaSource};
use cedar_findings::syntaxes::Syntax;
use cedar_types::base::ExtensionSchemas;
use std::test::Fail;

const FIRST: &str = r#"entity Outside;
namespace Shop {
  entity Group, Other;
  type Seen = { hour: Long, Group: Bool };
  @doc("Group")
  entity User in [Group] { boss: User, seen?: Set<Seen>, out: Outside, far: Far::Thing };
  action all;
  action "view it" in [all] appliesTo { principal: [User], resource: Group, context: Seen };
  action edit in ["view it", Shop::Action::"all"];
}
"#;

const SECOND: &str = "namespace Far { entity Thing; }\n";

/// Parts of the first text with the mark `^`, and the name, the number of the text, and the declaration that the name means.
const NAMES: [(&str, &str, usize, &str); 13] = [
    ("entity Group, Ot^her", "Other", 0, "entity Group, Other;"),
    ("in [^Group]", "Group", 0, "entity Group, Other;"),
    (
        "Set<Se^en>",
        "Seen",
        0,
        "type Seen = { hour: Long, Group: Bool };",
    ),
    ("context: Seen^ }", "", 0, ""),
    ("out: ^Outside", "Outside", 0, "entity Outside;"),
    ("far: F^ar::Thing", "Far::Thing", 1, "entity Thing;"),
    ("in [a^ll]", "all", 0, "action all;"),
    (
        "in [\"vi^ew it\"",
        "\"view it\"",
        0,
        "action \"view it\" in [all] appliesTo { principal: [User], resource: Group, context: Seen };",
    ),
    (
        "Shop::Action::\"^all\"",
        "Shop::Action::\"all\"",
        0,
        "action all;",
    ),
    ("resource: G^roup", "Group", 0, "entity Group, Other;"),
    // a key of a record, a word of the language, and a type of the language
    ("G^roup: Bool", "", 0, ""),
    ("appl^iesTo", "", 0, ""),
    ("hour: L^ong", "", 0, ""),
];

#[test]
fn names_of_schemas(rt: HostRuntime) -> Result<(), Fail> {
    let alloc = rt.alloc();
    let extensions: ExtensionSchemas<Check> = ExtensionSchemas::default(alloc);
    let sources = [
        SchemaSource {
            syntax: Syntax::Cedar,
            text: FIRST,
        },
        SchemaSource {
            syntax: Syntax::Cedar,
            text: SECOND,
        },
    ];
    let schema = SchemaDocument::of_texts(alloc, &extensions, &sources)?;
    assert!(rt; !schema.has_fault());
    for (marked, name, number, wanted) in &NAMES {
        let (part, at) = unmarked(alloc, marked)?;
        let start = FIRST.find(part.as_str()).ok_or("a part")?;
        let byte = start.saturating_add(at);
        let found = declaration_at(alloc, schema.texts(), 0, byte)?;
        let hover = schema_hover_at(alloc, schema.texts(), 0, byte)?;
        let Some(found) = found else {
            assert_eq!(rt; "", *wanted, "{marked}");
            assert!(rt; hover.is_none(), "{marked}");
            continue;
        };
        assert_eq!(rt; text_at(FIRST, found.place), *name, "{marked}");
        assert_eq!(rt; found.number, *number, "{marked}");
        let text = sources[found.number].text;
        assert_eq!(rt; text_at(text, found.declared.whole), *wanted, "{marked}");
        let hover = hover.ok_or("a hover")?;
        let shown = format!(in alloc; "```cedar\n{wanted}\n```\n")?;
        assert_eq!(rt; hover.text.as_str(), shown.as_str(), "{marked}");
        assert_eq!(rt; text_at(FIRST, hover.place), *name, "{marked}");
    }
    Ok(())
}
