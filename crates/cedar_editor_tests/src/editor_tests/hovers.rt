// Hovers on parts of policies, and the declarations of the parts in the schema. A mark `^` stands before the byte that is asked
// about.
use crate::editor_tests::judged::{Check, OF_USERS, SCHEMA, VIEW, document_by, text_at, unmarked};
use cedar_editor::definitions::definitions_at;
use cedar_editor::documents::PolicyDocument;
use cedar_editor::hovers::hover_at;
use cedar_editor::judges::Judge;
use cedar_editor::lines::Position;
use cedar_editor::schemas::{SchemaDocument, SchemaText};
use cedar_findings::syntaxes::Syntax;
use cedar_types::base::{ExtensionSchemas, Loc};
use std::alloc::{AllocError, Global};
use std::test::Fail;

/// The beginning of a policy and its rest with the mark, the part, and the hover on it; no part if there is no hover.
const HOVERS: [(&str, &str, &str, &str); 16] = [
    (
        VIEW,
        "principal is User && principal.^name == \"a\" };",
        "principal.name",
        "```cedar\nprincipal.name: String\n```\n",
    ),
    (
        VIEW,
        "principal is Robot || principal.n^ame == \"a\" };",
        "principal.name",
        "```cedar\nprincipal.name: String\n```\n",
    ),
    (
        VIEW,
        "if principal is Robot then true else principal.nam^e == \"a\" };",
        "principal.name",
        "```cedar\nprincipal.name: String\n```\n",
    ),
    // several environments, with one type or with several
    (
        OF_USERS,
        "resource.si^ze.w > 1 };",
        "resource.size",
        "```cedar\nresource.size: {h?: Long, w: Long}\n```\n\
         in all 3 environments that the scope admits and that reach it\n",
    ),
    (
        VIEW,
        "^principal.team == resource.owner.team };",
        "principal",
        "```cedar\nprincipal\n```\n\
         - `Robot` for Action::\"view\" by Robot on Photo\n\
         - `User` for Action::\"view\" by User on Photo\n",
    ),
    // an operator is a part of its operands' whole
    (
        VIEW,
        "principal.team ^== resource.owner.team };",
        "principal.team == resource.owner.team",
        "```cedar\nprincipal.team == resource.owner.team: Bool\n```\n\
         in all 2 environments that the scope admits and that reach it\n",
    ),
    // what a guard has made sure
    (
        "permit(principal is User, action == Action::\"edit\", resource) when { ",
        "principal has vip && ^principal.vip };",
        "principal",
        "```cedar\nprincipal: User\n```\n- has `vip` here\n",
    ),
    (
        VIEW,
        "false && principal.^team == resource.owner.team };",
        "principal.team",
        "```cedar\nprincipal.team\n```\nnever evaluated, or without a type, where the scope applies",
    ),
    // the parts before a fault
    (
        OF_USERS,
        "principal.^name == };",
        "principal.name",
        "```cedar\nprincipal.name: String\n```\n\
         in all 3 environments that the scope admits and that reach it\n",
    ),
    // names
    (
        "",
        "permit(principal, action == Action::\"^view\", resource);",
        "Action::\"view\"",
        "```cedar\naction view appliesTo { principal: [Robot, User], resource: Photo, context: Seen };\n```\n",
    ),
    (
        "",
        "permit(principal is ^User, action, resource);",
        "User",
        "```cedar\nentity User { name: String, team: Team, vip?: Bool };\n```\n",
    ),
    (
        VIEW,
        "principal == User::\"a^nn\" };",
        "User::\"ann\"",
        "```cedar\nentity User { name: String, team: Team, vip?: Bool };\n```\n",
    ),
    // nothing is known
    ("", "permit(principal is ^Usr, action, resource);", "", ""),
    ("", "permit(principal, ^action, resource);", "", ""),
    (
        "",
        "permit(principal, action, resource) w^hen { true };",
        "",
        "",
    ),
    ("", "permit(principal, action, resource);\n^\n", "", ""),
];

#[test]
fn hovers(rt: HostRuntime) -> Result<(), Fail> {
    let alloc = rt.alloc();
    let extensions = ExtensionSchemas::default(alloc);
    let schema = SchemaDocument::new(alloc, &extensions, Syntax::Cedar, SCHEMA)?;
    let own = schema.texts().first().ok_or("a text")?;
    for (front, rest, part, wanted) in &HOVERS {
        let marked = format!(in alloc; "// é\n{front}{rest}")?;
        let (text, byte) = unmarked(alloc, marked.as_str())?;
        let document = document_by(alloc, &schema, text.as_str())?;
        let placed = document.policy_at(byte).ok_or("a policy")?;
        let at = byte.saturating_sub(placed.start);
        let settings = document.judge().settings();
        match hover_at(alloc, settings.as_ref(), own, placed.policy(), at)? {
            Some(hover) => {
                let place = placed.place(hover.place);
                assert_eq!(rt; text_at(text.as_str(), place), *part, "{marked}");
                assert_eq!(rt; hover.text.as_str(), *wanted, "{marked}");
            }
            None => assert_eq!(rt; "", *wanted, "{marked}"),
        }
    }
    Ok(())
}

/// The beginning of a policy and its rest with the mark, whether the schema's types are known, and the places in the schema.
const DEFINITIONS: [(&str, &str, bool, &str); 14] = [
    (
        "",
        "permit(principal is ^User, action, resource);",
        false,
        "2:7 `User`\n",
    ),
    (
        "",
        "permit(principal, action == Action::^\"edit\", resource);",
        true,
        "11:7 `edit`\n",
    ),
    (
        "",
        "permit(principal, action, resource in ^Photo::\"a\");",
        true,
        "3:7 `Photo`\n",
    ),
    (
        OF_USERS,
        "principal.n^ame == \"a\" };",
        true,
        "2:14 `name`\n",
    ),
    (OF_USERS, "principal.n^ame == \"a\" };", false, ""),
    (OF_USERS, "principal.v^ip };", true, "2:40 `vip`\n"),
    (
        VIEW,
        "principal.^team == resource.owner.team };",
        true,
        "1:15 `team`\n2:28 `team`\n",
    ),
    (
        VIEW,
        "^principal.team == resource.owner.team };",
        true,
        "1:7 `Robot`\n2:7 `User`\n",
    ),
    // a context of a common type, a record in an entity, and an attribute that is tested
    (
        VIEW,
        "context has device && context.^device == \"a\" };",
        true,
        "9:14 `device`\n",
    ),
    (OF_USERS, "resource.size.^w > 1 };", true, "7:10 `w`\n"),
    (OF_USERS, "resource.size has ^h };", true, "7:19 `h`\n"),
    (
        OF_USERS,
        "resource.owner.team.lead.^name == \"a\" };",
        true,
        "2:14 `name`\n",
    ),
    // nothing is declared
    (OF_USERS, "resource.size.w > ^1 };", true, ""),
    (OF_USERS, "principal.^zzz };", true, ""),
];

/// Places of a schema, each on a line with its position and its text.
fn places_shown(alloc: Global, schema: &SchemaText, places: &[Loc]) -> Result<String, AllocError> {
    let mut shown = String::new(alloc);
    for place in places {
        let Position { line, unit } = schema.range(*place).start;
        let own = text_at(schema.text.as_str(), *place);
        writeln!(shown, "{line}:{unit} `{own}`")?;
    }
    Ok(shown)
}

#[test]
fn definitions(rt: HostRuntime) -> Result<(), Fail> {
    let alloc = rt.alloc();
    let extensions = ExtensionSchemas::default(alloc);
    let schema = SchemaDocument::new(alloc, &extensions, Syntax::Cedar, SCHEMA)?;
    let own = schema.texts().first().ok_or("a text")?;
    for (front, rest, is_typed, wanted) in &DEFINITIONS {
        let marked = format!(in alloc; "// é\n{front}{rest}")?;
        let (text, byte) = unmarked(alloc, marked.as_str())?;
        let document = if *is_typed {
            document_by(alloc, &schema, text.as_str())?
        } else {
            PolicyDocument::new(alloc, Judge::Reading(&extensions), text.as_str())?
        };
        let places = definitions_shown(alloc, &document, own, byte)?;
        assert_eq!(rt; places.as_str(), *wanted, "{marked}");
    }
    Ok(())
}

/// The definitions at a byte of a document, each on a line.
fn definitions_shown(
    alloc: Global,
    document: &PolicyDocument<'_, Check>,
    own: &SchemaText,
    byte: usize,
) -> Result<String, Fail> {
    let settings = document.judge().settings();
    let placed = document.policy_at(byte).ok_or("a policy")?;
    let at = byte.saturating_sub(placed.start);
    let found = definitions_at(alloc, settings.as_ref(), own, placed.policy(), at)?;
    Ok(places_shown(alloc, own, found.as_slice())?)
}
