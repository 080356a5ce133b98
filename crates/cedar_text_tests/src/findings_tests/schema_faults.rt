// Faults of schemas: the first of each schema, and all at once.
use crate::findings_tests::cases::check;
use crate::findings_tests::faults::describe;
use cedar_findings::faults::{TextFault, all_schema_faults, schema_fault, shadowing_fault};
use cedar_reading::schema;
use cedar_types::base::Loc;
use std::alloc::Global;
use std::test::Fail;

/// Schemas, and the fault of each.
const SCHEMAS: [(&str, &str); 24] = [
    (
        "entity A { a: Long b: Long };",
        "1:20: `,` or `}` is expected, where `b` is read",
    ),
    (
        "entity A { b: Strng };",
        "1:15: a type that is not declared: `Strng`",
    ),
    (
        "type T = Nope;\nentity A;",
        "1:10: a type that is not declared: `Nope`",
    ),
    (
        "namespace N { type T = { a: Set<Strng> }; type U = T; }\nentity A;",
        "1:33: a type that is not declared: `Strng`",
    ),
    (
        "entity A in [B];",
        "1:14: a name that is not declared, where `B` is read",
    ),
    (
        "entity A;\nentity B;\nentity A;",
        "3:8: an entity type is declared twice: `A`",
    ),
    (
        "action a, a;",
        "1:11: an action is declared twice: `Action::\"a\"`",
    ),
    (
        "entity A enum [];",
        "1:8: an enumerated type has no ids: `A`",
    ),
    (
        "entity Action;",
        "1:8: an entity type has the name of a type of actions: `Action`",
    ),
    (
        "entity A;\naction v appliesTo { principal: A };",
        "2:35: `resource` is expected, where `}` is read",
    ),
    (
        "entity A;\naction v appliesTo { principal: A, resource: A, context: Long };",
        "2:58: the context of an action has to be a record: `Long`",
    ),
    (
        "type T = {t?: T};\nentity A;",
        "1:10: nested too deep, as a type that contains itself is, where `{` is read",
    ),
    (
        "{\"\": {}}",
        "1:1: a declaration is expected, where `{` is read; JSON is read where a file begins with \
         it, or by `--input json`",
    ),
    (
        "permit(principal, action, resource);",
        "1:1: a declaration is expected, where `permit` is read; the schema is the first file, \
         and policies come behind it",
    ),
    (
        "entity A enum [\"a\", \"b\",]; entity B in [A,]; entity C;\naction v in [w,] appliesTo { principal: [B, C,], \
         resource: [B,], };\naction w;",
        "no fault",
    ),
    (
        "entity A enum [\"a\",,];",
        "1:20: a text in quotes is expected, where `,` is read",
    ),
    (
        "entity A; action v appliesTo { principal: [], resource: A };",
        "1:43: at least one type is expected, where `[` is read",
    ),
    ("entity A { b: B }; type B = Long; entity B;", "no fault"),
    (
        "entity A; namespace N { entity B, A; }",
        "1:35: a name of a namespace that hides one outside of namespaces: `N::A`",
    ),
    (
        "namespace N::M { type A = Long; }\nentity A;",
        "1:23: a name of a namespace that hides one outside of namespaces: `N::M::A`",
    ),
    (
        "type A = Long; namespace N { entity A; }",
        "1:37: a name of a namespace that hides one outside of namespaces: `N::A`",
    ),
    (
        "namespace N { action a, \"b\"; }\naction b;",
        "1:25: a name of a namespace that hides one outside of namespaces: `N::Action::\"b\"`",
    ),
    (
        "namespace N { entity A; action a; } namespace M { entity A; action a; }",
        "no fault",
    ),
    (
        "entity A\nentity B;",
        "2:1: `;` is expected, where `entity` is read",
    ),
];

/// The first fault of a schema.
fn describe_first(alloc: Global, text: &str) -> Result<String, Fail> {
    match schema(alloc, text) {
        Ok(_schema) => match shadowing_fault(alloc, text)? {
            None => Ok(String::from_str(alloc, "no fault")?),
            Some(fault) => Ok(describe(alloc, text, &fault)?),
        },
        Err(error) => {
            let fault = schema_fault(alloc, text, error)?;
            Ok(describe(alloc, text, &fault)?)
        }
    }
}

#[test]
fn first(rt: HostRuntime) -> Result<(), Fail> {
    check(&rt, describe_first, &SCHEMAS)
}

/// Schemas with several faults.
const FAULTY: [(&str, &str); 10] = [
    (
        "entity User in Grop {\n  name: Strng,\n  name: Long,\n  boss: Usr\n};\nentity User;\nentity Kind enum [];\n\
         entity Broken { a Long };\nentity Uses { b: Broken, c: Gone };\ntype T = { t: T };\n\
         action view in [gone] appliesTo { principal: Usr, resource: [], context: Long };\naction view;",
        "1:16: a name that is not declared, where `Grop` is read\n\
         2:9: a type that is not declared: `Strng`\n\
         3:3: the same key twice, where `name` is read\n\
         4:9: a type that is not declared: `Usr`\n\
         6:8: an entity type is declared twice: `User`\n\
         7:8: an enumerated type has no ids: `Kind`\n\
         8:19: `:` is expected, where `Long` is read\n\
         9:29: a type that is not declared: `Gone`\n\
         10:15: nested too deep, as a type that contains itself is, where `T` is read\n\
         11:17: a name that is not declared, where `gone` is read\n\
         11:46: a type that is not declared: `Usr`\n\
         11:61: at least one type is expected, where `[` is read\n\
         11:74: the context of an action has to be a record: `Long`\n\
         12:8: an action is declared twice: `Action::\"view\"`\n",
    ),
    (
        "entity A;\nnamespace N { entity A; entity B { c: C }; action v; }\naction v;",
        "2:22: a name of a namespace that hides one outside of namespaces: `N::A`\n\
         2:39: a type that is not declared: `C`\n\
         2:51: a name of a namespace that hides one outside of namespaces: `N::Action::\"v\"`\n",
    ),
    // a mark is missing
    (
        "entity A\nentity B { a: X }\nentity C { b: A, c: B };",
        "2:1: `;` is expected, where `entity` is read\n\
         2:15: a type that is not declared: `X`\n\
         3:1: `;` is expected, where `entity` is read\n",
    ),
    (
        "entity A { a: Long\nentity B { b: Long };\nentity C { c: B, d: A, e: D };",
        "2:1: `,` or `}` is expected, where `entity` is read\n\
         3:27: a type that is not declared: `D`\n",
    ),
    // marks in texts and comments end nothing
    (
        "entity A { a: 5, b: \"; } entity X;\" } // ; entity\n;\nentity B { c: Gone };",
        "1:15: a name is expected, where `5` is read\n\
         3:15: a type that is not declared: `Gone`\n",
    ),
    // names behind a fault may be declared: an action by its text, and a type behind a wrong word
    (
        "action \"a b\" on;\nentitty C, D { };\naction d in [\"a b\"], e in [\"b\"];\nentity E { c: C, d: Set<D>, e: F };",
        "1:14: `;` is expected, where `on` is read\n\
         2:1: a declaration is expected, where `entitty` is read\n\
         3:20: `;` is expected, where `,` is read\n\
         4:32: a type that is not declared: `F`\n",
    ),
    // the bounds of a namespace are not known
    (
        "namespace 5 {\n  entity A { b: B };\n}\nentity C { d: A, e: Gone };\nentity D 5;",
        "1:11: a name is expected, where `5` is read\n\
         5:10: `;` is expected, where `5` is read\n",
    ),
    (
        "entity A;\n};\nentity B { c: C };\nentity A;\nentity D { a Long };",
        "2:1: a declaration is expected, where `}` is read\n\
         5:14: `:` is expected, where `Long` is read\n",
    ),
    (
        "namespace N {\n  entity A { b: B };\n",
        "2:17: a type that is not declared: `B`\n\
         3:1: a declaration is expected, where the text ends\n",
    ),
    // faults of an alias stand at its declaration
    (
        "type A = Set<B>;\ntype B = { a: A };\ntype C = Gone;\nentity D { a: C, b: C, c: A };\ntype E = Long;\n\
         type E = Bool;\naction v appliesTo { principal: D, resource: D, context: E };\n\
         type F = G;\ntype G = { };\naction w appliesTo { principal: D, resource: D, context: F };\n\
         type H = { i: __cedar::I };",
        "1:14: nested too deep, as a type that contains itself is, where `B` is read\n\
         3:10: a type that is not declared: `Gone`\n\
         6:6: the same name twice, where `E` is read\n\
         7:58: the context of an action has to be a record: `E`\n\
         11:15: a name that is not declared, where `__cedar` is read\n",
    ),
];

/// All faults of a text, a line for each; `the first`, if none is found.
fn describe_all(alloc: Global, text: &str) -> Result<String, Fail> {
    let first = TextFault {
        place: Loc { start: 0, end: 0 },
        text: String::from_str(alloc, "the first")?,
    };
    let mut got = String::new(alloc);
    for fault in &all_schema_faults(alloc, text, first)? {
        got.push_str(describe(alloc, text, fault)?.as_str())?;
        got.push_str("\n")?;
    }
    Ok(got)
}

#[test]
fn several(rt: HostRuntime) -> Result<(), Fail> {
    check(&rt, describe_all, &FAULTY)
}

/// A single fault is told as ever, except for a type in itself, whose inner name is told.
#[test]
fn one(rt: HostRuntime) -> Result<(), Fail> {
    let alloc = rt.alloc();
    for (text, first) in &SCHEMAS {
        let wanted = match *first {
            "no fault" => String::from_str(alloc, "1:1: the first\n")?,
            other if other.starts_with("1:10: nested") => {
                let why = "nested too deep, as a type that contains itself is";
                format!(in alloc; "1:15: {why}, where `T` is read\n")?
            }
            other => format!(in alloc; "{other}\n")?,
        };
        let got = describe_all(alloc, text)?;
        assert_eq!(rt; got.as_str(), wanted.as_str(), "for {text}");
    }
    Ok(())
}

/// The first hundred of more faults.
#[test]
fn many(rt: HostRuntime) -> Result<(), Fail> {
    let mut text = String::new(rt.alloc());
    for _ in 0..60 {
        text.push_str("entity A { a: B } c; ")?;
    }
    let got = describe_all(rt.alloc(), text.as_str())?;
    assert_eq!(rt; got.as_str().lines().count(), 100);
    Ok(())
}
