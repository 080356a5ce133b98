// Memberships over any number of steps.
use crate::findings_tests::cases::check;
use cedar_reading::schema_declarations;
use cedar_types::base::EntityUID;
use std::alloc::Global;
use std::collections::BTreeSet;
use std::test::Fail;

/// Schemas, with the descendants of each type and each action.
const SCHEMAS: [(&str, &str); 8] = [
    ("entity A;", "A:"),
    ("entity A in A;", "A: A"),
    (
        "entity A in B; entity B in C; entity C;",
        "A:; B: A; C: A B",
    ),
    (
        "entity C in B; entity A; entity B in A; entity D in [A, B];",
        "C:; A: B C D; B: C D; D:",
    ),
    (
        "entity A in B; entity B in [A, C]; entity C; entity D in A;",
        "A: A B D; B: A B D; C: A B D; D:",
    ),
    (
        "entity A, B in [C, D]; entity C in D; entity D in C; entity E in [E, E];",
        "A:; B:; C: A B C D; D: A B C D; E: E",
    ),
    (
        "action a in [b]; action b in c; action c in [b, d]; action d, e;",
        "a:; b: a b c; c: a b c; d: a b c; e:",
    ),
    (
        "namespace N { entity A in [B]; entity B; } entity C in N::A;",
        "N::A: C; N::B: C N::A; C:",
    ),
];

/// The descendants of each type and each action of a schema.
fn show_descendants(alloc: Global, text: &str) -> Result<String, Fail> {
    let declared = schema_declarations(alloc, text)?;
    let mut got = String::new(alloc);
    for own in &declared.entity_types {
        push_name(&mut got)?;
        write!(got, "{}:", own.name)?;
        for other in &own.descendants {
            write!(got, " {other}")?;
        }
    }
    for own in &declared.actions {
        push_name(&mut got)?;
        push_actions(&mut got, &own.name, &own.descendants)?;
    }
    Ok(got)
}

#[test]
fn descendants(rt: HostRuntime) -> Result<(), Fail> {
    check(&rt, show_descendants, &SCHEMAS)
}

fn push_name(got: &mut String) -> Result<(), Fail> {
    if !got.is_empty() {
        got.push_str("; ")?;
    }
    Ok(())
}

fn push_actions(
    got: &mut String,
    own: &EntityUID,
    others: &BTreeSet<EntityUID>,
) -> Result<(), Fail> {
    write!(got, "{}:", own.eid)?;
    for other in others {
        write!(got, " {}", other.eid)?;
    }
    Ok(())
}
