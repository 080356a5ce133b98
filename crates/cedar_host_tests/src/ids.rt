// Sets of entity ids.
use cedar_conformance::ids::Ids;
use cedar_types::base::{EntityType, EntityUID, Name};
use std::alloc::{AllocError, Global};
use std::rc::Rc;
use std::test::Fail;

fn group(alloc: Global, eid: &str) -> Result<EntityUID, AllocError> {
    let entity_type = EntityType::from(Name::unqualified_name(alloc, "Group")?);
    EntityUID::from_components(alloc, entity_type, eid, None)
}

/// Ids come in their order, each once, whatever the order in which they were added.
#[test]
fn ids_in_order(rt: HostRuntime) -> Result<(), Fail> {
    let alloc = rt.alloc();
    let cases = [
        ("", ""),
        ("a", "a"),
        ("a b c", "a b c"),
        ("c b a", "a b c"),
        ("b d a c e", "a b c d e"),
        ("b a b a c c", "a b c"),
    ];
    for (added, wanted) in cases {
        let mut ids = Ids::new(alloc);
        for eid in added.split_whitespace() {
            ids.insert(group(alloc, eid)?)?;
        }
        let mut shown = String::new(alloc);
        for id in ids.as_slice() {
            let before = if shown.is_empty() { "" } else { " " };
            write!(shown, "{before}{}", id.eid)?;
        }
        assert_eq!(&rt; shown.as_str(), wanted, "{added}");
        assert_eq!(&rt; ids.is_empty(), wanted.is_empty(), "{added}");
    }
    Ok(())
}

/// A set has the ids that were added to it, even if another set shares them, and no others.
#[test]
fn ids_that_are_there(rt: HostRuntime) -> Result<(), Fail> {
    let alloc = rt.alloc();
    let shared = Rc::new(alloc, group(alloc, "c")?)?;
    let (mut one, mut other) = (Ids::new(alloc), Ids::new(alloc));
    one.share(shared.clone()?)?;
    one.insert(group(alloc, "a")?)?;
    other.share(shared)?;
    let cases = [
        ("a", true, false),
        ("b", false, false),
        ("c", true, true),
        ("d", false, false),
    ];
    for (eid, in_one, in_other) in cases {
        let id = group(alloc, eid)?;
        assert_eq!(&rt; one.contains(&id), in_one, "{eid}");
        assert_eq!(&rt; other.contains(&id), in_other, "{eid}");
    }
    assert_eq!(&rt; one.len(), 2);
    assert_eq!(&rt; other.len(), 1);
    Ok(())
}
