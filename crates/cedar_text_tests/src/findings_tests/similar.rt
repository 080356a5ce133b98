// Slips between two names, and searches for the nearest name.
use cedar_findings::search_room::SearchRoom;
use cedar_findings::similar::{Search, distance};
use std::alloc::{AllocError, Global};
use std::test::Fail;

/// Two names, and the slips between them.
const PAIRS: [(&str, &str, usize); 12] = [
    ("", "", 0),
    ("", "abc", 3),
    ("abc", "", 3),
    ("owner", "owner", 0),
    ("owner", "Owner", 0),
    ("isPubic", "isPublic", 1),
    ("veiw", "view", 1),
    ("vew", "view", 1),
    ("viiew", "view", 1),
    ("vaew", "view", 1),
    ("ca", "abc", 3),
    ("kitten", "sitting", 3),
];

#[test]
fn distances(rt: HostRuntime) -> Result<(), Fail> {
    for (one, two, wanted) in &PAIRS {
        let there = slips(rt.alloc(), one, two)?;
        assert_eq!(rt; there, *wanted, "for {one} and {two}");
        let back = slips(rt.alloc(), two, one)?;
        assert_eq!(rt; back, *wanted, "for {two} and {one}");
    }
    Ok(())
}

fn slips(alloc: Global, one: &str, two: &str) -> Result<usize, AllocError> {
    let mut from = Vec::new(alloc);
    for c in one.chars() {
        from.push(c)?;
    }
    let mut to = Vec::new(alloc);
    for c in two.chars() {
        to.push(c)?;
    }
    distance(alloc, from.as_slice(), to.as_slice())
}

/// An unknown name, the known names, and the nearest of them.
const SEARCHES: [(&str, &str, &str); 8] = [
    ("isPubic", "owner isPublic isPubl", "isPublic"),
    ("hom", "age home name", "home"),
    ("a", "b c", ""),
    ("a", "A", "A"),
    ("x", "", ""),
    ("name", "owner boss", ""),
    ("readers", "reader writers", "reader"),
    ("view", "veiw viow", "veiw"),
];

#[test]
fn nearest(rt: HostRuntime) -> Result<(), Fail> {
    for (unknown, names, wanted) in &SEARCHES {
        let found = nearest_of(rt.alloc(), unknown, names)?;
        assert_eq!(rt; found.as_str(), *wanted, "for {unknown}");
    }
    Ok(())
}

fn nearest_of(alloc: Global, unknown: &str, names: &str) -> Result<String, AllocError> {
    let mut search = Search::new(alloc, unknown)?;
    let mut nearest = String::new(alloc);
    for name in names.split(' ') {
        if search.is_nearer(name, false)? {
            nearest.clear();
            nearest.push_str(name)?;
        }
    }
    Ok(nearest)
}

#[test]
fn where_else_does_not_differ(rt: HostRuntime) -> Result<(), Fail> {
    let mut search = Search::new(rt.alloc(), "User")?;
    assert_eq!(rt; search.is_nearer("User", true)?, true);
    assert_eq!(rt; search.is_nearer("User", true)?, false);
    assert_eq!(rt; search.is_nearer("User", false)?, true);
    assert_eq!(rt; search.is_nearer("Uses", false)?, false);
    Ok(())
}

#[test]
fn a_search_ends(rt: HostRuntime) -> Result<(), Fail> {
    for (others, is_over) in [(1_000, false), (5_000, true)] {
        let mut search = Search::new(rt.alloc(), "resource")?;
        for _ in 0..others {
            assert_eq!(rt; search.is_nearer("another", false)?, false);
        }
        assert_eq!(rt; search.is_over(), is_over);
        assert_eq!(rt; search.is_nearer("resource", false)?, !is_over);
    }
    Ok(())
}

/// The room of a report lasts for a hundred searches that go to their end.
#[test]
fn a_room_ends(rt: HostRuntime) -> Result<(), Fail> {
    let mut room = SearchRoom::new();
    for number in 1..=100 {
        assert_eq!(rt; room.is_used_up(), false, "at search {number}");
        let mut search = Search::new(rt.alloc(), "resource")?;
        for _ in 0..5_000 {
            search.is_nearer("another", false)?;
        }
        room.take(&search);
    }
    assert_eq!(rt; room.is_used_up(), true);
    Ok(())
}
