// Closure of descendants: whether each descendant of a descendant is a descendant.
ghost use Rattle.std.specs.Prelude.{◌≡◌, ◌||◌, true, Some, IfSome, map, take};
ghost use Rattle.std.specs.List.{list_any, list_all};
ghost use Rattle.std.specs.Cmp.Lexicographic.{pointwise};
ghost use Rattle.cedar_types.specs.Schemas.Closures.{has_all, is_closed, are_kept, below_name, all_closed, IsBelow};

use crate::base::schema::declared::Declared;
use crate::base::schema::tables::Table;

/// Whether each declaration has the descendants of its descendants.
///
/// For a chain of declarations, and for declarations that are all in each other, the time is
/// linear, but for a logarithm, in the number of descendants that they declare.
pub(crate) fn are_closed<D: Declared>(table: &Table<D>) -> bool
    ensures { result
        ≡ all_closed D.same D.called D.below (map D.plain table.now.declared.items) }
{
    for (place, declaration) in table.declared.iter().enumerate() {
        if !has_earlier(table, declaration, place) && !is_kept(table, declaration) {
            return false;
        }
    }
    true
}

/// Whether a descendant of a declaration is declared before this place and has the same
/// descendants. Declarations that are all in each other do, so `are_closed` looks at one of them
/// alone. A declaration that is not its own descendant is in no such ring.
fn has_earlier<D: Declared>(table: &Table<D>, above: &D, place: usize) -> bool
    ensures { result ≡ true
        → list_any (λ x.
        pointwise D.same (D.below (Some x)) (D.below (Some (D.plain above.now))))
        (take place (map D.plain table.now.declared.items)) ≡ true }
{
    if !has_descendant(above, above.name()) {
        return false;
    }
    let names = above.descendants();
    for name in names.iter() {
        if let Some(found) = table.get_before(name, place) {
            let others = found.descendants();
            if others.len() == names.len() {
                return others == names;
            }
        }
    }
    false
}

/// Whether a declaration has the descendants of each of its own, provided that all smaller sets of
/// descendants are closed: the test leaves out those that the widest smaller one has.
fn is_kept<D: Declared>(table: &Table<D>, above: &D) -> bool
    ensures kept { result ≡ true
        → are_kept D.same (λ x. D.below (Some x))
        (below_name D.same D.called D.below (map D.plain table.now.declared.items))
        (map D.plain table.now.declared.items) (D.below (Some (D.plain above.now))) ≡ true }
    ensures closed { is_closed D.same
        (below_name D.same D.called D.below (map D.plain table.now.declared.items))
        (D.below (Some (D.plain above.now))) ≡ true
        → result ≡ true }
{
    match widest_below(table, above) {
        Some(widest) => has_all_below(above, widest) && are_others_closed(table, above, widest),
        None => are_all_closed(table, above),
    }
}

/// A descendant of a declaration that has the most descendants among those with fewer than it.
fn widest_below<'a, D: Declared>(table: &'a Table<D>, above: &D) -> Option<&'a D>
    ensures { IfSome result (λ d.
        IsBelow D.same D.called (λ x. D.below (Some x)) (map D.plain table.now.declared.items)
        (D.below (Some (D.plain above.now))) (D.plain d.now)) }
{
    let names = above.descendants();
    let mut widest = None;
    for name in names.iter() {
        if let Some(found) = table.get(name) {
            if found.descendants().len() < names.len() && is_wider(found, widest) {
                widest = Some(found);
            }
        }
    }
    widest
}

fn is_wider<D: Declared>(found: &D, widest: Option<&D>) -> bool {
    match widest {
        Some(widest) => widest.descendants().len() < found.descendants().len(),
        None => true,
    }
}

/// Whether a declaration has the descendants of each of its own that does not descend from the
/// widest, which is closed.
fn are_others_closed<D: Declared>(table: &Table<D>, above: &D, widest: &D) -> bool
    ensures { result ≡ list_all (λ k.
        list_any (D.same k) (D.below (Some (D.plain widest.now)))
        || has_all D.same (D.below (Some (D.plain above.now)))
        (below_name D.same D.called D.below (map D.plain table.now.declared.items) k))
        (D.below (Some (D.plain above.now))) }
{
    let names = above.descendants();
    for name in names.iter() {
        if !(has_descendant(widest, name) || has_all_below_name(table, above, name)) {
            return false;
        }
    }
    true
}

/// Whether a declaration has the descendants of each of its own.
fn are_all_closed<D: Declared>(table: &Table<D>, above: &D) -> bool
    ensures { result ≡ is_closed D.same
        (below_name D.same D.called D.below (map D.plain table.now.declared.items))
        (D.below (Some (D.plain above.now))) }
{
    let names = above.descendants();
    for name in names.iter() {
        if !has_all_below_name(table, above, name) {
            return false;
        }
    }
    true
}

/// Whether a declaration has all descendants of the declaration of this name; true if there is
/// none.
fn has_all_below_name<D: Declared>(table: &Table<D>, above: &D, name: &D::Name) -> bool
    ensures { result ≡ has_all D.same (D.below (Some (D.plain above.now)))
        (below_name D.same D.called D.below (map D.plain table.now.declared.items)
        (D.key name.now)) }
{
    match table.get(name) {
        Some(found) => has_all_below(above, found),
        None => true,
    }
}

/// Whether a declaration has all descendants of another. The test walks both sets in order.
fn has_all_below<D: Declared>(above: &D, found: &D) -> bool
    ensures { result ≡ has_all D.same (D.below (Some (D.plain above.now)))
        (D.below (Some (D.plain found.now))) }
{
    let others = found.descendants();
    others.is_subset(above.descendants())
}

/// Whether this name is among the descendants of a declaration.
pub(crate) fn has_descendant<D: Declared>(above: &D, name: &D::Name) -> bool
    ensures { result
        ≡ list_any (D.same (D.key name.now)) (D.below (Some (D.plain above.now))) }
{
    above.descendants().contains(name)
}
