// Declarations of a schema, found by name.
ghost use Rattle.std.specs.Prelude.{◌≡◌, true, false, IfOk, MatchOption, map};
ghost use Rattle.cedar_types.specs.Schemas.Tables.Places.{IsIndex, repeats_name};

use crate::base::schema::actions::ValidatorActionId;
use crate::base::schema::declared::Declared;
use crate::base::schema::entity_types::ValidatorEntityType;
use std::alloc::{AllocError, Global};
use std::collections::{BTreeMap, BTreeSet};

/// Declarations in the order in which they were made, no two of one name.
#[derive(Drop)]
#[derive_where(Debug; D, D::Name)]
pub(crate) struct Table<D: Declared> {
    pub(crate) declared: Vec<D>,
    places: BTreeMap<D::Name, usize>,
    ghost placed: { IsIndex D.same D.key (λ d. D.called (D.plain d))
        places.entries declared.items },
}

/// The entity types of a schema.
pub(crate) type EntityTypeTable = Table<ValidatorEntityType>;

/// The actions of a schema.
pub(crate) type ActionTable = Table<ValidatorActionId>;

impl<D: Declared> Table<D> {
    ghost use Rattle.std.specs.Prelude.{[], option_map, take};
    ghost use Rattle.std.specs.List.{list_all};
    ghost use Rattle.cedar_types.specs.Schemas.Tables.Places.{declares_name, found_by_name};

    /// The table of these declarations; `None` if a name repeats.
    pub(crate) fn new(alloc: Global, declared: Vec<D>) -> Result<Option<Table<D>>, AllocError>
        ensures { IfOk result (λ o. MatchOption o
            (repeats_name D.same D.called (map D.plain declared.items) ≡ true) (λ t.
            (map D.plain t.declared.items ≡ map D.plain declared.items)
            × (repeats_name D.same D.called (map D.plain t.declared.items) ≡ false))) }
    {
        match places_of(alloc, &declared)? {
            Some(places) => Ok(Some(Table { declared, places })),
            None => Ok(None),
        }
    }

    /// The table without declarations.
    pub(crate) fn empty(alloc: Global) -> Table<D>
        ensures { map D.plain result.declared.items ≡ [] }
    {
        Table {
            declared: Vec::new(alloc),
            places: BTreeMap::new(alloc),
        }
    }

    /// The declaration of this name, if there is one.
    pub(crate) fn get(&self, name: &D::Name) -> Option<&D>
        ensures { option_map (λ d. D.plain d.now) result
            ≡ found_by_name D.same D.called (map D.plain self.now.declared.items) (D.key name.now) }
    {
        match self.places.get(name) {
            Some(place) => self.declared.get(*place),
            None => None,
        }
    }

    /// The declaration of this name, if it is made before this place.
    pub(crate) fn get_before(&self, name: &D::Name, place: usize) -> Option<&D>
        ensures { option_map (λ d. D.plain d.now) result
            ≡ found_by_name D.same D.called (take place (map D.plain self.now.declared.items))
            (D.key name.now) }
    {
        match self.places.get(name) {
            Some(at) if *at < place => self.declared.get(*at),
            _ => None,
        }
    }

    /// Whether there is a declaration of this name.
    pub(crate) fn contains(&self, name: &D::Name) -> bool
        ensures { result
            ≡ declares_name D.same D.called (map D.plain self.now.declared.items) (D.key name.now) }
    {
        self.places.contains_key(name)
    }

    /// Whether there is a declaration of each of these names.
    pub(crate) fn all_declared(&self, names: &BTreeSet<D::Name>) -> bool
        ensures { result
            ≡ list_all (declares_name D.same D.called (map D.plain self.now.declared.items))
            (map D.key names.now.keys) }
    {
        for name in names.iter() {
            if !self.contains(name) {
                return false;
            }
        }
        true
    }
}

/// The place of each declaration by its name; `None` if a name repeats.
fn places_of<D: Declared>(
    alloc: Global,
    declared: &[D],
) -> Result<Option<BTreeMap<D::Name, usize>>, AllocError>
    ensures { IfOk result (λ o. MatchOption o
        (repeats_name D.same D.called (map D.plain declared.now) ≡ true) (λ m.
        IsIndex D.same D.key (λ d. D.called (D.plain d)) m.entries declared.now
        × (repeats_name D.same D.called (map D.plain declared.now) ≡ false))) }
{
    let mut places = BTreeMap::new(alloc);
    for (place, declaration) in declared.iter().enumerate() {
        let name = declaration.copy_name()?;
        if places.insert(name, place)?.is_some() {
            return Ok(None);
        }
    }
    Ok(Some(places))
}
