// Entity types that a schema knows.
ghost use Rattle.std.specs.Prelude.{◌≡◌};
ghost use Rattle.std.specs.List.{list_all};
ghost use Rattle.cedar_types.specs.Names.{type_of};
ghost use Rattle.cedar_types.specs.Schemas.{knows_type};
ghost use Rattle.cedar_types.specs.Types.{types_of};
ghost use Rattle.cedar_types.specs.Schemas.Tables.{types_in};

use crate::base::names::entities::EntityType;
use crate::base::schema::entity_types::ValidatorEntityType;
use crate::base::schema::tables::Table;
use std::collections::BTreeSet;

impl Table<ValidatorEntityType> {
    /// Whether a type of this name is declared, or is an action's.
    pub(crate) fn knows(&self, name: &EntityType) -> bool
        ensures { result ≡ knows_type (types_in self.now) (type_of name.now) }
    {
        name.is_action() || self.contains(name)
    }

    /// Whether each of these types is known.
    pub(crate) fn all_known(&self, names: &BTreeSet<EntityType>) -> bool
        ensures { result ≡ list_all (knows_type (types_in self.now)) (types_of names.now) }
    {
        for name in names.iter() {
            if !self.knows(name) {
                return false;
            }
        }
        true
    }
}
