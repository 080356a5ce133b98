// Entity types and entity ids.
ghost use Rattle.std.specs.Prelude.{◌≡◌, ◌⊎◌, IfOk, None};
ghost use Rattle.cedar_types.specs.Names.{path_of, type_of, placed_type, placed_uid, is_action_path};

use crate::base::location::Loc;
use crate::base::names::Name;
use std::alloc::{AllocError, Global};
use std::fmt;
use std::rc::RcStr;

/// The type of an entity: a name and its place. Comparisons ignore the place.
#[derive(Drop)]
#[derive_where(PartialEq, Eq, PartialOrd, Ord, Hash, Debug)]
pub struct EntityType {
    pub name: Name,
    #[derive_where(skip(EqHashOrd))]
    pub loc: Option<Loc>,
}

impl EntityType {
    /// The entity type of this name, at this place.
    pub fn new(name: Name, loc: Option<Loc>) -> EntityType
        ensures { placed_type result ≡ record { name = path_of name; place = loc } }
    {
        EntityType { name, loc }
    }

    /// Whether entities of this type are actions: whether the name's last part is `Action`.
    pub fn is_action(&self) -> bool
        ensures { result ≡ is_action_path (type_of self.now) }
    {
        self.name.basename.as_str() == "Action"
    }
}

impl From<Name> for EntityType {
    ghost from_gives = { λ n t. placed_type t ≡ record { name = path_of n; place = None } };

    fn from(name: Name) -> EntityType {
        EntityType::new(name, None)
    }
}

impl Clone for EntityType {
    ghost is_clone = { λ s t. placed_type t ≡ placed_type s };

    fn clone(&self) -> Result<EntityType, AllocError> {
        let name = self.name.clone()?;
        Ok(EntityType {
            name,
            loc: self.loc,
        })
    }
}

impl fmt::Display for EntityType {
    fn fmt<W: fmt::Write>(&self, f: &mut fmt::Formatter<W>) -> fmt::Result {
        write!(f, "{}", self.name)
    }
}

/// The id of an entity and its place. Comparisons ignore the place.
///
/// `Display` writes `Type::"eid"`, with a backslash before each `"` and `\` of the eid.
#[derive(Drop)]
#[derive_where(PartialEq, Eq, PartialOrd, Ord, Hash, Debug)]
pub struct EntityUID {
    pub entity_type: EntityType,
    pub eid: RcStr,
    #[derive_where(skip(EqHashOrd))]
    pub loc: Option<Loc>,
}

impl EntityUID {
    /// The id of the entity of this type with this eid, at this place. The type keeps its own
    /// place.
    pub fn from_components(
        alloc: Global,
        entity_type: EntityType,
        eid: &str,
        loc: Option<Loc>,
    ) -> Result<EntityUID, AllocError>
        ensures { IfOk result (λ u. placed_uid u ≡ record {
          uid = record { entity_type = type_of entity_type; eid = eid.now };
          place = loc;
          type_place = entity_type.loc;
        }) }
    {
        Ok(EntityUID {
            entity_type,
            eid: RcStr::from_str(alloc, eid)?,
            loc,
        })
    }
}

impl Clone for EntityUID {
    ghost is_clone = { λ u v. placed_uid v ≡ placed_uid u };

    fn clone(&self) -> Result<EntityUID, AllocError> {
        let entity_type = self.entity_type.clone()?;
        let eid = self.eid.clone()?;
        Ok(EntityUID {
            entity_type,
            eid,
            loc: self.loc,
        })
    }
}

impl fmt::Display for EntityUID {
    fn fmt<W: fmt::Write>(&self, f: &mut fmt::Formatter<W>) -> fmt::Result {
        write!(f, "{}::\"", self.entity_type)?;
        for c in self.eid.as_str().chars() {
            match c {
                '"' | '\\' => write!(f, "\\{c}")?,
                _ => write!(f, "{c}")?,
            }
        }
        write!(f, "\"")
    }
}
