// The tables that an expression reads.
ghost use Rattle.std.specs.Prelude.{◌≡◌, IfOk, [], map};
ghost use Rattle.cedar_types.specs.Names.{type_of};
ghost use Rattle.cedar_where.specs.Reads.{types_read};
ghost use Rattle.cedar_where.specs.Views.{sql_of};

use crate::sql::SqlExpr;
use cedar_types::base::EntityType;
use std::alloc::{AllocError, Global};

impl SqlExpr {
    /// The entity types whose tables the expression reads beside the resource's own row, in order, as often as it reads them.
    /// Each must have a table, and you must make it before you run a text of the expression. If memory is refused, the answer
    /// is an `AllocError`.
    pub fn types_read(&self, alloc: Global) -> Result<Vec<EntityType>, AllocError>
        ensures { IfOk result (λ ts. map type_of ts.items ≡ types_read (sql_of self.now) []) }
    {
        let mut all = Vec::new(alloc);
        add_types(self, &mut all)?;
        Ok(all)
    }
}

/// Adds the entity types whose tables an expression reads.
fn add_types(e: &SqlExpr, all: &mut Vec<EntityType>) -> Result<(), AllocError>
    ensures { IfOk result (λ u.
        map type_of all.new.items ≡ types_read (sql_of e.now) (map type_of all.old.items)) }
{
    match e {
        SqlExpr::Null | SqlExpr::Truth(_) | SqlExpr::Number(_) | SqlExpr::Text(_) => Ok(()),
        SqlExpr::Column(_) | SqlExpr::OwnId | SqlExpr::Principal => Ok(()),
        SqlExpr::Parameter { .. } => Ok(()),
        SqlExpr::Attribute {
            entity_type,
            eid,
            ..
        } => {
            add_types(eid, all)?;
            all.push(entity_type.clone()?)?;
            Ok(())
        }
        SqlExpr::Not(a) | SqlExpr::IsNotNull(a) | SqlExpr::IsTrue(a) => add_types(a, all),
        SqlExpr::Matches(a, _) | SqlExpr::IsAmong(a, _) => add_types(a, all),
        SqlExpr::IsInAny { eid: a, .. } => add_types(a, all),
        SqlExpr::And(a, b) | SqlExpr::Or(a, b) | SqlExpr::Equal(a, b) => {
            add_types(a, all)?;
            add_types(b, all)
        }
        SqlExpr::Less(a, b) | SqlExpr::LessOrEqual(a, b) => {
            add_types(a, all)?;
            add_types(b, all)
        }
        SqlExpr::IsIn {
            eid: a,
            ancestor_eid: b,
            ..
        } => {
            add_types(a, all)?;
            add_types(b, all)
        }
        SqlExpr::Case {
            test,
            then,
            otherwise,
        } => {
            add_types(test, all)?;
            add_types(then, all)?;
            add_types(otherwise, all)
        }
    }
}
