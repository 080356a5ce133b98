//! Laws of the data, each the contract of a function that does nothing.
ghost use Rattle.std.specs.Prelude.{◌≡◌, IsTrue, ◌↔◌, None};
ghost use Rattle.std.specs.Cmp.{IsTotalOrder};
ghost use Rattle.std.specs.Ordering.{is_eq};
ghost use Rattle.cedar_types.specs.Names.{path_of, type_of, uid_of, path_cmp, uid_cmp};
ghost use Rattle.cedar_types.specs.Names.Comparisons.{name_eq, entity_type_eq, entity_uid_eq, name_cmp, entity_type_cmp, entity_uid_cmp};
ghost use Rattle.cedar_types.specs.ErrorOrder.{error_cmp};
ghost use Rattle.cedar_types.specs.Errors.{finding_of};
ghost use Rattle.cedar_types.specs.Extensions.Functions.{table_fault};
ghost use Rattle.cedar_types.specs.Extensions.{functions_of};
ghost use Rattle.cedar_types.specs.declared.base.errors.validation_errors.ValidationError.{ValidationError};
ghost use Rattle.cedar_types.specs.declared.base.names.Name.{Name};
ghost use Rattle.cedar_types.specs.declared.base.names.entities.EntityType.{EntityType};
ghost use Rattle.cedar_types.specs.declared.base.names.entities.EntityUID.{EntityUID};

use crate::base::expressions::extensions::ExtensionSchemas;

/// Names, entity types and entity ids are equal exactly if their texts are, whatever their places.
pub fn equality_of_names()
    ensures names { (x y : Name) → IsTrue (name_eq x y) ↔ (path_of x ≡ path_of y) }
    ensures types { (x y : EntityType) → IsTrue (entity_type_eq x y) ↔ (type_of x ≡ type_of y) }
    ensures ids { (x y : EntityUID) → IsTrue (entity_uid_eq x y) ↔ (uid_of x ≡ uid_of y) }
{}

/// Names and entity types compare by the parts of their path and then by the last part, entity ids
/// by their type and then by the eid, whatever their places.
pub fn order_of_names()
    ensures names { (x y : Name) → name_cmp x y ≡ path_cmp (path_of x) (path_of y) }
    ensures types { (x y : EntityType) → entity_type_cmp x y ≡ path_cmp (type_of x) (type_of y) }
    ensures ids { (x y : EntityUID) → entity_uid_cmp x y ≡ uid_cmp (uid_of x) (uid_of y) }
{}

/// The order of errors is total, and two errors compare as `Equal` exactly if they are one finding.
/// A later version may order errors differently.
pub fn order_of_findings()
    ensures total { IsTotalOrder error_cmp }
    ensures ties { (x y : ValidationError)
        → IsTrue (is_eq (error_cmp x y)) ↔ (finding_of x ≡ finding_of y) }
{}

/// A table of extension functions has no fault, whatever its checks mean.
pub fn extension_tables_are_faultless<C>(s: &ExtensionSchemas<C>)
    ensures { (meaning : _) → table_fault (functions_of meaning s.now) ≡ None }
{}
