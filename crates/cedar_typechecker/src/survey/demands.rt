// The level errors and the required level of a policy, from its demands.
ghost use Rattle.std.specs.Prelude.{◌≡◌, ◌↔◌, Some, option_map, IfOk, OnOk};
ghost use Rattle.std.specs.Ordering.{eq_by_cmp};
ghost use Rattle.std.specs.Set.{IsUnion};
ghost use Rattle.cedar_types.specs.Errors.{Finding};
ghost use Rattle.cedar_types.specs.Names.{text_of};
ghost use Rattle.cedar_typing.specs.Evaluation.Conformance.{IsOneOf};
ghost use Rattle.cedar_typechecker.specs.Levels.Demands.{told};
ghost use Rattle.cedar_typechecker.specs.Levels.Views.{need_of, demands_of, findings};
ghost use Rattle.cedar_typechecker.specs.Surveys.{raise, raise_all, of_32_bits};

use crate::level_validate::demands::{Demand, Need};
use cedar_types::base::{EntityDerefLevel, PolicyID, ValidationError};
use std::alloc::{AllocError, Global};
use std::collections::BTreeSet;

/// The errors of demands that are not met at a maximum, each once.
pub(crate) fn errors_at(
    alloc: Global,
    demands: &BTreeSet<Demand>,
    maximum: u32,
    policy_id: &PolicyID,
) -> Result<BTreeSet<ValidationError>, AllocError>
    ensures { IfOk result (λ errors. (e : Finding)
        → IsOneOf e (findings errors.keys)
        ↔ IsOneOf e (told (text_of policy_id.now.text) maximum (demands_of demands.now.keys))) }
{
    let mut found = Vec::new(alloc);
    for demand in demands {
        if let Some(error) = demand.error_at(maximum, policy_id)? {
            found.push(error)?;
        }
    }
    let mut errors = BTreeSet::new(alloc);
    insert_all(&mut errors, found)?;
    Ok(errors)
}

/// The least level that meets all demands, if it is a number of 32 bits.
pub(crate) fn least_level(demands: &BTreeSet<Demand>) -> Option<EntityDerefLevel>
    ensures { option_map (λ l. l.level) result
        ≡ of_32_bits (raise_all (demands_of demands.now.keys) (Some 0)) }
{
    let mut least = Some(0);
    for demand in demands {
        least = raise(demand.need, least);
    }
    of_32_bits(least)
}

fn raise(need: Need, least: Option<u64>) -> Option<u64>
    ensures { result ≡ raise (need_of need) least }
{
    match (need, least) {
        (Need::Level(level), Some(least)) => Some(least.max(level)),
        (Need::Level(_), None) => None,
        (Need::NoLiteral, _) => None,
        (Need::Rule, _) => None,
    }
}

/// The level, if it is a number of 32 bits.
fn of_32_bits(least: Option<u64>) -> Option<EntityDerefLevel>
    ensures { option_map (λ l. l.level) result ≡ of_32_bits least }
{
    match least {
        Some(least) => match u32::try_from(least) {
            Ok(level) => Some(EntityDerefLevel { level }),
            Err(_) => None,
        },
        None => None,
    }
}

/// Puts each of these into the set.
pub(crate) fn insert_all<E: Ord + Drop>(
    set: &mut BTreeSet<E>,
    found: Vec<E>,
) -> Result<(), AllocError>
    ensures { OnOk result (
        IsUnion (eq_by_cmp E.cmp) set.old.keys found.items set.new.keys) }
{
    for x in found {
        set.insert(x)?;
    }
    Ok(())
}
