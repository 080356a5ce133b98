//! Laws of capabilities and of environments, each on a function that does nothing.
ghost use Rattle.std.specs.Prelude.{◌≡◌, ◌↔◌, IsTrue};
ghost use Rattle.std.specs.Ordering.{is_eq};
ghost use Rattle.cedar_types.specs.Capability.{cap_of, capability_eq, capability_cmp};
ghost use Rattle.cedar_types.specs.Environments.RequestEnvs.{linked, request_in};
ghost use Rattle.std.specs.Prelude.{Option};
ghost use Rattle.cedar_types.specs.declared.base.names.entities.EntityType.{EntityType};
ghost use Rattle.cedar_types.specs.declared.types.capability.digested.Capability.{Capability};
ghost use Rattle.cedar_types.specs.declared.types.request_env.RequestEnv.{RequestEnv};
ghost use Rattle.cedar_types.specs.declared.types.request_env.RequestEnv.TheVariants.{UndeclaredAction};

/// Capabilities are equal exactly if they know one attribute or tag of one shape, and their order
/// calls equal exactly those.
pub fn comparisons_of_capabilities()
    ensures equality { (c d : Capability) → IsTrue (capability_eq c d) ↔ (cap_of c ≡ cap_of d) }
    ensures order { (c d : Capability) → is_eq (capability_cmp c d) ≡ capability_eq c d }
{}

/// Capabilities of one shape have one digest.
pub fn digests_of_capabilities()
    ensures { (c d : Capability) → cap_of c ≡ cap_of d → c.digest ≡ d.digest }
{}

/// Linking replaces an earlier linking, the request type does not depend on slots, and the
/// environment of undeclared actions stays as it is.
pub fn linking_of_slots()
    ensures twice { (e : RequestEnv) (p q r s : Option EntityType)
        → linked (linked e p q) r s ≡ linked e r s }
    ensures requests { (e : RequestEnv) (p q : Option EntityType)
        → request_in (linked e p q) ≡ request_in e }
    ensures undeclared { (p q : Option EntityType)
        → linked UndeclaredAction p q ≡ UndeclaredAction }
{}
