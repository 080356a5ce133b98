//! Evaluation and authorisation over the entities that a host loaded: laws, each on a function that
//! does nothing.
ghost use Rattle.cedar_host.specs.LoadedOutcomes.{LoadedGiveTheSame, LoadedRespondTheSame, OnlyLoadedNeedConform};

/// A policy that is accepted for slices of n steps evaluates over the entities that were loaded
/// with the ids of n steps as over the whole store, and an authoriser with such policies gives the
/// same response. For a host that never sees its whole store, the policy does not go wrong over the
/// loaded entities if these conform beside the entries of the actions.
pub fn loaded_is_enough()
    ensures outcomes { LoadedGiveTheSame }
    ensures responses { LoadedRespondTheSame }
    ensures conforming { OnlyLoadedNeedConform }
{}
