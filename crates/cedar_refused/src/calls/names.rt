// Makers of names, ids and literals from texts.
use crate::calls::lines::{Probe, Trial};
use crate::outcomes::{Outcome, finish};
use crate::refusals::refuse;
use crate::samples::texts::entity_type;
use cedar_types::base::{AttrChain, EntityUID, Literal, Name, PolicyID};
use std::alloc::{AllocError, Global};

/// Makers from texts.
#[derive(Clone, Copy)]
pub enum OfTexts {
    Unqualified,
    Qualified,
    Chain,
    Literal,
    Uid,
    PolicyId,
}

impl Probe for OfTexts {
    fn run(self, alloc: Global, trial: Trial<'_>) -> Result<Outcome, AllocError> {
        let user = entity_type(alloc, "User")?;
        refuse(alloc, trial.number);
        match self {
            OfTexts::Unqualified => finish(alloc, Name::unqualified_name(alloc, "User"), &()),
            OfTexts::Qualified => finish(alloc, Name::new(alloc, "User", &["A", "B"]), &()),
            OfTexts::Chain => finish(alloc, AttrChain::new(alloc, "a", &["b", "c"]), &()),
            OfTexts::Literal => finish(alloc, Literal::from_string(alloc, "text"), &()),
            OfTexts::Uid => {
                let uid = EntityUID::from_components(alloc, user, "id", None);
                finish(alloc, uid, &())
            }
            OfTexts::PolicyId => finish(alloc, PolicyID::from_string(alloc, "policy0"), &()),
        }
    }
}

/// Makers from texts.
pub const NAMES: [(OfTexts, &str); 6] = [
    (OfTexts::Unqualified, "Name::unqualified_name | User"),
    (OfTexts::Qualified, "Name::new | User"),
    (OfTexts::Chain, "AttrChain::new | AttrChain"),
    (OfTexts::Literal, "Literal::from_string | String"),
    (OfTexts::Uid, "EntityUID::from_components | EntityUID"),
    (OfTexts::PolicyId, "PolicyID::from_string | policy0"),
];
