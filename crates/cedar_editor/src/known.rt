// Known policies, by their texts.
ghost use Rattle.std.specs.Prelude.{◌≡◌, string_bytes, IfOk, IfSome, IsTrue};
ghost use Rattle.std.specs.List.{IsAmong};

use crate::documents::PlacedPolicy;
use std::alloc::{AllocError, Global};
use std::collections::HashMap;

/// The number of texts up to which the known policies are looked through for each.
const FEW: usize = 8;

/// Known policies, among which some are looked for by their texts.
#[derive(Drop)]
pub struct Known<'a> {
    policies: &'a [PlacedPolicy],
    /// The number of a policy with each text, if many texts are looked for.
    numbers: Option<HashMap<&'a str, usize>>,
}

impl<'a> Known<'a> {
    /// Known policies, among which so many texts are looked for.
    pub fn new(
        alloc: Global,
        policies: &'a [PlacedPolicy],
        wanted: usize,
    ) -> Result<Known<'a>, AllocError>
        ensures { IfOk result (λ known. known.policies.now ≡ policies.now) }
    {
        if wanted <= FEW {
            return Ok(Known {
                policies,
                numbers: None,
            });
        }
        let mut numbers = HashMap::with_capacity(alloc, policies.len())?;
        for (number, placed) in policies.iter().enumerate() {
            numbers.insert(placed.policy.text.as_str(), number)?;
        }
        Ok(Known {
            policies,
            numbers: Some(numbers),
        })
    }

    /// A known policy with this text, if there is one.
    pub fn with_text(&self, own: &str) -> Option<&PlacedPolicy>
        ensures among { IfSome result (λ placed. IsAmong self.now.policies.now placed.now) }
        ensures text { IfSome result (λ placed.
            string_bytes placed.now.policy.value.text ≡ own.now) }
    {
        let Some(numbers) = &self.numbers else {
            return first_with(self.policies, own);
        };
        let number = *numbers.get(own)?;
        if self.policies.len() <= number {
            return None;
        }
        let placed = &self.policies[number];
        if has_text(placed, own) {
            Some(placed)
        } else {
            None
        }
    }
}

/// The first of these policies with this text, if there is one.
fn first_with<'a>(policies: &'a [PlacedPolicy], own: &str) -> Option<&'a PlacedPolicy>
    ensures among { IfSome result (λ placed. IsAmong policies.now placed.now) }
    ensures text { IfSome result (λ placed.
        string_bytes placed.now.policy.value.text ≡ own.now) }
{
    for placed in policies {
        if has_text(placed, own) {
            return Some(placed);
        }
    }
    None
}

/// Whether a policy has this text.
fn has_text(placed: &PlacedPolicy, own: &str) -> bool
    ensures { IsTrue result → string_bytes placed.now.policy.value.text ≡ own.now }
{
    placed.policy.text.as_str() == own
}
