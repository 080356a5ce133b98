// Policies of a text.
ghost use Rattle.std.specs.Prelude.{◌≡◌, All, IfOk};
ghost use Rattle.cedar_types.specs.Names.{text_of};

use cedar_host::policy_sets::WrittenPolicy;
use cedar_reading::{Policies, ReadError, ReadPolicy};
use std::alloc::Global;
use std::rc::RcStr;

/// The policies of a text, which they share. The answer is an error if one of them cannot be read, which is the first such
/// fault, or if memory is refused.
pub fn written_policies(alloc: Global, text: &str) -> Result<Vec<WrittenPolicy>, ReadError>
    ensures { IfOk result (λ policies. All (λ p. text_of p.text ≡ text.now) policies.items) }
{
    let shared = RcStr::from_str(alloc, text)?;
    let mut policies = Vec::new(alloc);
    let mut read = Policies::new(alloc, text)?;
    // each policy has at least one byte
    for _ in 0..text.len() {
        let Some(next) = read.next_policy() else {
            return Ok(policies);
        };
        let ReadPolicy { effect, template } = next?;
        let text = shared.clone()?;
        policies.push(WrittenPolicy {
            effect,
            template,
            text,
        })?;
    }
    Ok(policies)
}
