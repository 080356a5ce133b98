// Policies as texts in Cedar's layout, and the law of formatting.
ghost use Rattle.std.specs.Prelude.{◌≡◌, string_bytes, IfOk, IsTrue, ◌↔◌};
ghost use Rattle.cedar_types.specs.Names.{text_of};
ghost use Rattle.cedar_writing.specs.Pieces.{one_a_line};
ghost use Rattle.cedar_writing.specs.Policies.{form_of};

use crate::faults::FormatFault;
use crate::layouts::laid_out;
use crate::lines::{are_equal, one_a_line};
use crate::settings::Layout;
use cedar_reading::{Policies, ReadError, ReadPolicy};
use cedar_types::base::{Effect, PolicyID, Template};
use std::alloc::{AllocError, Global};

/// A policy as the reader answers it for the text that was formatted, and for the formatted text.
/// Both have one effect, one id, and one whole condition, scope included, places apart.
#[derive(Drop)]
pub struct Kept {
    pub before: ReadPolicy,
    pub after: ReadPolicy,
    ghost same_effect: { ∥ after.effect ≡ before.effect ∥₁ },
    ghost same_id: { ∥ text_of after.template.id.text ≡ text_of before.template.id.text ∥₁ },
    ghost same_condition: { ∥ form_of after.template ≡ form_of before.template ∥₁ },
}

/// The law that both policies have one effect (clause `effect`), one id (clause `id`) and one whole
/// condition, scope included (clause `condition`), wherever their parts stand.
pub fn both_say_the_same(kept: &Kept)
    ensures effect { ∥ kept.now.after.effect ≡ kept.now.before.effect ∥₁ }
    ensures id { ∥ text_of kept.now.after.template.id.text
        ≡ text_of kept.now.before.template.id.text ∥₁ }
    ensures condition { ∥ form_of kept.now.after.template
        ≡ form_of kept.now.before.template ∥₁ }
{}

/// A text of policies in Cedar's layout.
#[derive(Drop)]
pub struct Formatted {
    pub text: String,
    /// The policies of both texts, in their order.
    pub policies: Vec<Kept>,
}

/// Formats a text of policies and templates.
///
/// The answer's text has the tokens and the comments of `text`, in their order; only blanks,
/// parentheses and commas may differ (clause `pieces`). So annotations, names and literals are the
/// same, byte for byte. Each policy of the answer's text is the policy that stood there, as far as
/// the reader says (`both_say_the_same`): no clause says what it reads. Parentheses stand exactly where
/// precedence asks for them.
///
/// It fails if the text cannot be read, with its first fault; if a blank outside of ASCII stands
/// between two tokens; if the formatted text is too long; and if memory is refused. With
/// `FormatFault::Changed` it fails if the law would be broken.
pub fn format_policies(alloc: Global, text: &str, layout: Layout) -> Result<Formatted, FormatFault>
    ensures pieces { IfOk result (λ f. one_a_line (string_bytes f.text) ≡ one_a_line text.now) }
{
    let before = all_policies(alloc, text)?;
    let formatted = laid_out(alloc, text, layout)?;
    let policies = compared(alloc, before, formatted.as_str())?;
    let old = one_a_line(alloc, text)?;
    let new = one_a_line(alloc, formatted.as_str())?;
    if !are_equal(&new, &old) {
        return Err(FormatFault::Changed);
    }
    Ok(Formatted {
        text: formatted,
        policies,
    })
}

/// The policies of a text. It fails at the first fault.
fn all_policies(alloc: Global, text: &str) -> Result<Vec<ReadPolicy>, FormatFault> {
    let mut reader = Policies::new(alloc, text)?;
    let mut policies = Vec::new(alloc);
    for _ in 0..=text.len() {
        match reader.next_policy() {
            Some(read) => policies.push(read?)?,
            None => break,
        }
    }
    Ok(policies)
}

/// These policies with those of the formatted text. It fails if they do not say the same.
fn compared(
    alloc: Global,
    before: Vec<ReadPolicy>,
    formatted: &str,
) -> Result<Vec<Kept>, FormatFault> {
    let mut reader = Policies::new(alloc, formatted)?;
    let mut policies = Vec::with_capacity(alloc, before.len())?;
    for old in before {
        let Some(new) = reader.next_policy() else {
            return Err(FormatFault::Changed);
        };
        policies.push(compared_policy(alloc, old, as_changed(new)?)?)?;
    }
    match reader.next_policy() {
        None => Ok(policies),
        Some(_) => Err(FormatFault::Changed),
    }
}

/// A policy of the formatted text: a fault in it means that the text was changed.
fn as_changed(read: Result<ReadPolicy, ReadError>) -> Result<ReadPolicy, FormatFault> {
    match read {
        Ok(policy) => Ok(policy),
        Err(ReadError::Memory(error)) => Err(FormatFault::Memory(error)),
        Err(ReadError::At(_, _)) => Err(FormatFault::Changed),
    }
}

/// Both policies. It fails if they do not say the same.
fn compared_policy(
    alloc: Global,
    before: ReadPolicy,
    after: ReadPolicy,
) -> Result<Kept, FormatFault> {
    if !is_effect(after.effect, before.effect) {
        return Err(FormatFault::Changed);
    }
    if !is_id(&after.template.id, &before.template.id) {
        return Err(FormatFault::Changed);
    }
    if !has_condition_of(alloc, &after.template, &before.template)? {
        return Err(FormatFault::Changed);
    }
    Ok(Kept { before, after })
}

fn is_effect(effect: Effect, other: Effect) -> bool
    ensures { IsTrue result ↔ (effect ≡ other) }
{
    effect == other
}

fn is_id(id: &PolicyID, other: &PolicyID) -> bool
    ensures { IsTrue result ↔ (text_of id.now.text ≡ text_of other.now.text) }
{
    id.text.as_str() == other.text.as_str()
}

/// Whether two policies have one condition, scope included, wherever its parts stand.
fn has_condition_of(alloc: Global, policy: &Template, other: &Template) -> Result<bool, AllocError>
    ensures { IfOk result (λ same. IsTrue same ↔ (form_of policy.now ≡ form_of other.now)) }
{
    let own = policy.condition(alloc)?;
    let wanted = other.condition(alloc)?;
    let same = own.has_shape_of(&wanted);
    Ok(same)
}
