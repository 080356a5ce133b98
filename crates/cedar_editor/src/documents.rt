//! Texts of policies while they are written. After a change, only the policies that it touches are read and judged again.
ghost use Rattle.std.specs.Prelude.{◌≡◌, ◌↔◌, string_bytes, IfOk, IsTrue, OnErr, OnOk};
ghost use Rattle.cedar_editor.specs.Diagnostics.{place_in};
ghost use Rattle.cedar_editor.specs.Documents.{AllStandIn, AreRightlySaidBy, EndsBy, KeepThePromise};
ghost use Rattle.cedar_editor.specs.Edits.{AreEdited, IsChange, IsSpliced};
ghost use Rattle.cedar_editor.specs.Lines.{line_starts};

use crate::changes::{Touched, add_policies, keep_after, keep_before, read_touched};
use crate::checks::CheckedPolicy;
use crate::edits::{Edit, around, difference, edited, joined, only_edit, place_of};
use crate::judges::Judge;
use crate::lines::{Lines, Position, Range};
use crate::windows::{Found, window_of};
use cedar_types::base::{ArgumentCheck, Loc};
use std::alloc::{AllocError, Global};
use std::rc::Rc;

/// A policy, and the byte of its document at which it begins.
#[derive(Drop)]
pub struct PlacedPolicy {
    pub start: usize,
    pub policy: Rc<CheckedPolicy>,
}

impl PlacedPolicy {
    /// The policy, without its place.
    pub fn policy(&self) -> &CheckedPolicy
        ensures { result.now ≡ self.now.policy.value }
    {
        &*self.policy
    }

    /// The byte of the document at which the policy ends.
    pub fn end(&self) -> usize {
        self.start.saturating_add(self.policy.text.len())
    }

    /// Whether the policy ends at a byte of the document or before it.
    pub fn ends_by(&self, byte: usize) -> bool
        ensures { IsTrue result ↔ EndsBy byte self.now }
    {
        match byte.checked_sub(self.start) {
            Some(room) => self.policy.text.len() <= room,
            None => false,
        }
    }

    /// The place in the document of a place of the policy's text.
    pub fn place(&self, own: Loc) -> Loc
        ensures { result ≡ place_in self.now.start own.start own.end }
    {
        Loc {
            start: self.start.saturating_add(own.start),
            end: self.start.saturating_add(own.end),
        }
    }
}

/// A text of policies with the judge of all its verdicts, so that no verdict comes from another schema (`rightly_said`). The lines
/// are those of the text, and the text of each policy stands in it where the policy begins.
#[derive(Drop)]
pub struct PolicyDocument<'e, C: ArgumentCheck> {
    judge: Judge<'e, C>,
    text: String,
    lines: Lines,
    policies: Vec<PlacedPolicy>,
    ghost rightly_said: { ∥ AreRightlySaidBy C.refusal judge policies.items ∥₁ },
    ghost lines_of_text: { lines.starts.items ≡ line_starts (string_bytes text) },
    ghost policies_in_text: { AllStandIn (string_bytes text) policies.items },
}

impl<'e, C: ArgumentCheck> PolicyDocument<'e, C> {
    /// A document of this text, with this judge of its policies. If memory is refused, the answer is an `AllocError`.
    pub fn new(
        alloc: Global,
        judge: Judge<'e, C>,
        text: &str,
    ) -> Result<PolicyDocument<'e, C>, AllocError>
        ensures judge { IfOk result (λ document. document.judge ≡ judge.entry) }
        ensures text { IfOk result (λ document. string_bytes document.text ≡ text.now) }
    {
        let whole = Loc {
            start: 0,
            end: text.len(),
        };
        let window = window_of(alloc, text, whole)?;
        let mut policies = Vec::new(alloc);
        add_policies(alloc, &judge, text, window.found, &[], &mut policies)?;
        Ok(PolicyDocument {
            judge,
            text: String::from_str(alloc, text)?,
            lines: Lines::new(alloc, text)?,
            policies,
        })
    }

    /// The judge of the document's policies.
    pub fn judge(&self) -> &Judge<'e, C>
        ensures { result.now ≡ self.now.judge }
    {
        &self.judge
    }

    /// The text of the document.
    pub fn text(&self) -> &str
        ensures { result.now ≡ string_bytes self.now.text }
    {
        self.text.as_str()
    }

    /// The lines of the document's text.
    pub fn lines(&self) -> &Lines
        ensures { result.now ≡ self.now.lines }
    {
        &self.lines
    }

    /// The policies of the document, in their order.
    pub fn policies(&self) -> &[PlacedPolicy]
        ensures { result.now ≡ self.now.policies.items }
    {
        self.policies.as_slice()
    }

    /// The range of a place of the document.
    pub fn range(&self, place: Loc) -> Range {
        self.lines.range(self.text(), place)
    }

    /// The byte of the document at a position.
    pub fn byte(&self, position: Position) -> usize {
        self.lines.byte(self.text(), position)
    }

    /// The number of the policy at a byte, or of the last one before it.
    pub fn number_at(&self, byte: usize) -> Option<usize> {
        self.policies
            .iter()
            .take_while(|placed| placed.start <= byte)
            .count()
            .checked_sub(1)
    }

    /// The policy at a byte, or the last one before it.
    pub fn policy_at(&self, byte: usize) -> Option<&PlacedPolicy> {
        self.policies.get(self.number_at(byte)?)
    }

    /// Reads and judges each policy again, by another judge, which the document has from now on (clause `judge`). If memory is
    /// refused, the answer is an `AllocError`, and nothing has changed (clause `kept`).
    pub fn judge_all(&mut self, alloc: Global, judge: Judge<'e, C>) -> Result<(), AllocError>
        ensures judge { OnOk result (self.new.judge ≡ judge.entry) }
        ensures text { self.new.text ≡ self.old.text }
        ensures kept { OnErr result ((self.new.judge ≡ self.old.judge)
            × (self.new.policies ≡ self.old.policies)) }
    {
        let found = self.places(alloc)?;
        let mut policies = Vec::new(alloc);
        add_policies(alloc, &judge, self.text.as_str(), found, &[], &mut policies)?;
        self.judge = judge;
        self.policies = policies;
        Ok(())
    }

    /// The places of the policies, each of which is to be read again.
    fn places(&self, alloc: Global) -> Result<Vec<Found>, AllocError> {
        let mut found = Vec::with_capacity(alloc, self.policies.len())?;
        for placed in &self.policies {
            let place = Loc {
                start: placed.start,
                end: placed.end(),
            };
            found.push(Found { place, read: None })?;
        }
        Ok(found)
    }

    /// Changes the text by edits, one after another (clause `text`). The judge stays (clause `judge`), so policies that the edits
    /// do not touch keep their verdicts. If memory is refused, the answer is an `AllocError`, and nothing has changed (clause
    /// `kept`).
    pub fn edit(&mut self, alloc: Global, edits: &[Edit<'_>]) -> Result<(), AllocError>
        ensures text { OnOk result (AreEdited (string_bytes self.old.text) edits.now
            (string_bytes self.new.text)) }
        ensures judge { self.new.judge ≡ self.old.judge }
        ensures kept { OnErr result ((self.new.text ≡ self.old.text)
            × (self.new.policies ≡ self.old.policies)) }
    {
        if let Some((range, text)) = only_edit(edits) {
            let place = place_of(&self.lines, self.text(), range);
            return self.change(alloc, place, text);
        }
        let text = edited(alloc, self.text(), edits)?;
        self.replace(alloc, text.as_str())
    }

    /// Replaces the whole text (clause `text`). Only the part between the beginning and the end that both texts share counts as
    /// changed. The judge stays (clause `judge`). If memory is refused, the answer is an `AllocError`, and nothing has changed
    /// (clause `kept`).
    pub fn replace(&mut self, alloc: Global, text: &str) -> Result<(), AllocError>
        ensures text { OnOk result (string_bytes self.new.text ≡ text.now) }
        ensures judge { self.new.judge ≡ self.old.judge }
        ensures kept { OnErr result ((self.new.text ≡ self.old.text)
            × (self.new.policies ≡ self.old.policies)) }
    {
        let (place, inserted) = difference(self.text.as_str(), text);
        let new = String::from_str(alloc, text)?;
        self.put(alloc, new, place, inserted)
    }

    /// Replaces a part of the text, and nothing if the place is no part of it (clause `text`). The judge stays (clause `judge`):
    /// policies that the change does not touch keep their verdicts, and the others are read and judged again, unless an old
    /// policy has their text. If memory is refused, the answer is an `AllocError`, and nothing has changed (clause `kept`).
    pub fn change(&mut self, alloc: Global, place: Loc, inserted: &str) -> Result<(), AllocError>
        ensures text { OnOk result (IsSpliced (string_bytes self.old.text) place inserted.now
            (string_bytes self.new.text)) }
        ensures judge { self.new.judge ≡ self.old.judge }
        ensures kept { OnErr result ((self.new.text ≡ self.old.text)
            × (self.new.policies ≡ self.old.policies)) }
    {
        let Some((front, behind)) = around(self.text.as_str(), place) else {
            return Ok(());
        };
        let new = joined(alloc, front, inserted, behind)?;
        self.put(alloc, new, place, inserted.len())
    }

    /// Puts a changed text in place of the text. The change put `inserted` bytes in place of a part of it.
    fn put(
        &mut self,
        alloc: Global,
        text: String,
        place: Loc,
        inserted: usize,
    ) -> Result<(), AllocError>
        requires { IsChange (string_bytes self.old.text) place inserted (string_bytes text) }
        ensures text { OnOk result (self.new.text ≡ text) }
        ensures judge { self.new.judge ≡ self.old.judge }
        ensures kept { OnErr result ((self.new.text ≡ self.old.text)
            × (self.new.policies ≡ self.old.policies)) }
    {
        let (lines, policies) = self.behind(alloc, &text, place, inserted)?;
        self.text = text;
        self.lines = lines;
        self.policies = policies;
        Ok(())
    }

    /// The lines and the policies behind a change that leads to this text.
    fn behind(
        &self,
        alloc: Global,
        text: &String,
        place: Loc,
        inserted: usize,
    ) -> Result<(Lines, Vec<PlacedPolicy>), AllocError>
        requires { IsChange (string_bytes self.now.text) place inserted (string_bytes text.now) }
        ensures lines { IfOk result (λ made.
            made.0.starts.items ≡ line_starts (string_bytes text.now)) }
        ensures placed { IfOk result (λ made.
            AllStandIn (string_bytes text.now) made.1.items) }
        ensures right { IfOk result (λ made.
            ∥ AreRightlySaidBy C.refusal self.now.judge made.1.items ∥₁) }
    {
        let new = text.as_str();
        let lines = self.lines.changed(alloc, new, place, inserted)?;
        let old = self.policies.as_slice();
        let Touched { first, last, found } = read_touched(
            alloc,
            old,
            self.text.len(),
            new,
            place,
            inserted,
        )?;
        let mut policies = Vec::with_capacity(alloc, old.len())?;
        keep_before(old, first, &mut policies)?;
        add_policies(alloc, &self.judge, new, found, old, &mut policies)?;
        let new_end = place.start.saturating_add(inserted);
        keep_after(old, last, place.end, new_end, &mut policies)?;
        Ok((lines, policies))
    }
}

/// The law that the policies of a document keep the promise of validation if settings judge them and no error of them is shown.
pub fn silent_policies_keep_the_promise<C: ArgumentCheck>(document: &PolicyDocument<'_, C>)
    ensures { KeepThePromise C.refusal document.now.judge document.now.policies.items }
{}
