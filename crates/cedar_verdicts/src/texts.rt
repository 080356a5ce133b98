//! Verdicts on the policies of a text, one after another.
ghost use Rattle.std.specs.Prelude.{◌≡◌, ◌<◌, false, None, IfOk, IfSome};
ghost use Rattle.cedar_types.specs.Names.{Text};
ghost use Rattle.cedar_verdicts.specs.Ids.{has_id};
ghost use Rattle.cedar_verdicts.specs.Reading.{IsBegun, IsReadOn};
ghost use Rattle.cedar_verdicts.specs.Texts.{faults_after, AreIdsAfter, IsRightSaid, IsSaidOf, IsWholeSaid};
ghost use Rattle.cedar_verdicts.specs.Verdicts.{basis_of};

use crate::policies::{Policies, Read};
use crate::sets::SetJudge;
use crate::settings::Settings;
use cedar_findings::faults::TextFault;
use cedar_findings::findings::Verdict;
use cedar_findings::syntaxes::Syntax;
use cedar_types::base::{ArgumentCheck, ExtensionSchemas, Template};
use std::alloc::{AllocError, Global};

/// The number of faults of a text that are told.
pub const MAX_FAULTS: u64 = 100;

/// A text of policies, and its syntax.
#[derive(Clone, Copy)]
pub struct PolicyText<'a> {
    text: &'a str,
    syntax: Syntax,
}

impl<'a> PolicyText<'a> {
    /// A text in this syntax, or in the one that its first characters tell.
    pub fn new(syntax: Option<Syntax>, text: &'a str) -> PolicyText<'a> {
        let syntax = syntax.unwrap_or(Syntax::of(text));
        PolicyText { text, syntax }
    }

    /// Whether the text is JSON. The policies of JSON do not come in the order of their places.
    pub fn is_json(&self) -> bool {
        self.syntax == Syntax::Json
    }

    /// The verdicts on the text's policies, none judged yet, or the fault of the whole text. Calls in the policies are of
    /// Cedar's functions, or of this table.
    pub fn verdicts<C>(
        &self,
        alloc: Global,
        functions: &ExtensionSchemas<C>,
    ) -> Result<Result<PolicyVerdicts<'a>, TextFault>, AllocError>
        ensures ids { IfOk result (λ said. IfOk said (λ verdicts.
            (t : Text) → has_id verdicts.judge.ids t ≡ false)) }
        ensures faults { IfOk result (λ said. IfOk said (λ verdicts. verdicts.faults ≡ 0)) }
        ensures begun { IfOk result (λ said. IfOk said (λ verdicts. IsBegun verdicts.policies)) }
    {
        let policies = match self.syntax {
            Syntax::Cedar => Policies::of_text(alloc, functions, self.text)?,
            Syntax::Json => Policies::of_json(alloc, functions, self.text)?,
        };
        match policies {
            Ok(policies) => {
                let judge = SetJudge::new(alloc, self.text, policies.examples());
                Ok(Ok(PolicyVerdicts {
                    policies,
                    judge,
                    faults: 0,
                    is_cut: false,
                }))
            }
            Err(fault) => Ok(Err(fault)),
        }
    }
}

/// The answer on the next policy of a text.
#[derive(Drop)]
pub enum Said {
    /// A policy, and its verdict.
    Verdict(Template, Verdict),
    /// The fault of a policy that cannot be read.
    Fault(TextFault),
}

/// The verdicts on the policies of a text, in its order.
#[derive(Drop)]
pub struct PolicyVerdicts<'a> {
    policies: Policies<'a>,
    judge: SetJudge<'a>,
    faults: u64,
    is_cut: bool,
}

impl PolicyVerdicts<'_> {
    /// An upper bound on the number of answers.
    pub fn most(&self) -> usize {
        self.policies.most()
    }

    /// Whether the rest of the text was not read, because the text has `MAX_FAULTS` faults.
    pub fn is_cut(&self) -> bool {
        self.is_cut
    }

    /// The answer on the next policy; `None` if there is none, or the rest is not read. Each policy of the text, read or not,
    /// gets one answer in its order: the answer is on the next policy (clause `each`), and then the policy behind is next
    /// (clause `in_order`). `None` means that no policy is left, or that a hundred faults were told (clauses `none_left` and
    /// `counted`). A verdict is as right as one of `judge` (clause `right`), and a policy is refused if one before it has its
    /// id (clauses `whole` and `taken`).
    pub fn next_said<C: ArgumentCheck>(
        &mut self,
        alloc: Global,
        settings: &Settings<'_, C>,
    ) -> Result<Option<Said>, AllocError>
        ensures each { IfOk result (λ said. IfSome said (IsSaidOf self.old.policies.next)) }
        ensures none_left { IfOk result (λ said.
            said ≡ None → self.old.faults < 100 → self.old.policies.next ≡ None) }
        ensures in_order { IfOk result (λ said.
            IfSome said (λ s. IsReadOn self.old.policies self.new.policies)) }
        ensures counted { IfOk result (λ said.
            self.new.faults ≡ faults_after self.old.faults said) }
        ensures right { IfOk result (λ said. IfSome said
            (IsRightSaid (basis_of C.refusal settings.now) settings.now.level)) }
        ensures whole { IfOk result (λ said. IfSome said
            (IsWholeSaid (basis_of C.refusal settings.now) settings.now.level self.old.judge.ids)) }
        ensures taken { IfOk result (AreIdsAfter self.old.judge.ids self.new.judge.ids) }
    {
        let functions = settings.validator.extensions();
        let Some(read) = self.policies.give(alloc, functions)? else {
            return Ok(None);
        };
        // the text is cut only if a policy is left, because a text with just a hundred faults is read as a whole
        if self.faults >= MAX_FAULTS {
            self.is_cut = true;
            return Ok(None);
        }
        match read {
            Read::Policy(policy, marks) => {
                let marks = marks.as_slice();
                let verdict = self.judge.judge_marked(alloc, settings, &policy, marks)?;
                Ok(Some(Said::Verdict(policy, verdict)))
            }
            Read::Fault(fault) => {
                self.faults += 1;
                Ok(Some(Said::Fault(fault)))
            }
        }
    }
}
