// The rule of extended `has`, `base has x.y.z`: one step for each attribute.
ghost use Rattle.std.specs.Prelude.{◌≡◌, ◌||◌, is_some, IfOk, option_map};
ghost use Rattle.cedar_types.specs.Capability.{caps_so_far, cap_of};
ghost use Rattle.cedar_types.specs.ChainSteps.{step_attr, step_written};
ghost use Rattle.cedar_types.specs.Types.Lookups.{attribute_type};
ghost use Rattle.cedar_types.specs.Names.{text_of};
ghost use Rattle.cedar_types.specs.Types.{ty_of};
ghost use Rattle.cedar_types.specs.Expressions.View.{chain_of, written};
ghost use Rattle.cedar_typing.specs.Capabilities.{union};
ghost use Rattle.cedar_typing.specs.Rules.Attributes.{attribute_of, get_decides};
ghost use Rattle.cedar_typing.specs.Rules.Chains.{no_steps, step_type, step_earns, with_step, step, end_of_chain, link, after_access, chain_table};
ghost use Rattle.cedar_typing.specs.Views.{env_at, decision_of, progress_of, by_step, by_link, KnowsAfter};
ghost use Rattle.cedar_typing.specs.Capabilities.Priors.{known_in};

use crate::typecheck::operands::Expected;
use crate::typecheck::prior::Prior;
use crate::typecheck::rules::attributes::declared_type;
use crate::typecheck::rules::eager::{Decision, gives, refuses_with};
use crate::typecheck::rules::leaves::bool_type;
use crate::typecheck::type_env::TypeEnv;
use crate::typecheck::type_tests::{any_bool, is_false_type, is_object_type, is_true_type};
use cedar_types::base::{AttrChain, BoolType, CedarType, Expr, Loc};
use cedar_types::types::capability::{Capability, CapabilitySetBuilder, ChainStep};
use std::alloc::{AllocError, Global};
use std::rc::RcStr;

/// The progress of a chain: the knowledge that its steps so far have given.
#[derive(Drop)]
pub(crate) struct Progress<'a> {
    /// The capabilities that the steps earned. We make one set of them at the end, because each insertion into a set moves
    /// the elements above it.
    earned: CapabilitySetBuilder<'a>,
    /// Whether each step so far is True.
    all_true: bool,
}

/// The result of a step.
#[derive(Drop)]
pub(crate) enum Step<'a> {
    /// The chain ends with the step.
    Ends(Decision<'a>),
    /// The chain goes on, with its progress, and with whether the attribute is now known to be there.
    GoesOn(Progress<'a>, bool),
}

/// The result of a step and of the access after it.
#[derive(Drop)]
pub(crate) enum Link<'a> {
    /// The chain ends with the step, or with the access.
    Ends(Decision<'a>),
    /// The chain goes on, with the type of the access, and with its progress.
    GoesOn(CedarType, Progress<'a>),
}

impl<'a> Progress<'a> {
    /// The progress before the first step. It takes no memory.
    fn none(alloc: Global) -> Progress<'a>
        ensures { progress_of result ≡ no_steps }
    {
        Progress {
            earned: CapabilitySetBuilder::new(alloc),
            all_true: true,
        }
    }

    /// The progress with a further step of this type. The step earns that its attribute is there, if the attribute is
    /// declared and the step is not True.
    fn with(
        self,
        ty: &CedarType,
        is_declared: bool,
        there: Capability<'a>,
    ) -> Result<Progress<'a>, AllocError>
        ensures { (a : _) → is_some a ≡ is_declared → IfOk result (λ r.
            progress_of r
            ≡ with_step (progress_of self.entry) (ty_of ty.now)
            (step_earns (ty_of ty.now) (cap_of there.entry) a)) }
    {
        let is_true = is_true_type(ty);
        let all_true = self.all_true & is_true;
        let mut earned = self.earned;
        // a True step earns nothing, because its attribute is known to be there already, or needs no guard
        if is_declared & !is_true {
            earned.insert(there)?;
            return Ok(Progress { earned, all_true });
        }
        Ok(Progress { earned, all_true })
    }

    /// The decision at the end of a chain: True if each step is True, otherwise Bool, with all that the steps earned.
    fn end(self, alloc: Global) -> Result<Decision<'a>, AllocError>
        ensures { IfOk result (λ d. decision_of d ≡ end_of_chain (progress_of self.entry)) }
    {
        let earned = self.earned.build(alloc)?;
        if self.all_true {
            return Ok(Decision::Gives(CedarType::Bool(BoolType::True), earned));
        }
        Ok(Decision::Gives(any_bool(), earned))
    }
}

/// Whether the attribute is known to be there, from before the chain or from an earlier step.
fn knows<'a>(prior: &Prior<'_, 'a>, progress: &Progress<'a>, there: &Capability<'a>) -> bool
    ensures { result
        ≡ union (known_in prior.now) (caps_so_far progress.now.earned) (cap_of there.now) }
{
    prior.contains(there) | progress.earned.contains(there)
}

/// Whether the attribute is known to be there after a step: it was known before, or the step earns it.
fn knows_after(is_known: bool, ty: &CedarType, is_declared: bool) -> bool
    ensures { (a : _) → is_some a ≡ is_declared → (there : _)
        → result ≡ (is_known || step_earns (ty_of ty.now) there a there) }
{
    is_known | (is_declared & !is_true_type(ty))
}

impl TypeEnv<'_, '_, '_, '_> {
    /// The decision on `base has x.y` by the base's type. Errors of the first attribute stand at the base, those of later
    /// ones at `loc`.
    pub(crate) fn decide_chain<'a>(
        &self,
        prior: &Prior<'_, 'a>,
        loc: Option<Loc>,
        base: &'a Expr,
        attrs: &'a AttrChain,
        found: &Option<CedarType>,
    ) -> Result<Decision<'a>, AllocError>
        ensures { IfOk result (λ d. decision_of d
            ≡ chain_table (env_at self.now) loc (known_in prior.now) (written base.now)
            (chain_of attrs.now).0 (chain_of attrs.now).1 (option_map ty_of found.now)) }
    {
        // a base without a type has failed already, and the test is still a Boolean
        let Some(found) = found else {
            return Ok(Decision::Refuses(Some(any_bool()), Vec::new(self.alloc)));
        };
        let mut ty = found.clone()?;
        let mut place = base.loc;
        let mut at = ChainStep::first(base, attrs);
        let mut progress = Progress::none(self.alloc);
        while let Some(next) = at.next() {
            match self.link(prior, place, &at, &ty, progress)? {
                Link::Ends(decision) => return Ok(decision),
                Link::GoesOn(there, now) => {
                    ty = there;
                    progress = now;
                }
            }
            at = next;
            // the accesses behind the first attribute have no text of their own, so their errors stand at the whole
            place = loc;
        }
        self.last_step(prior, place, &at, &ty, progress)
    }

    /// The decision on the last step, with errors at `place`.
    fn last_step<'a>(
        &self,
        prior: &Prior<'_, 'a>,
        place: Option<Loc>,
        at: &ChainStep<'a>,
        ty: &CedarType,
        progress: Progress<'a>,
    ) -> Result<Decision<'a>, AllocError>
        ensures { IfOk result (λ d. decision_of d
            ≡ step (env_at self.now) place (attribute_of (step_written at.now) (step_attr at.now))
            (union (known_in prior.now) (caps_so_far progress.entry.earned)
            (attribute_of (step_written at.now) (step_attr at.now)))
            (ty_of ty.now) (step_attr at.now) (progress_of progress.entry) end_of_chain) }
    {
        match self.step(prior, place, at, ty, progress)? {
            Step::Ends(decision) => Ok(decision),
            Step::GoesOn(progress, _is_known) => {
                // the last attribute is only tested, so no access follows
                let decision = progress.end(self.alloc)?;
                Ok(decision)
            }
        }
    }

    /// The result of a step that is not the last, and of the access after it, with errors at `place`.
    fn link<'a>(
        &self,
        prior: &Prior<'_, 'a>,
        place: Option<Loc>,
        at: &ChainStep<'a>,
        ty: &CedarType,
        progress: Progress<'a>,
    ) -> Result<Link<'a>, AllocError>
        ensures { IfOk result (λ r. (next : _) →
            by_link r next
            ≡ link (env_at self.now) place (known_in prior.now) (step_written at.now) (ty_of ty.now)
            (step_attr at.now) (progress_of progress.entry) next) }
    {
        match self.step(prior, place, at, ty, progress)? {
            Step::Ends(decision) => Ok(Link::Ends(decision)),
            Step::GoesOn(progress, is_known) => {
                // the access may use the capability that its own step has earned
                let link = self.access(place, at.attr(), ty, is_known, progress)?;
                Ok(link)
            }
        }
    }

    /// The result of the access after a step, with errors at `place`. An access that fails ends the chain.
    fn access<'a>(
        &self,
        place: Option<Loc>,
        attr: &RcStr,
        ty: &CedarType,
        is_known: bool,
        progress: Progress<'a>,
    ) -> Result<Link<'a>, AllocError>
        ensures { IfOk result (λ r. (next : _) →
            by_link r next
            ≡ after_access
            (get_decides (env_at self.now) place (text_of attr.now) is_known
            (ty_of ty.now) (attribute_type (env_at self.now).schema (ty_of ty.now)
            (text_of attr.now)))
            (λ t. next t (progress_of progress.entry))) }
    {
        match self.decide_access(place, attr, ty, is_known)? {
            Decision::Gives(ty, _capabilities) => Ok(Link::GoesOn(ty, progress)),
            // the chain is a test, so it is a Boolean even if an access fails
            Decision::Refuses(_ty, errors) => {
                Ok(Link::Ends(Decision::Refuses(Some(any_bool()), errors)))
            }
        }
    }

    /// The result of one step, with its error at `place`. An operand that is neither a record nor an entity ends the
    /// chain.
    fn step<'a>(
        &self,
        prior: &Prior<'_, 'a>,
        place: Option<Loc>,
        at: &ChainStep<'a>,
        ty: &CedarType,
        progress: Progress<'a>,
    ) -> Result<Step<'a>, AllocError>
        ensures decides { IfOk result (λ r. (next : _) →
            by_step r next
            ≡ step (env_at self.now) place (attribute_of (step_written at.now) (step_attr at.now))
            (union (known_in prior.now) (caps_so_far progress.entry.earned)
            (attribute_of (step_written at.now) (step_attr at.now)))
            (ty_of ty.now) (step_attr at.now) (progress_of progress.entry) next) }
        ensures knows { IfOk result (λ r.
            KnowsAfter (known_in prior.now) (attribute_of (step_written at.now) (step_attr at.now))
            r) }
    {
        if !is_object_type(ty) {
            let error = self.unexpected(Expected::Object, place, ty)?;
            return Ok(Step::Ends(refuses_with(self.alloc, Some(any_bool()), error)?));
        }
        let there = at.capability()?;
        let attr = at.attr();
        let is_known = knows(prior, &progress, &there);
        let required = self.required(ty, attr)?;
        let is_declared = required.is_some();
        let step_ty = self.step_type(ty, attr, required, is_known);
        // the steps behind a False one are never evaluated, so they are not typed
        if is_false_type(&step_ty) {
            return Ok(Step::Ends(gives(self.alloc, bool_type(false))));
        }
        let is_known = knows_after(is_known, &step_ty, is_declared);
        let progress = progress.with(&step_ty, is_declared, there)?;
        Ok(Step::GoesOn(progress, is_known))
    }

    /// The type of a step, by whether the type requires the attribute, if it declares it, and by whether it is known to be
    /// there.
    fn step_type(
        &self,
        owner: &CedarType,
        attr: &RcStr,
        required: Option<bool>,
        is_known: bool,
    ) -> CedarType
        ensures { (a : _) → option_map (λ t. t.1) a ≡ required
            → ty_of result ≡ step_type (env_at self.now) (ty_of owner.now) (text_of attr.now)
            is_known a }
    {
        match required {
            Some(is_required) => declared_type(owner, is_required, is_known),
            None => self.undeclared_type(owner, attr),
        }
    }
}
