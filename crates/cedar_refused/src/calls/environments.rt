// Walks over a template's environments, by themselves and with their checks. A step may take memory.
use crate::calls::walks::{Steps, attempt_walk, walk_all};
use crate::pictures::picture;
use crate::sweep::{ANOTHER_POLICY, Attempt, Call, Question, attempt_question};
use cedar_types::base::{Template, ValidationMode, ValidatorSchema};
use cedar_types::types::linked_envs::LinkedRequestEnvs;
use cedar_types::types::request_env::RequestEnv;
use cedar_typing::typecheck::{PolicyCheck, RequestEnvChecks, Typechecker};
use std::alloc::{AllocError, Global};

/// The mode of these walks.
pub const MODE: ValidationMode = ValidationMode::Partial;

/// A template by a schema, and the number of its environments. The checker is by this schema too, in the mode of these walks.
#[derive(Clone, Copy)]
pub struct Walk<'a> {
    pub schema: &'a ValidatorSchema,
    pub checker: &'a Typechecker<'a>,
    pub policy: &'a Template,
    pub environments: usize,
}

/// The calls of a walk.
#[derive(Clone, Copy)]
pub enum OfWalk {
    /// `ValidatorSchema::linked_request_envs` by itself.
    MakesLinked,
    /// Each step of the answer of `linked_request_envs`.
    WalksLinked,
    /// `Typechecker::typecheck_by_request_env` by itself.
    MakesChecks,
    /// Each step of the answer of `typecheck_by_request_env`.
    WalksChecks,
    /// Each step of `RequestEnvChecks::next_env`.
    WalksNext,
    /// `RequestEnvChecks::check` in the environment of undeclared actions, of checks that are made for it.
    ChecksOne,
}

/// A call on a template, which it leaves as it is.
#[derive(Clone, Copy)]
pub struct WalkCall<'a> {
    pub walk: Walk<'a>,
    pub called: OfWalk,
}

/// The question that calls only `ValidatorSchema::linked_request_envs`.
#[derive(Clone, Copy)]
struct LinkedMaking<'a>(Walk<'a>);

/// The question that calls only `Typechecker::typecheck_by_request_env`.
#[derive(Clone, Copy)]
struct ChecksMaking<'a>(Walk<'a>);

/// The question that calls only `RequestEnvChecks::check`.
#[derive(Clone, Copy)]
struct OneCheck<'a>(Walk<'a>);

impl Call for WalkCall<'_> {
    fn attempt(&self, alloc: Global, number: u16) -> Result<Attempt, AllocError> {
        let (walk, policy) = (self.walk, self.walk.policy);
        let before = picture(alloc, policy)?;
        let attempt = match self.called {
            OfWalk::MakesLinked => attempt_question(alloc, &LinkedMaking(walk), number)?,
            OfWalk::WalksLinked => walk_linked(alloc, walk, number)?,
            OfWalk::MakesChecks => attempt_question(alloc, &ChecksMaking(walk), number)?,
            OfWalk::WalksChecks => walk_checks(alloc, walk, number)?,
            OfWalk::WalksNext => walk_next(alloc, walk, number)?,
            OfWalk::ChecksOne => attempt_question(alloc, &OneCheck(walk), number)?,
        };
        Ok(attempt.only_if(picture(alloc, policy)? == before, ANOTHER_POLICY))
    }
}

fn walk_linked(alloc: Global, walk: Walk<'_>, number: u16) -> Result<Attempt, AllocError> {
    let (schema, policy) = (walk.schema, walk.policy);
    let walks = (
        schema.linked_request_envs(alloc, MODE, policy)?,
        schema.linked_request_envs(alloc, MODE, policy)?,
        schema.linked_request_envs(alloc, MODE, policy)?,
    );
    attempt_walk(alloc, walks, walk.environments, number)
}

fn walk_checks(alloc: Global, walk: Walk<'_>, number: u16) -> Result<Attempt, AllocError> {
    let (checker, policy) = (walk.checker, walk.policy);
    let walks = (
        checker.typecheck_by_request_env(alloc, policy)?,
        checker.typecheck_by_request_env(alloc, policy)?,
        checker.typecheck_by_request_env(alloc, policy)?,
    );
    attempt_walk(alloc, walks, walk.environments, number)
}

fn walk_next(alloc: Global, walk: Walk<'_>, number: u16) -> Result<Attempt, AllocError> {
    let (checker, policy) = (walk.checker, walk.policy);
    let walks = (
        NextEnvs(checker.typecheck_by_request_env(alloc, policy)?),
        NextEnvs(checker.typecheck_by_request_env(alloc, policy)?),
        NextEnvs(checker.typecheck_by_request_env(alloc, policy)?),
    );
    attempt_walk(alloc, walks, walk.environments, number)
}

impl<'a> Question for LinkedMaking<'a> {
    type Answer = LinkedRequestEnvs<'a>;

    fn ask(&self, alloc: Global) -> Result<LinkedRequestEnvs<'a>, AllocError> {
        let LinkedMaking(walk) = self;
        walk.schema.linked_request_envs(alloc, MODE, walk.policy)
    }

    fn show(&self, alloc: Global, answer: LinkedRequestEnvs<'a>) -> Result<String, AllocError> {
        picture(alloc, &walk_all(alloc, answer)?)
    }
}

impl<'a> Question for ChecksMaking<'a> {
    type Answer = RequestEnvChecks<'a>;

    fn ask(&self, alloc: Global) -> Result<RequestEnvChecks<'a>, AllocError> {
        let ChecksMaking(walk) = self;
        walk.checker.typecheck_by_request_env(alloc, walk.policy)
    }

    fn show(&self, alloc: Global, answer: RequestEnvChecks<'a>) -> Result<String, AllocError> {
        picture(alloc, &walk_all(alloc, answer)?)
    }
}

impl Question for OneCheck<'_> {
    type Answer = PolicyCheck;

    fn ask(&self, alloc: Global) -> Result<PolicyCheck, AllocError> {
        let OneCheck(walk) = self;
        let checks = walk.checker.typecheck_by_request_env(alloc, walk.policy)?;
        checks.check(&RequestEnv::UndeclaredAction)
    }

    fn show(&self, alloc: Global, answer: PolicyCheck) -> Result<String, AllocError> {
        picture(alloc, &answer)
    }
}

impl<'a> Steps for LinkedRequestEnvs<'a> {
    type Item = RequestEnv<'a>;

    fn step(&mut self) -> Option<Result<RequestEnv<'a>, AllocError>> {
        self.next()
    }
}

impl<'a> Steps for RequestEnvChecks<'a> {
    type Item = (RequestEnv<'a>, PolicyCheck);

    fn step(&mut self) -> Option<Result<(RequestEnv<'a>, PolicyCheck), AllocError>> {
        self.next()
    }
}

/// The environments of the checks, without the checks.
#[derive(Drop)]
struct NextEnvs<'a>(RequestEnvChecks<'a>);

impl<'a> Steps for NextEnvs<'a> {
    type Item = RequestEnv<'a>;

    fn step(&mut self) -> Option<Result<RequestEnv<'a>, AllocError>> {
        match self.0.next_env() {
            Ok(None) => None,
            Ok(Some(env)) => Some(Ok(env)),
            Err(refused) => Some(Err(refused)),
        }
    }
}
