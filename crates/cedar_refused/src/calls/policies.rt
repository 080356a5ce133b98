// Checks of a policy in all of its environments, on sets that already hold something.
use crate::pictures::{members, picture};
use crate::refusals::{refuse, was_refused};
use crate::samples::findings::{errors, first_finding, warnings};
use crate::sweep::{ANOTHER_ANSWER, ANOTHER_LATER, ANOTHER_POLICY, Attempt, Call, attempt_of};
use cedar_types::base::{Template, ValidationError, ValidationWarning};
use cedar_typing::typecheck::Typechecker;
use std::alloc::{AllocError, Global};
use std::collections::HashSet;

/// The check of this policy, and the contents of the sets before and after it.
#[derive(Clone, Copy)]
pub struct WholeCheck<'a> {
    pub checker: &'a Typechecker<'a>,
    pub policy: &'a Template,
    /// The number of members that each set holds before.
    pub held: usize,
    /// Whether one of the held errors is one that the check finds.
    pub holds_finding: bool,
    /// The number of errors afterwards.
    pub errors: usize,
}

/// Two sets that are handed in.
#[derive(Drop)]
struct Sets {
    errors: HashSet<ValidationError>,
    warnings: HashSet<ValidationWarning>,
}

impl Sets {
    /// The members of both sets, as a text.
    fn show(&self, alloc: Global) -> Result<String, AllocError> {
        let errors = members(alloc, &self.errors)?;
        let warnings = members(alloc, &self.warnings)?;
        picture(alloc, &(errors, warnings))
    }
}

impl WholeCheck<'_> {
    fn hand_in(&self, alloc: Global) -> Result<Sets, AllocError> {
        let others = self.held.saturating_sub(usize::from(self.holds_finding));
        let mut errors = errors(alloc, others)?;
        if self.holds_finding {
            errors.insert(first_finding(alloc)?)?;
        }
        let warnings = warnings(alloc, self.held)?;
        Ok(Sets { errors, warnings })
    }

    /// The contents of the sets after a check with ample memory. All policies here are refused, and never apply.
    fn expect(&self, alloc: Global) -> Result<Option<String>, AllocError> {
        let mut sets = self.hand_in(alloc)?;
        let passes = self.check(alloc, &mut sets)?;
        let warnings = self.held.saturating_add(1);
        if passes || sets.errors.len() != self.errors || sets.warnings.len() != warnings {
            return Ok(None);
        }
        Ok(Some(sets.show(alloc)?))
    }

    fn check(&self, alloc: Global, sets: &mut Sets) -> Result<bool, AllocError> {
        self.checker
            .typecheck_policy(alloc, self.policy, &mut sets.errors, &mut sets.warnings)
    }

    /// The check while a growth is refused, after which the sets hold `wanted` or their old members, and again with ample
    /// memory.
    fn check_refused(
        &self,
        alloc: Global,
        wanted: &str,
        number: u16,
    ) -> Result<Attempt, AllocError> {
        let mut sets = self.hand_in(alloc)?;
        let before = sets.show(alloc)?;
        refuse(alloc, number);
        let answer = self.check(alloc, &mut sets);
        let attempt = attempt_of(answer.is_ok(), was_refused(alloc));
        let after = sets.show(alloc)?;
        let expected = if answer.is_ok() {
            wanted
        } else {
            before.as_str()
        };
        let again = self.check(alloc, &mut sets)?;
        let later = sets.show(alloc)?;
        Ok(
            attempt
                .only_if(!matches!(answer, Ok(true)), ANOTHER_ANSWER)
                .only_if(after.as_str() == expected, "the sets hold something else")
                .only_if(!again && later.as_str() == wanted, ANOTHER_LATER),
        )
    }
}

impl Call for WholeCheck<'_> {
    fn attempt(&self, alloc: Global, number: u16) -> Result<Attempt, AllocError> {
        let policy = picture(alloc, self.policy)?;
        let Some(wanted) = self.expect(alloc)? else {
            return Ok(Attempt::Wrong("its findings are others"));
        };
        let attempt = self.check_refused(alloc, wanted.as_str(), number)?;
        Ok(attempt.only_if(picture(alloc, self.policy)? == policy, ANOTHER_POLICY))
    }
}
