// The answer of the validation of a policy with levels.
ghost use Rattle.std.specs.Iterator.{YieldsFirstBy, item_count};
ghost use Rattle.cedar_types.specs.Errors.{finding_of, warning_of};
ghost use Rattle.cedar_typechecker.specs.Levels.Answers.{level_errors_left, level_warnings_left};

use cedar_types::base::{ValidationError, ValidationWarning};
use std::vec::IntoIter;

/// The errors of a policy, in any order, as an iterator. They are collected before, so walking over
/// them takes no memory.
#[derive(Drop)]
pub struct LevelErrors {
    pub(crate) errors: IntoIter<ValidationError>,
}

impl Iterator for LevelErrors {
    type Item = ValidationError;

    ghost next_gives = { YieldsFirstBy finding_of level_errors_left };

    ghost remaining = { item_count level_errors_left };

    #[tactic(auto, unfolding(crate::specs::Levels::Answers::level_errors_left))]
    fn next(&mut self) -> Option<ValidationError> {
        self.errors.next()
    }
}

/// The warnings on a policy, as an iterator. They are collected before, so walking over them takes
/// no memory.
#[derive(Drop)]
pub struct LevelWarnings {
    pub(crate) warnings: IntoIter<ValidationWarning>,
}

impl Iterator for LevelWarnings {
    type Item = ValidationWarning;

    ghost next_gives = { YieldsFirstBy warning_of level_warnings_left };

    ghost remaining = { item_count level_warnings_left };

    #[tactic(auto, unfolding(crate::specs::Levels::Answers::level_warnings_left))]
    fn next(&mut self) -> Option<ValidationWarning> {
        self.warnings.next()
    }
}
