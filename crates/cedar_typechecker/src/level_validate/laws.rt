//! Laws of levels, and computed examples, each on a function that does nothing.
ghost use Rattle.cedar_typechecker.specs.Levels.Details.{LevelDetails};
ghost use Rattle.cedar_typechecker.specs.Levels.Laws.{ChainsAreListed, LevelIsGreatest, LargerLevelsAreWithin, WalkFindsErrors, SilentWalkIsWithin, TypedBranchesAreShared, DemandsTellErrors, DemandsAreMet};
ghost use Rattle.cedar_typechecker.specs.Levels.Refinement.{StrictLevelsAreKept};
ghost use Rattle.cedar_typechecker.specs.Levels.Required.{WithinWhereReached, SilentWhereReached, RequiredLevelIsOne};
ghost use Rattle.cedar_typechecker.specs.Levels.Rows.{LevelRows};

/// The list of an expression's access chains has exactly the chains that the rules give, and its level is the greatest of
/// theirs.
pub fn access_chains()
    ensures listed { ChainsAreListed }
    ensures greatest { LevelIsGreatest }
{}

/// An expression without a level error at a maximum has none at any larger maximum.
pub fn larger_levels()
    ensures { LargerLevelsAreWithin }
{}

/// A policy with a required level has no level error at that level and above, and has one at each level below; a policy without
/// one has level errors at every level. Its validation with levels finds no level error at exactly the levels at which it has
/// none. A policy requires one level, or none.
pub fn required_levels()
    ensures within { WithinWhereReached }
    ensures silent { SilentWhereReached }
    ensures one { RequiredLevelIsOne }
{}

/// If a policy passes in Strict, its levels are those of Permissive.
pub fn strict_levels_are_kept()
    ensures { StrictLevelsAreKept }
{}

/// A walk down a typed expression finds each of its level errors, and nothing else.
pub fn walk_finds_errors()
    ensures errors { WalkFindsErrors }
    ensures silent { SilentWalkIsWithin }
{}

/// An `if` whose test has the type True or False has one branch twice if typing made it, so it is walked once. Then the demands
/// of the program's walk tell each level error at a maximum, and nothing else; and a maximum meets all demands exactly if there
/// is no level error.
pub fn one_branch_is_enough()
    ensures shared { TypedBranchesAreShared }
    ensures errors { DemandsTellErrors }
    ensures met { DemandsAreMet }
{}

/// The level errors of some expressions: worked rows, and details that are easy to get wrong.
pub fn examples_of_levels()
    ensures rows { LevelRows }
    ensures details { LevelDetails }
{}
