//! Environments whose action the scope does not admit: laws, each on a function that does nothing.
ghost use Rattle.cedar_typing.specs.Representatives.{FirstTestsDecide, FirstTestsAreAlike, FirstTestsAreQuiet, FirstTestsTestVariables};

/// If the scope's tests of the principal and of the action are irrelevant without an error, so is the whole condition. And
/// the tests are typed alike in all environments of one principal type, one link of its slot and one type of action whose
/// action the scope does not admit. So a host may check one of these environments for all of them. Their typed copy then
/// accesses nothing but variables.
pub fn scope_comes_first()
    ensures decide { FirstTestsDecide }
    ensures alike { FirstTestsAreAlike }
    ensures quiet { FirstTestsAreQuiet }
    ensures variables { FirstTestsTestVariables }
{}
