//! The query of a set of policies chooses the rows whose requests an authoriser allows: laws, on a function that does nothing.
ghost use Rattle.cedar_examples.specs.ChosenRows.{ChosenRowsAreAllowed, QueryTellsTheDecision};

/// The query that `cedar_where::joined` answers for the clauses of a set is TRUE if an authoriser allows the request, and else
/// FALSE: over each row on which each clause is TRUE, FALSE or NULL as its policy's condition is true, false or fails (clause
/// `decided`). `where_clause` promises this of the row of a request's resource, so exactly the rows of resources that an
/// authoriser allows are chosen (clause `chosen`). A policy that is never true in the environment may be left out.
pub fn chosen_rows_are_allowed()
    ensures decided { QueryTellsTheDecision }
    ensures chosen { ChosenRowsAreAllowed }
{}
