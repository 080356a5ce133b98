// Examples of single codes, errors, causes and files.
ghost use Rattle.cedar_verdicts.specs.VerdictExamples.{VerdictExamples};

/// States which codes, errors, causes and files the definitions of this library mean, and which not.
pub fn examples_of_verdicts()
    ensures { VerdictExamples }
{}
