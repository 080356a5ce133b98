//! Texts that the functions read, and texts that they do not: a law on a function that does nothing.
ghost use Rattle.cedar_extensions.specs.TextExamples.{TextExamples};

/// Which texts of addresses, decimal numbers, durations and points in time are read.
pub fn examples_of_texts()
    ensures { TextExamples }
{}
