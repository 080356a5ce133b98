// Pieces of texts: a law on a function that does nothing.
ghost use Rattle.cedar_writing.specs.PieceExamples.{PieceExamples};

/// Which pieces texts have.
pub fn examples_of_pieces()
    ensures { PieceExamples }
{}
