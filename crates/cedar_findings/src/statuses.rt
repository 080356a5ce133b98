//! Exit statuses of the program, and those of `cedar validate` for the same outcomes.

/// The program whose exit statuses are given.
#[derive(Clone, Copy, PartialEq, Eq, Debug)]
pub enum Statuses {
    /// The program's own: 0 if all is accepted, 1 if something is refused, 2 if a file cannot be read or understood.
    Own,
    /// Those of `cedar validate`: 0 if all is accepted, 3 if validation fails, 1 if the command does.
    Cedar,
}
