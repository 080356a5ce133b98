// Progress of the program, on a terminal.
use std::io::Write;

/// The number of policies after which progress is shown anew.
const STEP: u64 = 50;

/// Shows the progress of the program on a terminal.
#[derive(Drop)]
pub struct Progress<T> {
    /// The terminal; none if nobody looks.
    terminal: Option<T>,
}

impl<T: Write> Progress<T> {
    /// The progress on this terminal, if there is one.
    pub fn new(terminal: Option<T>) -> Progress<T> {
        Progress { terminal }
    }

    /// Shows from time to time the number of policies that were validated. A terminal that fails is no fault.
    pub fn show(&mut self, policies: u64) {
        if policies % STEP != 0 {
            return;
        }
        if let Some(terminal) = &mut self.terminal {
            let _ = write!(terminal, "\r{policies} policies");
        }
    }

    /// Clears the line of the progress.
    pub fn clear(&mut self) {
        if let Some(terminal) = &mut self.terminal {
            let _ = write!(terminal, "\r\x1b[K");
        }
    }
}
