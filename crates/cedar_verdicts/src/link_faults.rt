//! Faults of a text of links.
use crate::texts::MAX_FAULTS;
use cedar_findings::faults::TextFault;
use cedar_types::base::Loc;
use std::alloc::{AllocError, Global};

/// A text of links and its faults: the first ones, `MAX_FAULTS` at most, and the number of the others.
#[derive(Drop)]
pub struct LinkFaults {
    pub text: String,
    pub listed: Vec<TextFault>,
    pub others: u64,
}

impl LinkFaults {
    /// An empty text without a fault.
    pub(crate) fn none(alloc: Global) -> LinkFaults {
        LinkFaults {
            text: String::new(alloc),
            listed: Vec::new(alloc),
            others: 0,
        }
    }

    /// Adds a fault behind the others: it is listed, or only counted if enough are listed.
    pub(crate) fn add(&mut self, fault: TextFault) -> Result<(), AllocError> {
        if (self.listed.len() as u64) < MAX_FAULTS {
            self.listed.push(fault)?;
        } else {
            self.others = self.others.saturating_add(1);
        }
        Ok(())
    }

    /// Adds faults of these places and words, which stand in the order of the text, but may stand before those so far.
    pub(crate) fn join(
        &mut self,
        alloc: Global,
        faults: &[(Loc, &'static str)],
    ) -> Result<(), AllocError> {
        let mut joined = 0u64;
        for (place, why) in faults {
            if joined < MAX_FAULTS {
                let text = String::from_str(alloc, why)?;
                let place = *place;
                self.listed.push(TextFault { place, text })?;
            } else {
                self.others = self.others.saturating_add(1);
            }
            joined = joined.saturating_add(1);
        }
        self.listed.sort_by_key(|it| it.place.start)?;
        let most = MAX_FAULTS as usize;
        let others = self.listed.len().saturating_sub(most);
        self.others = self.others.saturating_add(others as u64);
        self.listed.truncate(most);
        Ok(())
    }
}
