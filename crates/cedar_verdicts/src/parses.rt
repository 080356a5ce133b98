//! Faults of a text of policies that is only read, without a schema.
use crate::causes::place_of;
use crate::ids::Ids;
use crate::policies::{Policies, Read};
use crate::texts::MAX_FAULTS;
use cedar_findings::columns::Columns;
use cedar_findings::faults::TextFault;
use cedar_findings::places::Places;
use cedar_findings::syntaxes::Syntax;
use cedar_reading::Position;
use cedar_types::base::{ExtensionSchemas, Template};
use std::alloc::{AllocError, Global};

/// The result of reading a text.
#[derive(Drop)]
pub struct Parsed {
    /// The number of policies that could be read.
    pub policies: u64,
    /// The faults of the other policies, in the order of the text, at most `MAX_FAULTS`.
    pub faults: Vec<TextFault>,
    /// Whether the rest of the text was not read, because the text has `MAX_FAULTS` faults.
    pub is_cut: bool,
}

/// Reads the policies of a text, in this syntax or in the one that its first characters tell. A policy with the id of an
/// earlier one is a fault. If memory is refused, the answer is an `AllocError`.
pub fn parse_policies(
    alloc: Global,
    syntax: Option<Syntax>,
    text: &str,
) -> Result<Parsed, AllocError> {
    let mut parsed = Parsed {
        policies: 0,
        faults: Vec::new(alloc),
        is_cut: false,
    };
    let functions = ExtensionSchemas::default(alloc);
    let policies = match syntax.unwrap_or(Syntax::of(text)) {
        Syntax::Cedar => Policies::of_text(alloc, &functions, text)?,
        Syntax::Json => Policies::of_json(alloc, &functions, text)?,
    };
    match policies {
        Ok(policies) => parsed.read(alloc, text, policies)?,
        Err(fault) => parsed.faults.push(fault)?,
    }
    Ok(parsed)
}

impl Parsed {
    fn read(
        &mut self,
        alloc: Global,
        text: &str,
        mut policies: Policies<'_>,
    ) -> Result<(), AllocError> {
        let mut ids = Ids::new(alloc);
        let functions = ExtensionSchemas::default(alloc);
        for _ in 0..policies.most() {
            let Some(next) = policies.give(alloc, &functions)? else {
                break;
            };
            // the text is cut only if a policy is left, because a text with just a hundred faults is read as a whole
            if self.faults.len() as u64 >= MAX_FAULTS {
                self.is_cut = true;
                break;
            }
            self.add_next(alloc, text, &mut ids, next)?;
        }
        Ok(())
    }

    fn add_next(
        &mut self,
        alloc: Global,
        text: &str,
        ids: &mut Ids,
        next: Read,
    ) -> Result<(), AllocError> {
        match next {
            Read::Policy(policy, _marks) => self.add(alloc, text, ids, &policy),
            Read::Fault(fault) => Ok(self.faults.push(fault)?),
        }
    }

    /// Counts a policy, or adds the fault that an earlier policy has its id.
    fn add(
        &mut self,
        alloc: Global,
        text: &str,
        ids: &mut Ids,
        policy: &Template,
    ) -> Result<(), AllocError> {
        let place = place_of(policy);
        let Some(first) = ids.take(&policy.id, place.start)? else {
            self.policies = self.policies.saturating_add(1);
            return Ok(());
        };
        let Position { line, column } = Places::new(alloc, text, Columns::Characters).position(
            first,
        );
        self.faults.push(TextFault {
            place,
            text: format!(in alloc; "the policy at {line}:{column} of this file has the same id")?,
        })?;
        Ok(())
    }
}
