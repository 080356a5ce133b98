// Tasks of the program, over any files and any writers.
ghost use Rattle.std.specs.Prelude.{◌≡◌, IfOk, OnOk};
ghost use Rattle.cedar_findings.specs.Counts.{CountsSame};
ghost use Rattle.cedar_validate.specs.Outcomes.{outcome_by, status_by, CountsNoRefusal};

use crate::outcomes::Outcome;
use crate::progress::Progress;
use cedar_findings::arguments::{Arguments, IdScope, Task};
use cedar_findings::outputs::Output;
use cedar_findings::sources::Source;
use cedar_typechecker::rbac::Validator;
use cedar_types::base::ExtensionSchemas;
use cedar_verdicts::call_ids::CallIds;
use cedar_verdicts::data::DataKind;
use cedar_verdicts::links::Links;
use cedar_verdicts::settings::Settings;
use cedar_verdicts::shown::changes::{BothSettings, ShownChanges};
use cedar_verdicts::shown::policies::{Shared, ShownPolicies};
use cedar_verdicts::shown::texts::{show_link_faults, show_parsed};
use std::io;
use std::io::Write;
use std::rt::Files;

/// A call of the program: the access to its files, the output, and the writers.
#[derive(Drop)]
pub struct Call<'a, R, O, T> {
    pub rt: &'a R,
    pub extensions: &'a ExtensionSchemas,
    pub output: Output,
    pub progress: Progress<T>,
    pub out: O,
}

impl<R: Files + AllocGlobal + Input, O: Write, T: Write> Call<'_, R, O, T> {
    /// Performs the task of the arguments, and answers the exit status: the one of the counts (clause `exact`), so that it is 0
    /// only if no fault, no refused policy and no refused data is counted (clause `accepted`).
    pub fn perform(&mut self, arguments: &Arguments) -> io::Result<u8>
        ensures exact { IfOk result (λ status. status
            ≡ status_by arguments.now.statuses (outcome_by arguments.now self.new.output)) }
        ensures accepted { IfOk result (λ status. status ≡ 0 → CountsNoRefusal self.new.output) }
    {
        self.output.is_quiet = arguments.is_quiet;
        let alloc = self.rt.alloc();
        self.output
            .begin(alloc, arguments.format, arguments.columns)?;
        let done = match arguments.task {
            Task::Validation => self.validate(arguments),
            Task::Comparison => self.compare(arguments),
            Task::Parsing => self.parse(arguments),
        };
        // written even if the task failed, because its output so far holds
        self.write_shown()?;
        done?;
        let outcome = Outcome::of(arguments, &self.output);
        Ok(outcome.status(arguments.statuses))
    }

    /// Writes the output so far.
    pub fn write_shown(&mut self) -> io::Result<()>
        ensures { OnOk result (CountsSame self.old.output self.new.output) }
    {
        self.out.write_all(self.output.shown().as_bytes())?;
        self.output.clear();
        Ok(())
    }

    /// Validates the policies of all files, and checks data.
    fn validate(&mut self, arguments: &Arguments) -> io::Result<()> {
        let alloc = self.rt.alloc();
        let syntax = arguments.schema_syntax;
        let Some(schema) = self.read_schema(arguments.schemas.as_slice(), syntax)? else {
            self.output.totals.add_missing_schema();
            return Ok(self.output.end(alloc)?);
        };
        let validator = Validator::new(schema, self.extensions);
        let settings = settings_of(arguments, &validator);
        let is_unique = arguments.id_scope == IdScope::Call;
        let mut shared = Shared {
            ids: is_unique.then_some(CallIds::new(alloc)),
            links: self.read_links(&arguments.links)?,
        };
        for name in &arguments.policies {
            self.validate_file(&settings, name.as_str(), &mut shared)?;
        }
        let Shared { links, .. } = shared;
        show_link_faults(alloc, &arguments.links, links, &mut self.output)?;
        self.check_data(validator.schema(), DataKind::Entities, &arguments.entities)?;
        self.check_data(validator.schema(), DataKind::Request, &arguments.request)?;
        Ok(self.output.end(alloc)?)
    }

    /// Validates the policies of a file, and the links of each.
    fn validate_file(
        &mut self,
        settings: &Settings<'_>,
        name: &str,
        shared: &mut Shared,
    ) -> io::Result<()> {
        let alloc = self.rt.alloc();
        let Some(text) = self.read_text(name)? else {
            return Ok(());
        };
        let text = text.as_str();
        let source = Source { name, text };
        let begun = ShownPolicies::begin(alloc, settings, source, shared, &mut self.output)?;
        let Some(mut policies) = begun else {
            return Ok(());
        };
        for _ in 0..policies.most() {
            if !policies.show_next(alloc, settings, shared, &mut self.output)? {
                break;
            }
            self.write_shown()?;
            self.progress.show(self.output.totals.policies);
        }
        self.progress.clear();
        Ok(policies.end(alloc, &mut self.output)?)
    }

    /// Validates the policies of all files by both schemas, and shows the changes.
    fn compare(&mut self, arguments: &Arguments) -> io::Result<()> {
        let syntax = arguments.schema_syntax;
        let old = self.read_schema(arguments.old_schemas.as_slice(), syntax)?;
        let new = self.read_schema(arguments.schemas.as_slice(), syntax)?;
        let (Some(old), Some(new)) = (old, new) else {
            self.output.totals.add_missing_schema();
            return Ok(self.output.end_changes(self.rt.alloc())?);
        };
        let old = Validator::new(old, self.extensions);
        let new = Validator::new(new, self.extensions);
        let settings = BothSettings {
            old: settings_of(arguments, &old),
            new: settings_of(arguments, &new),
        };
        let mut links = self.read_links(&arguments.links)?;
        for name in &arguments.policies {
            self.compare_file(&settings, name.as_str(), &mut links)?;
        }
        show_link_faults(self.rt.alloc(), &arguments.links, links, &mut self.output)?;
        Ok(self.output.end_changes(self.rt.alloc())?)
    }

    /// Validates the policies of a file by both schemas, and shows the changes.
    fn compare_file(
        &mut self,
        settings: &BothSettings<'_>,
        name: &str,
        links: &mut Links,
    ) -> io::Result<()> {
        let alloc = self.rt.alloc();
        let Some(text) = self.read_text(name)? else {
            return Ok(());
        };
        let text = text.as_str();
        let source = Source { name, text };
        let begun = ShownChanges::begin(alloc, settings, source, &mut self.output)?;
        let Some(mut policies) = begun else {
            return Ok(());
        };
        for _ in 0..policies.most() {
            if !policies.show_next(alloc, settings, links, &mut self.output)? {
                break;
            }
            self.write_shown()?;
        }
        Ok(policies.end(alloc, &mut self.output)?)
    }

    /// Reads the schema, if there is one, and all policies, and shows their faults.
    fn parse(&mut self, arguments: &Arguments) -> io::Result<()> {
        let schemas = arguments.schemas.as_slice();
        let syntax = arguments.schema_syntax;
        if !schemas.is_empty() && self.read_schema(schemas, syntax)?.is_none() {
            self.output.totals.add_fault();
        }
        for name in &arguments.policies {
            let name = name.as_str();
            if let Some(text) = self.read_text(name)? {
                let text = text.as_str();
                let (syntax, source) = (arguments.policy_syntax, Source { name, text });
                show_parsed(self.rt.alloc(), syntax, source, &mut self.output)?;
            }
        }
        Ok(self.output.end(self.rt.alloc())?)
    }
}

/// The settings by which these arguments ask to judge policies.
fn settings_of<'a>(arguments: &Arguments, validator: &'a Validator<'a>) -> Settings<'a> {
    Settings {
        validator,
        mode: arguments.mode,
        level: arguments.level,
        syntax: arguments.policy_syntax,
    }
}
