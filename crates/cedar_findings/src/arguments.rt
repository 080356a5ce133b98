//! Arguments of a call, as the words of the command line give them.
use crate::columns::Columns;
pub use crate::command_lines::read_arguments;
use crate::formats::Format;
use crate::lines::Lines;
pub use crate::misuses::Misuse;
use crate::options::ValueOption;
use crate::shells::Shell;
use crate::statuses::Statuses;
use crate::syntaxes::Syntax;
use cedar_types::base::ValidationMode;
use std::alloc::{AllocError, Global};

/// The task of a call.
#[derive(Clone, Copy, PartialEq, Eq, Debug)]
pub enum Task {
    /// Validates policies, and checks data.
    Validation,
    /// Validates policies by two schemas, and tells the changes.
    Comparison,
    /// Reads texts, and validates nothing.
    Parsing,
}

/// The scope in which an id must be unique.
#[derive(Clone, Copy, PartialEq, Eq, Debug)]
pub enum IdScope {
    /// Within each file: several files may have the id.
    File,
    /// Within all files of the call.
    Call,
}

/// The arguments of a validation.
#[derive(Drop)]
pub struct Arguments {
    pub task: Task,
    pub mode: ValidationMode,
    /// The number of entities that a policy may dereference one after another; any number if there is none.
    pub level: Option<u32>,
    pub format: Format,
    /// The unit of the columns of places.
    pub columns: Columns,
    /// The syntax of all files; none if their first characters tell it.
    pub syntax: Option<Syntax>,
    /// The syntax of the schema's files, and that of the policies' files; if none is given, the syntax of all files.
    pub schema_syntax: Option<Syntax>,
    pub policy_syntax: Option<Syntax>,
    /// Whether a warning counts for the exit status as a refused policy does.
    pub denies_warnings: bool,
    /// Whether the output leaves out accepted policies without a finding, and the counts.
    pub is_quiet: bool,
    pub id_scope: IdScope,
    pub statuses: Statuses,
    /// The files of the schema: at least one, unless texts are only read.
    pub schemas: Vec<String>,
    /// The files of an older schema, with which the schema is compared; empty if it is not.
    pub old_schemas: Vec<String>,
    /// The files of policies: at least one, unless there is data, or a schema is only read.
    pub policies: Vec<String>,
    /// The file of links, if there is one.
    pub links: Option<String>,
    /// The file of entities, if they are to be checked.
    pub entities: Option<String>,
    /// The file of a request, if it is to be checked.
    pub request: Option<String>,
}

/// The request that the words make.
#[derive(Drop)]
pub enum Asked {
    Help,
    Version,
    /// The page of the program for `man`.
    Page,
    /// The script that completes the words of the program in a shell.
    Completion(Shell),
    Validation(Arguments),
}

impl Arguments {
    /// The arguments of a call without words.
    pub(crate) fn new(alloc: Global) -> Arguments {
        Arguments {
            task: Task::Validation,
            mode: ValidationMode::Strict,
            level: None,
            format: Format::Lines(Lines),
            columns: Columns::Characters,
            syntax: None,
            schema_syntax: None,
            policy_syntax: None,
            denies_warnings: false,
            is_quiet: false,
            id_scope: IdScope::File,
            statuses: Statuses::Own,
            schemas: Vec::new(alloc),
            old_schemas: Vec::new(alloc),
            policies: Vec::new(alloc),
            links: None,
            entities: None,
            request: None,
        }
    }

    /// Takes note of a file that an option names. The answer is false if the option takes one file and has one already.
    pub(crate) fn name_file(
        &mut self,
        alloc: Global,
        option: ValueOption,
        name: &str,
    ) -> Result<bool, AllocError> {
        match option {
            ValueOption::Schema => add_file(alloc, &mut self.schemas, name),
            ValueOption::Policies => add_file(alloc, &mut self.policies, name),
            ValueOption::Since => add_file(alloc, &mut self.old_schemas, name),
            ValueOption::Links => set_once(alloc, &mut self.links, name),
            ValueOption::Entities => set_once(alloc, &mut self.entities, name),
            ValueOption::Request => set_once(alloc, &mut self.request, name),
            _ => Ok(false),
        }
    }

    /// Sets the value of an option that names no file. The answer is false if the option does not take this value.
    pub(crate) fn set(&mut self, option: ValueOption, value: &str) -> bool {
        match option {
            ValueOption::Mode => {
                let mode = mode_by_name(value);
                self.mode = mode.unwrap_or(self.mode);
                mode.is_some()
            }
            ValueOption::Level => {
                self.level = value.parse::<u32>().ok();
                self.level.is_some()
            }
            ValueOption::Format => {
                let format = Format::by_name(value);
                self.format = format.unwrap_or(self.format);
                format.is_some()
            }
            ValueOption::Columns => {
                let columns = Columns::by_name(value);
                self.columns = columns.unwrap_or(self.columns);
                columns.is_some()
            }
            ValueOption::Input => {
                self.syntax = Syntax::by_name(value);
                self.syntax.is_some()
            }
            ValueOption::SchemaFormat => {
                self.schema_syntax = Syntax::by_format(value);
                self.schema_syntax.is_some()
            }
            ValueOption::PolicyFormat => {
                self.policy_syntax = Syntax::by_format(value);
                self.policy_syntax.is_some()
            }
            _ => false,
        }
    }

    /// Completes the arguments: the first file without an option is the schema if no option names one, the syntax of all files
    /// is that of each, and an older schema makes the call a comparison.
    pub(crate) fn take_schema(&mut self, first_unnamed: Option<usize>) -> Result<(), AllocError> {
        self.schema_syntax = self.schema_syntax.or(self.syntax);
        self.policy_syntax = self.policy_syntax.or(self.syntax);
        if self.task == Task::Parsing {
            return Ok(());
        }
        if !self.old_schemas.is_empty() {
            self.task = Task::Comparison;
        }
        let Some(at) = first_unnamed else {
            return Ok(());
        };
        if self.schemas.is_empty() && at < self.policies.len() {
            let first = self.policies.remove(at);
            self.schemas.push(first)?;
        }
        Ok(())
    }

    /// The misuse that these arguments are together, if they are one.
    pub(crate) fn misuse(&self) -> Option<Misuse> {
        if self.mode == ValidationMode::Partial && self.level.is_some() {
            return Some(Misuse::LevelInPartial);
        }
        if self.columns == Columns::Bytes && matches!(self.format, Format::Sarif(_)) {
            return Some(Misuse::BytesInSarif);
        }
        let has_data = self.entities.is_some() || self.request.is_some();
        let misuse = match self.task {
            Task::Parsing => self.misuse_in_parsing(has_data),
            Task::Comparison if has_data => Some(Misuse::SinceAlone),
            Task::Comparison => self.too_few_files(false),
            Task::Validation => self.too_few_files(has_data),
        };
        if misuse.is_none() && self.inputs() > 1 {
            return Some(Misuse::InputTwice);
        }
        misuse
    }

    fn misuse_in_parsing(&self, has_data: bool) -> Option<Misuse> {
        if has_data || self.links.is_some() || !self.old_schemas.is_empty() {
            return Some(Misuse::ParseAlone);
        }
        let is_empty = self.schemas.is_empty() && self.policies.is_empty();
        is_empty.then_some(Misuse::NothingToParse)
    }

    fn too_few_files(&self, has_data: bool) -> Option<Misuse> {
        let is_empty = self.schemas.is_empty() || self.policies.is_empty() && !has_data;
        is_empty.then_some(Misuse::TooFewFiles)
    }

    /// The number of times that standard input is named.
    fn inputs(&self) -> usize {
        inputs_in(self.schemas.as_slice())
            .saturating_add(inputs_in(self.old_schemas.as_slice()))
            .saturating_add(inputs_in(self.policies.as_slice()))
            .saturating_add(usize::from(is_input(&self.links)))
            .saturating_add(usize::from(is_input(&self.entities)))
            .saturating_add(usize::from(is_input(&self.request)))
    }
}

/// The mode of this name, if there is one.
fn mode_by_name(name: &str) -> Option<ValidationMode> {
    match name {
        "strict" => Some(ValidationMode::Strict),
        "permissive" => Some(ValidationMode::Permissive),
        "partial" => Some(ValidationMode::Partial),
        _ => None,
    }
}

/// Adds a file to those of a kind, of which there may be any number.
fn add_file(alloc: Global, files: &mut Vec<String>, name: &str) -> Result<bool, AllocError> {
    files.push(String::from_str(alloc, name)?)?;
    Ok(true)
}

/// Sets a file that may be named once. The answer is false if it was named before.
fn set_once(alloc: Global, file: &mut Option<String>, name: &str) -> Result<bool, AllocError> {
    if file.is_some() {
        return Ok(false);
    }
    *file = Some(String::from_str(alloc, name)?);
    Ok(true)
}

/// The number of times that these files name standard input.
fn inputs_in(files: &[String]) -> usize {
    let mut inputs = 0usize;
    for name in files {
        inputs = inputs.saturating_add(usize::from(name.as_str() == "-"));
    }
    inputs
}

/// Whether a file is standard input.
fn is_input(file: &Option<String>) -> bool {
    file.as_ref().is_some_and(|name| name.as_str() == "-")
}
