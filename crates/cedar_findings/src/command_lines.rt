// Reading of the command line, word by word.
use crate::arguments::{Arguments, Asked, IdScope, Misuse, Task};
use crate::formats::Format;
use crate::objects::Objects;
use crate::options::{Asks, Flag, ValueOption, option_by_letter, option_by_name};
use crate::shells::Shell;
use crate::statuses::Statuses;
use std::alloc::{AllocError, Global};

/// The request that these words make, or their misuse. If memory is refused, the answer is an
/// `AllocError`.
pub fn read_arguments(
    alloc: Global,
    words: &[String],
) -> Result<Result<Asked, Misuse>, AllocError> {
    let mut read = Reading::new(alloc);
    for word in words {
        if let Some(asked) = read.asks_about_program(word.as_str()) {
            return Ok(Ok(asked));
        }
        if let Some(misuse) = read.take(word)? {
            return Ok(Err(misuse));
        }
    }
    read.finish()
}

/// The question about the program itself that an option is, if it is one.
fn question(flag: Flag) -> Option<Asked> {
    match flag {
        Flag::Help => Some(Asked::Help),
        Flag::Version => Some(Asked::Version),
        Flag::Page => Some(Asked::Page),
        _ => None,
    }
}

/// The first question among joined short options, before one that takes a value.
fn question_among(letters: &str) -> Option<Asked> {
    for letter in letters.chars() {
        let Some(Asks::Flag(flag)) = option_by_letter(letter) else {
            return None;
        };
        if let Some(asked) = question(flag) {
            return Some(asked);
        }
    }
    None
}

/// The letters of a word such as `-qs`, which joins short options; an empty text, if the word is no such one.
fn joined_letters(word: &str) -> &str {
    match word.strip_prefix('-') {
        Some(letters) if !letters.starts_with('-') => letters,
        _ => "",
    }
}

/// The kind of word that comes next.
#[derive(Clone, Copy)]
enum Next {
    Any,
    /// The value of an option.
    Value(ValueOption),
    /// A file, behind `--`.
    File,
}

/// The arguments so far. A file without an option stands among the files of policies until all
/// words are read.
#[derive(Drop)]
struct Reading {
    alloc: Global,
    arguments: Arguments,
    /// The index of the first file without an option among the files of policies.
    first_unnamed: Option<usize>,
    shell: Option<Shell>,
    next: Next,
}

impl Reading {
    fn new(alloc: Global) -> Reading {
        Reading {
            alloc,
            arguments: Arguments::new(alloc),
            first_unnamed: None,
            shell: None,
            next: Next::Any,
        }
    }

    /// The question of a word about the program itself, unless the word stands behind `--`.
    fn asks_about_program(&self, word: &str) -> Option<Asked> {
        match (self.next, option_by_name(word)) {
            (Next::File, _) => None,
            (_, Some(Asks::Flag(flag))) => question(flag),
            (Next::Any, None) => question_among(joined_letters(word)),
            _ => None,
        }
    }

    /// Reads a word. The answer is its misuse, if it is one.
    fn take(&mut self, word: &String) -> Result<Option<Misuse>, AllocError> {
        match self.next {
            Next::Value(option) => {
                self.next = Next::Any;
                self.take_value(option, word.as_str())
            }
            Next::Any => self.take_option_or_file(word),
            Next::File => self.take_file(word),
        }
    }

    fn take_file(&mut self, word: &String) -> Result<Option<Misuse>, AllocError> {
        // the first file may turn out to be the schema, so its place among the files is kept
        let count = self.arguments.policies.len();
        self.arguments.policies.push(word.clone()?)?;
        self.first_unnamed = self.first_unnamed.or(Some(count));
        Ok(None)
    }

    fn take_option_or_file(&mut self, word: &String) -> Result<Option<Misuse>, AllocError> {
        let text = word.as_str();
        match option_by_name(text) {
            Some(Asks::Value(option, _)) => {
                self.next = Next::Value(option);
                return Ok(None);
            }
            Some(Asks::Flag(flag)) => {
                self.raise(flag);
                return Ok(None);
            }
            None => {}
        }
        if let Some((name, value)) = text.split_once('=') {
            if let Some(Asks::Value(option, _)) = option_by_name(name) {
                return self.take_value(option, value);
            }
        }
        if text == "--" {
            self.next = Next::File;
            return Ok(None);
        }
        if text.starts_with("--") {
            return Ok(Some(Misuse::UnknownOption(word.clone()?)));
        }
        match joined_letters(text) {
            "" => self.take_file(word),
            letters => self.take_joined(word, letters),
        }
    }

    /// Reads short options that one word joins: the first that takes a value has the rest of the word as its value, or the
    /// next word.
    fn take_joined(&mut self, word: &String, letters: &str) -> Result<Option<Misuse>, AllocError> {
        for (at, letter) in letters.char_indices() {
            match option_by_letter(letter) {
                None => return Ok(Some(Misuse::UnknownOption(word.clone()?))),
                Some(Asks::Flag(flag)) => self.raise(flag),
                Some(Asks::Value(option, _)) => {
                    let behind = at.saturating_add(letter.len_utf8());
                    return self.take_joined_value(option, letters.get(behind..).unwrap_or(""));
                }
            }
        }
        Ok(None)
    }

    fn take_joined_value(
        &mut self,
        option: ValueOption,
        rest: &str,
    ) -> Result<Option<Misuse>, AllocError> {
        if rest.is_empty() {
            self.next = Next::Value(option);
            return Ok(None);
        }
        self.take_value(option, rest.strip_prefix('=').unwrap_or(rest))
    }

    /// Sets an option without a value.
    fn raise(&mut self, flag: Flag) {
        let arguments = &mut self.arguments;
        match flag {
            Flag::DeniesWarnings => arguments.denies_warnings = true,
            Flag::Json => arguments.format = Format::Objects(Objects),
            Flag::Quiet => arguments.is_quiet = true,
            Flag::UniqueIds => arguments.id_scope = IdScope::Call,
            Flag::CedarStatus => arguments.statuses = Statuses::Cedar,
            Flag::CheckParse => arguments.task = Task::Parsing,
            // options that were answered before
            Flag::Page | Flag::Help | Flag::Version => {}
        }
    }

    /// Reads the value of an option. The answer is its misuse, if it is one.
    fn take_value(
        &mut self,
        option: ValueOption,
        value: &str,
    ) -> Result<Option<Misuse>, AllocError> {
        let is_taken = match option {
            ValueOption::Completion => {
                self.shell = Shell::by_name(value);
                self.shell.is_some()
            }
            ValueOption::Schema
            | ValueOption::Policies
            | ValueOption::Since
            | ValueOption::Links
            | ValueOption::Entities
            | ValueOption::Request => self.arguments.name_file(self.alloc, option, value)?,
            _ => self.arguments.set(option, value),
        };
        Ok((!is_taken).then_some(option.misuse()))
    }

    fn finish(self) -> Result<Result<Asked, Misuse>, AllocError> {
        let Reading {
            mut arguments,
            first_unnamed,
            shell,
            next,
            ..
        } = self;
        if let Next::Value(option) = next {
            return Ok(Err(option.misuse()));
        }
        if let Some(shell) = shell {
            return Ok(Ok(Asked::Completion(shell)));
        }
        arguments.take_schema(first_unnamed)?;
        match arguments.misuse() {
            Some(misuse) => Ok(Err(misuse)),
            None => Ok(Ok(Asked::Validation(arguments))),
        }
    }
}
