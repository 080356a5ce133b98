//! Options of the command line in one table, by which they are read, and of which the help, the
//! completion and the page are made.
use crate::misuses::Misuse;
use crate::texts::is_among;

/// An option that takes a value, as the next word or behind a `=`.
#[derive(Clone, Copy)]
pub enum ValueOption {
    Schema,
    Policies,
    Links,
    Mode,
    Level,
    Format,
    Columns,
    Input,
    SchemaFormat,
    PolicyFormat,
    Entities,
    Request,
    Since,
    Completion,
}

/// An option that takes no value.
#[derive(Clone, Copy)]
pub enum Flag {
    DeniesWarnings,
    Json,
    Quiet,
    UniqueIds,
    CedarStatus,
    CheckParse,
    Page,
    Help,
    Version,
}

/// An option.
#[derive(Clone, Copy)]
pub enum Asks {
    Value(ValueOption, Values),
    Flag(Flag),
}

/// The values of an option.
#[derive(Clone, Copy)]
pub enum Values {
    /// The name of a file.
    File,
    Number,
    /// A value that is one of these words.
    OneOf(&'static [&'static str]),
}

/// A word of the command line that is an option.
#[derive(Clone, Copy)]
pub struct Word {
    /// One or two names for the option.
    pub names: &'static [&'static str],
    pub asks: Asks,
    /// The purpose of the option, in one line.
    pub about: &'static str,
}

const MODES: Values = Values::OneOf(&["strict", "permissive", "partial"]);

const FORMATS: Values = Values::OneOf(&["lines", "json", "sarif"]);

const COLUMNS: Values = Values::OneOf(&["characters", "utf16", "bytes"]);

const INPUTS: Values = Values::OneOf(&["text", "json"]);

const SYNTAXES: Values = Values::OneOf(&["cedar", "json"]);

const SHELLS: Values = Values::OneOf(&["bash", "zsh", "fish"]);

/// All options, in the order of the help.
pub const WORDS: [Word; 23] = [
    Word {
        names: &["-s", "--schema"],
        asks: Asks::Value(ValueOption::Schema, Values::File),
        about: "a file of the schema; with it each file without an option is one of policies",
    },
    Word {
        names: &["-p", "--policies"],
        asks: Asks::Value(ValueOption::Policies, Values::File),
        about: "a file of policies, as one without an option; - is standard input",
    },
    Word {
        names: &["-k", "--template-linked"],
        asks: Asks::Value(ValueOption::Links, Values::File),
        about: "a list in JSON of links: objects of template_id, link_id and args",
    },
    Word {
        names: &["--mode", "--validation-mode"],
        asks: Asks::Value(ValueOption::Mode, MODES),
        about: "how strict types are; strict without this option",
    },
    Word {
        names: &["--level"],
        asks: Asks::Value(ValueOption::Level, Values::Number),
        about: "how many entities a policy may dereference, one after another",
    },
    Word {
        names: &["--deny-warnings"],
        asks: Asks::Flag(Flag::DeniesWarnings),
        about: "a warning counts for the exit status as a refused policy does",
    },
    Word {
        names: &["--since"],
        asks: Asks::Value(ValueOption::Since, Values::File),
        about: "an older schema: tells which policies another verdict is given on since",
    },
    Word {
        names: &["--check-parse"],
        asks: Asks::Flag(Flag::CheckParse),
        about: "reads policies, and files of --schema, and validates nothing",
    },
    Word {
        names: &["--unique-ids"],
        asks: Asks::Flag(Flag::UniqueIds),
        about: "refuses a policy of which another file of the call has the id",
    },
    Word {
        names: &["--format"],
        asks: Asks::Value(ValueOption::Format, FORMATS),
        about: "lines for people, an object of JSON a line, or one object of SARIF",
    },
    Word {
        names: &["--json"],
        asks: Asks::Flag(Flag::Json),
        about: "the same as --format json",
    },
    Word {
        names: &["--columns"],
        asks: Asks::Value(ValueOption::Columns, COLUMNS),
        about: "the unit of columns; characters without this option",
    },
    Word {
        names: &["-q", "--quiet"],
        asks: Asks::Flag(Flag::Quiet),
        about: "leaves out accepted policies without a finding, and the last line",
    },
    Word {
        names: &["--input"],
        asks: Asks::Value(ValueOption::Input, INPUTS),
        about: "how all files are written; without it one is JSON where it begins with { or [",
    },
    Word {
        names: &["--schema-format"],
        asks: Asks::Value(ValueOption::SchemaFormat, SYNTAXES),
        about: "how the files of the schema are written",
    },
    Word {
        names: &["--policy-format"],
        asks: Asks::Value(ValueOption::PolicyFormat, SYNTAXES),
        about: "how the files of policies are written",
    },
    Word {
        names: &["--entities"],
        asks: Asks::Value(ValueOption::Entities, Values::File),
        about: "a list of entities in JSON; policies may be left out then",
    },
    Word {
        names: &["--request"],
        asks: Asks::Value(ValueOption::Request, Values::File),
        about: "a request in JSON: principal, action, resource and context",
    },
    Word {
        names: &["--cedar-status"],
        asks: Asks::Flag(Flag::CedarStatus),
        about: "ends with the exit status of cedar validate",
    },
    Word {
        names: &["--completion"],
        asks: Asks::Value(ValueOption::Completion, SHELLS),
        about: "writes what completes these words in a shell",
    },
    Word {
        names: &["--man"],
        asks: Asks::Flag(Flag::Page),
        about: "writes a page for man",
    },
    Word {
        names: &["-h", "--help"],
        asks: Asks::Flag(Flag::Help),
        about: "this text",
    },
    Word {
        names: &["-V", "--version"],
        asks: Asks::Flag(Flag::Version),
        about: "the version of the program",
    },
];

/// The option of this name, if there is one.
pub fn option_by_name(name: &str) -> Option<Asks> {
    for word in &WORDS {
        if is_among(word.names, name) {
            return Some(word.asks);
        }
    }
    None
}

/// The option whose short name has this letter, if there is one.
pub fn option_by_letter(letter: char) -> Option<Asks> {
    for word in &WORDS {
        for name in word.names {
            if is_short(name, letter) {
                return Some(word.asks);
            }
        }
    }
    None
}

/// Whether a name is a hyphen and this letter.
fn is_short(name: &str, letter: char) -> bool {
    match name.strip_prefix('-') {
        Some(rest) => rest.len() == 1 && rest.starts_with(letter),
        None => false,
    }
}

impl ValueOption {
    /// The misuse of an option whose value is missing, or is none that the option takes.
    pub fn misuse(self) -> Misuse {
        match self {
            ValueOption::Schema => Misuse::Schema,
            ValueOption::Policies => Misuse::Policies,
            ValueOption::Links => Misuse::Links,
            ValueOption::Mode => Misuse::Mode,
            ValueOption::Level => Misuse::Level,
            ValueOption::Format => Misuse::Format,
            ValueOption::Columns => Misuse::Columns,
            ValueOption::Input => Misuse::Input,
            ValueOption::SchemaFormat => Misuse::SchemaFormat,
            ValueOption::PolicyFormat => Misuse::PolicyFormat,
            ValueOption::Entities => Misuse::Entities,
            ValueOption::Request => Misuse::Request,
            ValueOption::Since => Misuse::Since,
            ValueOption::Completion => Misuse::Completion,
        }
    }
}
