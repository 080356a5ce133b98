//! Misuses of the words that the program is called with.
use crate::escapes::Shown;
use std::fmt;

/// A misuse of the words.
#[derive(Debug, Drop)]
pub enum Misuse {
    UnknownOption(String),
    Mode,
    Level,
    LevelInPartial,
    Format,
    Columns,
    BytesInSarif,
    Input,
    SchemaFormat,
    PolicyFormat,
    Schema,
    Policies,
    Links,
    Entities,
    Request,
    Since,
    Completion,
    ParseAlone,
    SinceAlone,
    NothingToParse,
    TooFewFiles,
    InputTwice,
}

impl Misuse {
    fn text(&self) -> &'static str {
        match self {
            Misuse::UnknownOption(_) => "",
            Misuse::Mode => "`--mode` takes `strict`, `permissive` or `partial`",
            Misuse::Level => "`--level` takes a number from 0 to 4294967295",
            Misuse::LevelInPartial => "`--level` is for the modes `strict` and `permissive`",
            Misuse::Format => "`--format` takes `lines`, `json` or `sarif`",
            Misuse::Columns => "`--columns` takes `characters`, `utf16` or `bytes`",
            Misuse::BytesInSarif =>
                "SARIF has no columns in bytes: `--format sarif` goes with `--columns characters` or `utf16`",
            Misuse::Input => "`--input` takes `text` or `json`",
            Misuse::SchemaFormat => "`--schema-format` takes `cedar` or `json`",
            Misuse::PolicyFormat => "`--policy-format` takes `cedar` or `json`",
            Misuse::Schema => "`--schema` takes a file",
            Misuse::Policies => "`--policies` takes a file",
            Misuse::Links => "`--template-linked` takes a file, once",
            Misuse::Entities => "`--entities` takes a file, once",
            Misuse::Request => "`--request` takes a file, once",
            Misuse::Since => "`--since` takes a file",
            Misuse::Completion => "`--completion` takes `bash`, `zsh` or `fish`",
            Misuse::ParseAlone =>
                "`--check-parse` is for schemas and policies alone: without `--since`, `--template-linked`, `--entities` and `--request`",
            Misuse::SinceAlone =>
                "`--since` is for policies alone: without `--entities` and `--request`",
            Misuse::NothingToParse =>
                "at least one file is wanted, of policies or behind `--schema`",
            Misuse::TooFewFiles => "a schema and at least one file of policies are wanted",
            Misuse::InputTwice => "standard input, `-`, can be read once",
        }
    }
}

impl fmt::Display for Misuse {
    fn fmt<W: fmt::Write>(&self, f: &mut fmt::Formatter<W>) -> fmt::Result {
        match self {
            Misuse::UnknownOption(name) => write!(
                f,
                "there is no option `{}`",
                Shown(name.as_str())
            ),
            _ => f.write_str(self.text()),
        }
    }
}
