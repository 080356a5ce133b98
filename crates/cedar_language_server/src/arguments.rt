// Words of the command line.

/// The text that `--help` prints.
const HELP: &str = "usage: cedar-language-server [--stdio]

A language server for Cedar policies and schemas. An editor starts it, and speaks the Language Server
Protocol to it over standard input and output.

  --stdio    serve over standard input and output, as without a word
  --help     print this text
  --version  print the version of the server, and of Cedar's validator, which it follows";

/// The line that `--version` prints.
const VERSION: &str = "cedar-language-server 0.1.0, Cedar 4.14.1";

/// What the words of the command line ask for.
#[derive(Clone, Copy)]
pub enum Asked<'a> {
    Server,
    /// A text of the program itself.
    Text(&'static str),
    /// A word that the server does not know.
    Unknown(&'a str),
}

/// What these words ask for, behind the name of the program.
pub fn asked_in(words: &[String]) -> Asked<'_> {
    for word in words {
        match word.as_str() {
            "--stdio" => {}
            "--help" | "-h" => return Asked::Text(HELP),
            "--version" | "-V" => return Asked::Text(VERSION),
            other => return Asked::Unknown(other),
        }
    }
    Asked::Server
}
