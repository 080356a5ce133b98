//! Scripts that complete the words of the program in a shell. They are made of the table of words.
use crate::options::{Asks, Values, WORDS, Word};
use crate::shells::Shell;
use crate::texts::{push_all, push_joined};
use std::alloc::{AllocError, Global};
use std::fmt;

/// The beginning of the script for bash, up to the values of words.
const BASH_BEFORE: &str = "_cedar_validate() {
    local current=${COMP_WORDS[COMP_CWORD]} before=${COMP_WORDS[COMP_CWORD - 1]}
    case $before in
";

/// The part of the script for bash between the values and the names.
const BASH_BETWEEN: &str = "    esac
    if [[ $current == -* ]]; then
        mapfile -t COMPREPLY < <(compgen -W '";

/// The end of the script for bash, behind the names.
const BASH_BEHIND: &str = "' -- \"$current\")
    else
        mapfile -t COMPREPLY < <(compgen -f -- \"$current\")
    fi
}
complete -o filenames -F _cedar_validate cedar-validate
";

/// The beginning of the script for zsh, up to the words. It is a function that zsh finds as a file of the name
/// `_cedar-validate`, or that a shell reads by `source`.
const ZSH_BEFORE: &str = "#compdef cedar-validate
_cedar-validate() {
_arguments -s -S : \\
";

/// The end of the script for zsh. As a file, it is called where the function's name is on the stack.
const ZSH_BEHIND: &str = "  '*:file:_files'
}
if [[ ${funcstack[1]} == _cedar-validate ]]; then
    _cedar-validate \"$@\"
else
    compdef _cedar-validate cedar-validate
fi
";

/// The script that completes the words of the program in this shell.
pub fn completion(alloc: Global, shell: Shell) -> Result<String, AllocError> {
    let mut shown = String::new(alloc);
    match shell {
        Shell::Bash => push_bash(&mut shown)?,
        Shell::Zsh => push_zsh(&mut shown)?,
        Shell::Fish => push_fish(&mut shown)?,
    }
    Ok(shown)
}

fn push_bash(shown: &mut String) -> Result<(), AllocError> {
    shown.push_str(BASH_BEFORE)?;
    for word in &WORDS {
        if let Asks::Value(_, values) = word.asks {
            push_bash_case(shown, word.names, values)?;
        }
    }
    shown.push_str(BASH_BETWEEN)?;
    let mut blank = "";
    for word in &WORDS {
        shown.push_str(blank)?;
        push_joined(shown, word.names, " ")?;
        blank = " ";
    }
    shown.push_str(BASH_BEHIND)
}

/// Adds the values behind an option of these names.
fn push_bash_case(shown: &mut String, names: &[&str], values: Values) -> Result<(), AllocError> {
    shown.push_str("    ")?;
    push_joined(shown, names, "|")?;
    match values {
        Values::File => {
            shown.push_str(") mapfile -t COMPREPLY < <(compgen -f -- \"$current\"); return ;;\n")
        }
        Values::Number => shown.push_str(") COMPREPLY=(); return ;;\n"),
        Values::OneOf(texts) => {
            shown.push_str(") mapfile -t COMPREPLY < <(compgen -W '")?;
            push_joined(shown, texts, " ")?;
            shown.push_str("' -- \"$current\"); return ;;\n")
        }
    }
}

fn push_zsh(shown: &mut String) -> Result<(), AllocError> {
    shown.push_str(ZSH_BEFORE)?;
    for word in &WORDS {
        push_zsh_names(shown, word)?;
        push_zsh_word(shown, word)?;
    }
    shown.push_str(ZSH_BEHIND)
}

/// Adds the names of a word, each with a mark if a value follows: `=` or `+` says that it may stand in the same word.
fn push_zsh_names(shown: &mut String, word: &Word) -> Result<(), AllocError> {
    if let [name] = word.names {
        return push_all(shown, &["  '*", *name, zsh_mark(name, word.asks)]);
    }
    let mut before = "  '*'{";
    for name in word.names {
        push_all(shown, &[before, *name, zsh_mark(name, word.asks)])?;
        before = ",";
    }
    shown.push_str("}'")
}

fn zsh_mark(name: &str, asks: Asks) -> &'static str {
    match asks {
        Asks::Flag(_) => "",
        Asks::Value(_, _) if name.starts_with("--") => "=",
        Asks::Value(_, _) => "+",
    }
}

/// Adds the description of a word and its values, behind its names.
fn push_zsh_word(shown: &mut String, word: &Word) -> Result<(), AllocError> {
    let about = ZshText(word.about);
    write!(shown, "[{about}]")?;
    match word.asks {
        Asks::Flag(_) => {}
        Asks::Value(_, Values::File) => shown.push_str(":file:_files")?,
        Asks::Value(_, Values::Number) => shown.push_str(":number: ")?,
        Asks::Value(_, Values::OneOf(texts)) => push_zsh_texts(shown, texts)?,
    }
    shown.push_str("' \\\n")
}

fn push_zsh_texts(shown: &mut String, texts: &[&str]) -> Result<(), AllocError> {
    shown.push_str(":value:(")?;
    push_joined(shown, texts, " ")?;
    shown.push_str(")")
}

fn push_fish(shown: &mut String) -> Result<(), AllocError> {
    for word in &WORDS {
        push_fish_word(shown, word)?;
    }
    Ok(())
}

fn push_fish_word(shown: &mut String, word: &Word) -> Result<(), AllocError> {
    shown.push_str("complete -c cedar-validate")?;
    push_fish_names(shown, word.names)?;
    if let Asks::Value(_, values) = word.asks {
        push_fish_values(shown, values)?;
    }
    push_all(shown, &[" -d '", word.about, "'\n"])
}

/// Adds the names of a word: a long name begins with two hyphens.
fn push_fish_names(shown: &mut String, names: &[&str]) -> Result<(), AllocError> {
    for name in names {
        let parts = match name.strip_prefix("--") {
            Some(long) => [" -l ", long],
            None => [" -s ", name.trim_start_matches('-')],
        };
        push_all(shown, &parts)?;
    }
    Ok(())
}

fn push_fish_values(shown: &mut String, values: Values) -> Result<(), AllocError> {
    match values {
        Values::File => shown.push_str(" -r -F"),
        Values::Number => shown.push_str(" -x"),
        Values::OneOf(texts) => {
            shown.push_str(" -x -a '")?;
            push_joined(shown, texts, " ")?;
            shown.push_str("'")
        }
    }
}

/// A text in the brackets of a description for zsh.
#[derive(Drop)]
struct ZshText<'a>(&'a str);

impl fmt::Display for ZshText<'_> {
    fn fmt<W: fmt::Write>(&self, f: &mut fmt::Formatter<W>) -> fmt::Result {
        for c in self.0.chars() {
            if matches!(c, '[' | ']' | ':' | '\\') {
                f.write_char('\\')?;
            }
            f.write_char(c)?;
        }
        Ok(())
    }
}
