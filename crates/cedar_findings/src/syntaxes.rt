//! Syntaxes of schemas and policies.

/// The syntax of a text.
#[derive(Clone, Copy, PartialEq, Eq, Debug)]
pub enum Syntax {
    /// Cedar's own syntax.
    Cedar,
    /// Cedar's forms of JSON.
    Json,
}

impl Syntax {
    /// The syntax of this name, if there is one.
    pub fn by_name(word: &str) -> Option<Syntax> {
        match word {
            "text" => Some(Syntax::Cedar),
            "json" => Some(Syntax::Json),
            _ => None,
        }
    }

    /// The syntax that a format of Cedar's command line names, if it is one.
    pub fn by_format(word: &str) -> Option<Syntax> {
        match word {
            "cedar" => Some(Syntax::Cedar),
            "json" => Some(Syntax::Json),
            _ => None,
        }
    }

    /// The syntax of a text. JSON begins with a brace or a bracket, perhaps behind blanks, and no
    /// text in Cedar's own syntax does.
    pub fn of(text: &str) -> Syntax {
        if text.trim_start().starts_with(['{', '[']) {
            Syntax::Json
        } else {
            Syntax::Cedar
        }
    }
}
