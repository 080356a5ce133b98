//! Letters that may be taken for others: letters of several scripts in one text, and letters of another script, or of another
//! kind, that look like Latin ones. The table of those is small: Unicode's own has thousands.
use ucd_script::Script;

/// The Cyrillic letters that look like Latin ones.
const CYRILLIC: &str = "АВЕЅІЈКМНОРСТУХаеорсухѕіјһӏԁԛԝ";

/// The Greek letters that look like Latin ones.
const GREEK: &str = "ΑΒΕΖΗΙΚΜΝΟΡΤΥΧνο";

/// The properties of a text's letters, as they are added.
#[derive(Clone, Copy)]
pub struct Letters {
    scripts: Scripts,
    /// Whether a letter is in the table.
    imitates: bool,
    /// Whether a letter is neither in the table nor in ASCII.
    has_others: bool,
}

/// The scripts that all letters so far may belong to.
#[derive(Clone, Copy, PartialEq, Eq)]
enum Scripts {
    /// No letters so far.
    Any,
    One(Script),
    /// Chinese characters only, which texts of Japanese, Korean and Bopomofo have too.
    Han,
    Japanese,
    Korean,
    Bopomofo,
    /// Letters of several scripts.
    Several,
}

impl Default for Letters {
    fn default() -> Letters {
        Letters {
            scripts: Scripts::Any,
            imitates: false,
            has_others: false,
        }
    }
}

impl Letters {
    /// Adds a character.
    pub fn add(&mut self, c: char) {
        if c.is_ascii() && !c.is_ascii_alphabetic() {
            return;
        }
        self.scripts = common(self.scripts, scripts_of(c));
        if looks_latin(c) {
            self.imitates = true;
        } else if c.is_alphabetic() && !c.is_ascii() {
            self.has_others = true;
        }
    }

    /// Whether the letters are of several scripts.
    pub fn are_mixed(&self) -> bool {
        self.scripts == Scripts::Several
    }

    /// Whether all letters look like Latin ones, and some are not Latin.
    pub fn look_latin(&self) -> bool {
        self.imitates && !self.has_others
    }
}

/// The scripts of a character. A character that several scripts share, for example a digit or a mark, belongs to any.
fn scripts_of(c: char) -> Scripts {
    match Script::for_char(c) {
        Script::Common | Script::Inherited | Script::Unknown => Scripts::Any,
        Script::Han => Scripts::Han,
        Script::Hiragana | Script::Katakana => Scripts::Japanese,
        Script::Hangul => Scripts::Korean,
        Script::Bopomofo => Scripts::Bopomofo,
        script => Scripts::One(script),
    }
}

/// The scripts of letters that belong to both.
fn common(some: Scripts, others: Scripts) -> Scripts {
    match (some, others) {
        (Scripts::Any, _) => others,
        (_, Scripts::Any) => some,
        (Scripts::Han, Scripts::Japanese | Scripts::Korean | Scripts::Bopomofo) => others,
        (Scripts::Japanese | Scripts::Korean | Scripts::Bopomofo, Scripts::Han) => some,
        _ if some == others => some,
        _ => Scripts::Several,
    }
}

/// Whether a character looks like a letter of ASCII and is none.
fn looks_latin(c: char) -> bool {
    match c {
        // wide letters, Roman numbers, mathematical letters, and a few that are written like Latin ones
        '\u{ff21}'..='\u{ff3a}' | '\u{ff41}'..='\u{ff5a}' => true,
        '\u{2160}'..='\u{217f}' | '\u{1d400}'..='\u{1d6a3}' => true,
        '\u{131}' | '\u{251}' | '\u{261}' => true,
        _ => CYRILLIC.contains(c) || GREEK.contains(c),
    }
}
