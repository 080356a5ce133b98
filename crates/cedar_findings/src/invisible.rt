// Characters that show nothing, or a blank, so that a text with them looks like the text without.

/// The first and the last character of each run: those that Unicode calls ignorable, controls, the blanks beside the
/// one of ASCII, the fillers of Hangul, the empty Braille pattern, and the empty head of a note.
const RUNS: [(char, char); 24] = [
    ('\u{80}', '\u{9f}'),
    ('\u{a0}', '\u{a0}'),
    ('\u{ad}', '\u{ad}'),
    ('\u{34f}', '\u{34f}'),
    ('\u{115f}', '\u{1160}'),
    ('\u{1680}', '\u{1680}'),
    ('\u{17b4}', '\u{17b5}'),
    ('\u{180b}', '\u{180f}'),
    ('\u{2000}', '\u{200d}'),
    ('\u{2028}', '\u{2029}'),
    ('\u{202f}', '\u{202f}'),
    ('\u{205f}', '\u{2065}'),
    ('\u{206a}', '\u{206f}'),
    ('\u{2800}', '\u{2800}'),
    ('\u{3000}', '\u{3000}'),
    ('\u{3164}', '\u{3164}'),
    ('\u{fe00}', '\u{fe0f}'),
    ('\u{feff}', '\u{feff}'),
    ('\u{ffa0}', '\u{ffa0}'),
    ('\u{fff0}', '\u{fff8}'),
    ('\u{1bca0}', '\u{1bca3}'),
    ('\u{1d159}', '\u{1d159}'),
    ('\u{1d173}', '\u{1d17a}'),
    ('\u{e0000}', '\u{e0fff}'),
];

/// Whether a character shows nothing or a blank. Those of ASCII, and marks of direction, are not among them.
pub(crate) fn shows_nothing(c: char) -> bool {
    for (first, last) in &RUNS {
        if *first <= c && c <= *last {
            return true;
        }
    }
    false
}
