// Names: texts of words with `::` between them.

/// Returns whether a text is words with `::` between them.
pub fn is_name(text: &str) -> bool {
    text.split("::").all(|word| is_word(word))
}

/// Returns whether a text is a word: letters, digits and `_`, without a digit first.
pub fn is_word(text: &str) -> bool {
    !text.is_empty()
        && text.chars().all(|c| c.is_alphanumeric() || c == '_')
        && !text.starts_with(|c: char| c.is_ascii_digit())
}

/// Returns whether a word is the name of an extension type.
pub fn is_extension_type(word: &str) -> bool {
    matches!(word, "ipaddr" | "decimal" | "datetime" | "duration")
}

/// Returns the path before the last `::` of a name: the empty text if there is none.
pub fn path_of(name: &str) -> &str {
    match name.rsplit_once("::") {
        Some((path, _)) => path,
        None => "",
    }
}
