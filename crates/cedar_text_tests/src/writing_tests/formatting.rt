// The formatting of a text, as the tests call it.
use cedar_writing::{FormatFault, Layout, format_policies};
use std::alloc::{AllocError, Global};

/// The text in Cedar's layout, or the fault behind `fault: `.
pub fn shown(alloc: Global, text: &str) -> Result<String, AllocError> {
    shown_in(alloc, text, Layout::of_cedar())
}

/// The text in a layout, or the fault behind `fault: `. If the formatted text is formatted to
/// another text, the answer is both texts.
pub fn shown_in(alloc: Global, text: &str, layout: Layout) -> Result<String, AllocError> {
    let formatted = match format_policies(alloc, text, layout) {
        Ok(formatted) => formatted,
        Err(FormatFault::Memory(error)) => return Err(error),
        Err(fault) => return format!(in alloc; "fault: {fault}"),
    };
    match format_policies(alloc, formatted.text.as_str(), layout) {
        Ok(again) if again.text == formatted.text => Ok(formatted.text),
        Ok(again) => format!(in alloc; "{}is formatted to\n{}", formatted.text, again.text),
        Err(FormatFault::Memory(error)) => Err(error),
        Err(fault) => format!(in alloc; "{}fault: {fault}", formatted.text),
    }
}
