// Places, shown as the text that they cover.
use cedar_types::base::Loc;
use std::alloc::AllocError;

/// The text of places.
#[derive(Clone, Copy)]
pub struct Source<'a> {
    pub text: &'a str,
    /// The place of the policy itself; `None` if it has none.
    pub policy: Option<Loc>,
}

/// Adds ` @ ` and the text at the place, or `the policy`, or `none`.
pub fn push_place(
    shown: &mut String,
    place: Option<Loc>,
    source: Source<'_>,
) -> Result<(), AllocError> {
    let Some(at) = place else {
        return shown.push_str(" @ none");
    };
    if source.policy == Some(at) {
        return shown.push_str(" @ the policy");
    }
    let text = source.text.get(at.start..at.end).unwrap_or("");
    write!(shown, " @ `{text}`")
}
