//! Settings of a call: how it asks for policies to be judged.
use cedar_json::{FormError, Object, Value, ValueKind, expected, text_of};
use cedar_types::base::ValidationMode;

/// The depth that a condition may have if the call does not say it. A call then fits a thread that
/// has 1 MiB of stack.
pub const DEFAULT_DEPTH: u32 = 100;

/// The settings that a call asks for.
#[derive(Clone, Copy, PartialEq, Eq, Debug)]
pub struct Asked {
    pub mode: ValidationMode,
    /// The level at which policies are judged, if one is asked for.
    pub level: Option<u32>,
    /// Whether the answer says more than Cedar's own does.
    pub has_details: bool,
    /// The number of nodes of a condition that may stand inside each other.
    pub depth: u32,
}

impl Asked {
    /// Reads these settings. If a key is left out, the mode is Strict, there is no level, no
    /// details are asked for, and the depth is [`DEFAULT_DEPTH`]. It fails at a key that does not
    /// exist, and at a value that the key cannot have.
    pub fn read(settings: Option<&Value>) -> Result<Asked, FormError> {
        let mut asked = Asked {
            mode: ValidationMode::Strict,
            level: None,
            has_details: false,
            depth: DEFAULT_DEPTH,
        };
        let Some(settings) = settings else {
            return Ok(asked);
        };
        let object = Object::of(settings)?;
        object.allow(&["mode", "level", "details", "depth"])?;
        if let Some(mode) = object.given("mode") {
            asked.mode = mode_of(mode)?;
        }
        if let Some(level) = object.given("level") {
            asked.level = Some(number_of(level)?);
        }
        if let Some(details) = object.given("details") {
            asked.has_details = truth_of(details)?;
        }
        if let Some(depth) = object.given("depth") {
            asked.depth = number_of(depth)?;
        }
        Ok(asked)
    }
}

fn mode_of(value: &Value) -> Result<ValidationMode, FormError> {
    match text_of(value)? {
        "strict" | "Strict" => Ok(ValidationMode::Strict),
        "permissive" | "Permissive" => Ok(ValidationMode::Permissive),
        "partial" | "Partial" => Ok(ValidationMode::Partial),
        _ => Err(expected(value, "`strict`, `permissive` or `partial`")),
    }
}

fn number_of(value: &Value) -> Result<u32, FormError> {
    let ValueKind::Integer(number) = &value.kind else {
        return Err(expected(value, "a number"));
    };
    match u32::try_from(*number) {
        Ok(number) => Ok(number),
        Err(_) => Err(expected(value, "a number from 0 to 4294967295")),
    }
}

fn truth_of(value: &Value) -> Result<bool, FormError> {
    match &value.kind {
        ValueKind::Boolean(truth) => Ok(*truth),
        _ => Err(expected(value, "`true` or `false`")),
    }
}
