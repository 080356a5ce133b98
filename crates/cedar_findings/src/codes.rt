//! Codes of the kinds of findings and faults. A code stays when its words are improved, so that programs can rely on it.
use cedar_types::base::{ValidationError, ValidationWarning};

/// A kind of finding or fault.
#[derive(Clone, Copy, PartialEq, Eq, PartialOrd, Ord, Debug)]
pub enum Code {
    UnknownType,
    UnknownAction,
    UnknownId,
    UnexpectedType,
    IncompatibleTypes,
    UnknownAttribute,
    UnguardedAttribute,
    UnguardedTag,
    NoTags,
    UnknownFunction,
    ArgumentCount,
    BadArgument,
    EmptySet,
    ComputedArgument,
    NoRule,
    Level,
    LiteralTarget,
    Unchecked,
    SameId,
    Impossible,
    NoAction,
    Direction,
    LookAlike,
    Environments,
    DataType,
    DataMissing,
    DataUndeclared,
    DataParents,
    DataRequest,
    Rest,
    Fault,
    File,
}

/// All kinds, in order.
pub const CODES: [Code; 32] = [
    Code::UnknownType,
    Code::UnknownAction,
    Code::UnknownId,
    Code::UnexpectedType,
    Code::IncompatibleTypes,
    Code::UnknownAttribute,
    Code::UnguardedAttribute,
    Code::UnguardedTag,
    Code::NoTags,
    Code::UnknownFunction,
    Code::ArgumentCount,
    Code::BadArgument,
    Code::EmptySet,
    Code::ComputedArgument,
    Code::NoRule,
    Code::Level,
    Code::LiteralTarget,
    Code::Unchecked,
    Code::SameId,
    Code::Impossible,
    Code::NoAction,
    Code::Direction,
    Code::LookAlike,
    Code::Environments,
    Code::DataType,
    Code::DataMissing,
    Code::DataUndeclared,
    Code::DataParents,
    Code::DataRequest,
    Code::Rest,
    Code::Fault,
    Code::File,
];

impl Code {
    /// The kind of an error.
    pub fn of_error(error: &ValidationError) -> Code {
        match error {
            ValidationError::UnrecognizedEntityType(_) => Code::UnknownType,
            ValidationError::UnrecognizedActionId(_) => Code::UnknownAction,
            ValidationError::InvalidEnumEntity(_) => Code::UnknownId,
            ValidationError::UnexpectedType(_) => Code::UnexpectedType,
            ValidationError::IncompatibleTypes(_) => Code::IncompatibleTypes,
            ValidationError::UnsafeAttributeAccess(_) => Code::UnknownAttribute,
            ValidationError::UnsafeOptionalAttributeAccess(_) => Code::UnguardedAttribute,
            ValidationError::UnsafeTagAccess(_) => Code::UnguardedTag,
            ValidationError::NoTagsAllowed(_) => Code::NoTags,
            ValidationError::UndefinedFunction(_) => Code::UnknownFunction,
            ValidationError::WrongNumberArguments(_) => Code::ArgumentCount,
            ValidationError::FunctionArgumentValidation(_) => Code::BadArgument,
            ValidationError::EmptySetForbidden(_) => Code::EmptySet,
            ValidationError::NonLitExtConstructor(_) => Code::ComputedArgument,
            ValidationError::InternalInvariantViolation(_) => Code::NoRule,
            ValidationError::MaximumLevelExceeded(_) => Code::Level,
            ValidationError::LiteralDereferenceTarget(_) => Code::LiteralTarget,
        }
    }

    /// The kind of a warning.
    pub fn of_warning(warning: &ValidationWarning) -> Code {
        match warning {
            ValidationWarning::ImpossiblePolicy(_) => Code::Impossible,
            ValidationWarning::InvalidActionApplication(_) => Code::NoAction,
        }
    }

    /// The code in small letters, with a hyphen between words.
    pub fn text(self) -> &'static str {
        match self {
            Code::UnknownType => "unknown-type",
            Code::UnknownAction => "unknown-action",
            Code::UnknownId => "unknown-id",
            Code::UnexpectedType => "unexpected-type",
            Code::IncompatibleTypes => "incompatible-types",
            Code::UnknownAttribute => "unknown-attribute",
            Code::UnguardedAttribute => "unguarded-attribute",
            Code::UnguardedTag => "unguarded-tag",
            Code::NoTags => "no-tags",
            Code::UnknownFunction => "unknown-function",
            Code::ArgumentCount => "argument-count",
            Code::BadArgument => "bad-argument",
            Code::EmptySet => "empty-set",
            Code::ComputedArgument => "computed-argument",
            Code::NoRule => "no-rule",
            Code::Level => "level",
            Code::LiteralTarget => "literal-target",
            Code::Unchecked => "unchecked",
            Code::SameId => "same-id",
            Code::Impossible => "impossible",
            Code::NoAction => "no-action",
            Code::Direction => "direction",
            Code::LookAlike => "look-alike",
            Code::Environments => "environments",
            Code::DataType => "data-type",
            Code::DataMissing => "data-missing",
            Code::DataUndeclared => "data-undeclared",
            Code::DataParents => "data-parents",
            Code::DataRequest => "data-request",
            Code::Rest => "rest",
            Code::Fault => "fault",
            Code::File => "file",
        }
    }

    /// The meaning of the kind, in a sentence.
    pub fn meaning(self) -> &'static str {
        match self {
            Code::UnknownType => "The schema does not declare an entity type.",
            Code::UnknownAction => "The schema does not declare an action.",
            Code::UnknownId => "An enumerated type does not have an id.",
            Code::UnexpectedType => "A part has another type than is expected there.",
            Code::IncompatibleTypes => "Types that meet do not agree.",
            Code::UnknownAttribute => "A type does not declare an attribute.",
            Code::UnguardedAttribute => "An optional attribute is read without a test.",
            Code::UnguardedTag => "A tag is read without a test.",
            Code::NoTags => "A tag is read of a type that declares none.",
            Code::UnknownFunction => "There is no function of a name.",
            Code::ArgumentCount => "A call has too few or too many arguments.",
            Code::BadArgument => "A function cannot read the text that it is called with.",
            Code::EmptySet => "A set has no elements, so that its type is not known.",
            Code::ComputedArgument => "A function that reads a text is called with something else.",
            Code::NoRule => "There is no rule for a part.",
            Code::Level => "More entities are dereferenced than the level allows.",
            Code::LiteralTarget => "An entity that is written there is dereferenced.",
            Code::Unchecked => "A policy is nested too deep to be checked.",
            Code::SameId => "Two policies or two entities of a file have one id.",
            Code::Impossible => "A policy is false for every request.",
            Code::NoAction => "No action fits the scope of a policy.",
            Code::Direction => "A text has marks that change the direction of what is shown.",
            Code::LookAlike => "A text has letters that may be taken for others, or for none.",
            Code::Environments => "A policy applies to other environments by a newer schema.",
            Code::DataType => "A value has another type than the schema declares.",
            Code::DataMissing => "An attribute that the schema requires is not there.",
            Code::DataUndeclared => "The schema does not declare what data has.",
            Code::DataParents => "An entity is in others than the schema allows, or in itself.",
            Code::DataRequest => "An action does not apply to what a request names.",
            Code::Rest => "A policy or data has more findings than are shown.",
            Code::Fault => "A text is no schema, no policy or no data.",
            Code::File => "A file cannot be read.",
        }
    }
}
