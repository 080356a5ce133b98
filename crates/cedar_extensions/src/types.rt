//! The types that Cedar's functions take and give.
ghost use Rattle.std.specs.Prelude.{◌≡◌, IfOk};
ghost use Rattle.cedar_types.specs.Types.{ty_of, TExtension};
ghost use Rattle.cedar_extensions.specs.Functions.{plain_name, type_name, type_of};

use cedar_types::base::{CedarType, Name};
use std::alloc::{AllocError, Global};

/// A type that one of Cedar's functions takes or gives.
#[derive(Clone, Copy, PartialEq, Eq, Debug)]
pub enum ValueType {
    /// Truth values.
    Bool,
    /// Whole numbers of 64 bits.
    Long,
    /// Texts.
    String,
    /// Addresses of the internet, and ranges of them.
    Ipaddr,
    /// Numbers with up to four places behind the point.
    Decimal,
    /// Points in time.
    Datetime,
    /// Spans of time.
    Duration,
}

impl ValueType {
    /// Its name in a schema.
    pub fn name(self) -> &'static str
        ensures { result.now ≡ type_name self }
    {
        match self {
            ValueType::Bool => "Bool",
            ValueType::Long => "Long",
            ValueType::String => "String",
            ValueType::Ipaddr => "ipaddr",
            ValueType::Decimal => "decimal",
            ValueType::Datetime => "datetime",
            ValueType::Duration => "duration",
        }
    }

    /// The type by which typing knows it. Where memory is refused, the answer is an `AllocError`.
    pub fn cedar_type(self, alloc: Global) -> Result<CedarType, AllocError>
        ensures { IfOk result (λ t. ty_of t ≡ type_of self) }
    {
        match self {
            ValueType::Bool => Ok(CedarType::primitive_boolean()),
            ValueType::Long => Ok(CedarType::primitive_long()),
            ValueType::String => Ok(CedarType::primitive_string()),
            ValueType::Ipaddr => extension_type(alloc, self.name()),
            ValueType::Decimal => extension_type(alloc, self.name()),
            ValueType::Datetime => extension_type(alloc, self.name()),
            ValueType::Duration => extension_type(alloc, self.name()),
        }
    }
}

/// The extension type of this name.
fn extension_type(alloc: Global, name: &str) -> Result<CedarType, AllocError>
    ensures { IfOk result (λ t. ty_of t ≡ TExtension (plain_name name.now)) }
{
    CedarType::extension(alloc, Name::unqualified_name(alloc, name)?)
}
