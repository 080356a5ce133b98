//! The extension functions that a policy calls as methods.
use crate::types::ValueType;

/// A function that a policy calls as a method of its first argument, for example `a.isInRange(b)`.
#[derive(Clone, Copy, Debug)]
pub struct Method {
    /// The name by which a policy calls the method.
    pub name: &'static str,
    /// The types of its arguments; the first is that of the value before the dot.
    pub takes: &'static [ValueType],
    /// The type of its value.
    pub gives: ValueType,
}

/// All methods of extension values.
pub const METHODS: [Method; 18] = [
    Method {
        name: "isIpv4",
        takes: &[ValueType::Ipaddr],
        gives: ValueType::Bool,
    },
    Method {
        name: "isIpv6",
        takes: &[ValueType::Ipaddr],
        gives: ValueType::Bool,
    },
    Method {
        name: "isLoopback",
        takes: &[ValueType::Ipaddr],
        gives: ValueType::Bool,
    },
    Method {
        name: "isMulticast",
        takes: &[ValueType::Ipaddr],
        gives: ValueType::Bool,
    },
    Method {
        name: "isInRange",
        takes: &[ValueType::Ipaddr, ValueType::Ipaddr],
        gives: ValueType::Bool,
    },
    Method {
        name: "lessThan",
        takes: &[ValueType::Decimal, ValueType::Decimal],
        gives: ValueType::Bool,
    },
    Method {
        name: "lessThanOrEqual",
        takes: &[ValueType::Decimal, ValueType::Decimal],
        gives: ValueType::Bool,
    },
    Method {
        name: "greaterThan",
        takes: &[ValueType::Decimal, ValueType::Decimal],
        gives: ValueType::Bool,
    },
    Method {
        name: "greaterThanOrEqual",
        takes: &[ValueType::Decimal, ValueType::Decimal],
        gives: ValueType::Bool,
    },
    Method {
        name: "offset",
        takes: &[ValueType::Datetime, ValueType::Duration],
        gives: ValueType::Datetime,
    },
    Method {
        name: "durationSince",
        takes: &[ValueType::Datetime, ValueType::Datetime],
        gives: ValueType::Duration,
    },
    Method {
        name: "toDate",
        takes: &[ValueType::Datetime],
        gives: ValueType::Datetime,
    },
    Method {
        name: "toTime",
        takes: &[ValueType::Datetime],
        gives: ValueType::Duration,
    },
    Method {
        name: "toMilliseconds",
        takes: &[ValueType::Duration],
        gives: ValueType::Long,
    },
    Method {
        name: "toSeconds",
        takes: &[ValueType::Duration],
        gives: ValueType::Long,
    },
    Method {
        name: "toMinutes",
        takes: &[ValueType::Duration],
        gives: ValueType::Long,
    },
    Method {
        name: "toHours",
        takes: &[ValueType::Duration],
        gives: ValueType::Long,
    },
    Method {
        name: "toDays",
        takes: &[ValueType::Duration],
        gives: ValueType::Long,
    },
];
