// Faults of tables of extension functions.
use crate::parts::add;
use cedar_types::base::{
    CedarType, ExtensionFunctionType, ExtensionSchemas, ExtensionTableError, Name,
};
use std::alloc::{AllocError, Global};
use std::collections::BTreeSet;
use std::test::Fail;

/// The type that a function returns.
#[derive(Clone, Copy)]
enum Returns {
    Bool,
    Decimal,
    Longs,
    // the rest are refused
    True,
    Anything,
    SetsOfLongs,
}

/// The arguments that a function takes.
#[derive(Clone, Copy)]
enum Takes {
    Nothing,
    One,
    Many,
    ManyOfNoType,
}

/// A function: its name, the types that it takes, and the type that it returns.
struct Described(&'static str, Takes, Returns);

/// Functions that no table refuses, in no order.
const GOOD: &[Described] = &[
    Described("lessThan", Takes::One, Returns::Bool),
    Described("decimal", Takes::One, Returns::Decimal),
    Described("ip", Takes::Many, Returns::Longs),
    Described("now", Takes::Nothing, Returns::Decimal),
    Described("datetime", Takes::One, Returns::Bool),
];

/// Functions that are added to those, and the fault of the table then.
const FAULTS: &[(&[Described], Option<ExtensionTableError>)] = &[
    (&[], None),
    (
        &[Described("a", Takes::One, Returns::True)],
        Some(ExtensionTableError::BadReturnType),
    ),
    (
        &[Described("a", Takes::One, Returns::Anything)],
        Some(ExtensionTableError::BadReturnType),
    ),
    (
        &[Described("a", Takes::One, Returns::SetsOfLongs)],
        Some(ExtensionTableError::BadReturnType),
    ),
    (
        &[Described("a", Takes::ManyOfNoType, Returns::Bool)],
        Some(ExtensionTableError::VariadicWithoutArguments),
    ),
    (
        &[Described("ip", Takes::Nothing, Returns::Bool)],
        Some(ExtensionTableError::DuplicateFunction),
    ),
    (
        &[
            Described("ip", Takes::One, Returns::Bool),
            Described("a", Takes::ManyOfNoType, Returns::Bool),
            Described("b", Takes::One, Returns::True),
        ],
        Some(ExtensionTableError::BadReturnType),
    ),
    (
        &[
            Described("ip", Takes::One, Returns::Bool),
            Described("a", Takes::ManyOfNoType, Returns::Bool),
        ],
        Some(ExtensionTableError::VariadicWithoutArguments),
    ),
];

fn result_type(alloc: Global, returns: Returns) -> Result<CedarType, AllocError> {
    match returns {
        Returns::Bool => Ok(CedarType::primitive_boolean()),
        Returns::Decimal => {
            CedarType::extension(alloc, Name::unqualified_name(alloc, "decimal")?)
        }
        Returns::Longs => CedarType::set(alloc, CedarType::Long),
        Returns::True => Ok(CedarType::singleton_boolean(true)),
        Returns::Anything => Ok(CedarType::any_set()),
        Returns::SetsOfLongs => CedarType::set(alloc, CedarType::set(alloc, CedarType::Long)?),
    }
}

fn function(alloc: Global, described: &Described) -> Result<ExtensionFunctionType, AllocError> {
    let Described(name, takes, returns) = described;
    let argument_types = match takes {
        Takes::One | Takes::Many => vec![in alloc; CedarType::String]?,
        Takes::Nothing | Takes::ManyOfNoType => Vec::new(alloc),
    };
    Ok(ExtensionFunctionType {
        name: Name::unqualified_name(alloc, name)?,
        argument_types,
        is_variadic: matches!(takes, Takes::Many | Takes::ManyOfNoType),
        return_type: result_type(alloc, *returns)?,
        check_arguments: None,
    })
}

/// Adds these functions.
fn add_functions(
    alloc: Global,
    all: &mut Vec<ExtensionFunctionType>,
    described: &[Described],
) -> Result<(), AllocError> {
    for one in described {
        add(all, function(alloc, one)?)?;
    }
    Ok(())
}

/// The fault of the table of these functions beside those that no table refuses.
fn fault(alloc: Global, added: &[Described]) -> Result<Option<ExtensionTableError>, AllocError> {
    let mut all = Vec::new(alloc);
    add_functions(alloc, &mut all, GOOD)?;
    add_functions(alloc, &mut all, added)?;
    Ok(ExtensionSchemas::new(all, BTreeSet::new(alloc)).err())
}

#[test]
fn a_table_is_refused_for_its_first_fault(rt: HostRuntime) -> Result<(), Fail> {
    for (added, want) in FAULTS {
        assert!(rt; fault(rt.alloc(), added)? == *want);
    }
    Ok(())
}

#[test]
fn a_table_may_have_no_function(rt: HostRuntime) -> Result<(), Fail> {
    let empty = ExtensionSchemas::default(rt.alloc());
    assert!(rt; empty.overloaded_types().is_empty());
    Ok(())
}
