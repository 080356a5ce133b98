//! The extension functions of Cedar: those of `ipaddr`, `decimal`, `datetime` and `duration`.
ghost use Rattle.std.specs.Prelude.{◌≡◌, ◌++◌, Some, IfOk, OnOk, map, option_map};
ghost use Rattle.std.specs.List.{list_any};
ghost use Rattle.std.specs.Option.{is_some};
ghost use Rattle.cedar_types.specs.Extensions.Functions.{function_of};
ghost use Rattle.cedar_types.specs.Names.{path_of, text_eq};
ghost use Rattle.cedar_types.specs.Types.{ty_of};
ghost use Rattle.cedar_extensions.specs.Functions.{all_functions, by_constructor, checked, constructor_named, constructor_signature, is_method_named, ordered_types, signature, type_of};
ghost use Rattle.cedar_extensions.specs.Functions.Methods.{signature_of, unchecked};

use crate::checks::Constructor;
use crate::methods::{METHODS, Method};
use crate::types::ValueType;
use cedar_types::base::{ArgumentCheck, CedarType, ExtensionFunctionType, Name};
use std::alloc::{AllocError, Global};
use std::collections::BTreeSet;

/// Whether a function is a constructor, which makes an extension value of a text. A policy calls it as a function, for example
/// `ip("1.2.3.4")`.
pub fn is_constructor(name: &str) -> bool
    ensures { result ≡ is_some (constructor_named name.now) }
{
    Constructor::from_name(name).is_some()
}

/// Whether a function is a method of an extension value. A policy calls it on its first argument, for example `a.isInRange(b)`.
pub fn is_method(name: &str) -> bool
    ensures { result ≡ is_method_named name.now }
{
    has_name(&METHODS, name)
}

/// Whether one of these methods has this name.
fn has_name(methods: &[Method], name: &str) -> bool
    ensures { result ≡ list_any (λ m. text_eq (signature_of m).name name.now) methods.now }
{
    methods.iter().any(|method| method.name == name)
}

/// A check for each constructor of extension values.
#[derive(Drop)]
pub struct Checks {
    pub ip: Box<dyn ArgumentCheck>,
    pub decimal: Box<dyn ArgumentCheck>,
    pub datetime: Box<dyn ArgumentCheck>,
    pub duration: Box<dyn ArgumentCheck>,
}

/// All extension functions of Cedar, with these checks. If memory is refused, the answer is an `AllocError`.
pub fn functions(alloc: Global, checks: Checks) -> Result<Vec<ExtensionFunctionType>, AllocError>
    ensures { IfOk result (λ v. (meaning : _) → map (function_of meaning) v.items
        ≡ all_functions (by_constructor (meaning checks.ip) (meaning checks.decimal)
        (meaning checks.datetime) (meaning checks.duration))) }
{
    let Checks {
        ip,
        decimal,
        datetime,
        duration,
    } = checks;
    let mut functions = Vec::new(alloc);
    functions.push(constructor_function(alloc, Constructor::Ip, ip)?)?;
    functions.push(constructor_function(alloc, Constructor::Decimal, decimal)?)?;
    functions.push(constructor_function(alloc, Constructor::Datetime, datetime)?)?;
    functions.push(constructor_function(alloc, Constructor::Duration, duration)?)?;
    add_methods(alloc, &mut functions, &METHODS)?;
    Ok(functions)
}

/// The function of a constructor, with this check.
fn constructor_function(
    alloc: Global,
    constructor: Constructor,
    check: Box<dyn ArgumentCheck>,
) -> Result<ExtensionFunctionType, AllocError>
    ensures { IfOk result (λ f. (meaning : _) → function_of meaning f
        ≡ checked (constructor_signature constructor) (Some (meaning check))) }
{
    let takes = [ValueType::String];
    function(
        alloc,
        constructor.name(),
        &takes,
        constructor.makes(),
        Some(check),
    )
}

/// Adds the functions of these methods.
fn add_methods(
    alloc: Global,
    functions: &mut Vec<ExtensionFunctionType>,
    methods: &[Method],
) -> Result<(), AllocError>
    ensures { OnOk result ((meaning : _) → map (function_of meaning) functions.new.items
        ≡ map (function_of meaning) functions.old.items ++ map unchecked methods.now) }
{
    for method in methods {
        functions.push(method_function(alloc, method)?)?;
    }
    Ok(())
}

/// The function of a method, which has no check.
fn method_function(alloc: Global, method: &Method) -> Result<ExtensionFunctionType, AllocError>
    ensures { IfOk result (λ f. (meaning : _) → function_of meaning f
        ≡ unchecked method.now) }
{
    function(alloc, method.name, method.takes, method.gives, None)
}

/// A function of this name, with the types that it takes and the type that it gives.
fn function(
    alloc: Global,
    name: &str,
    takes: &[ValueType],
    gives: ValueType,
    check_arguments: Option<Box<dyn ArgumentCheck>>,
) -> Result<ExtensionFunctionType, AllocError>
    ensures { IfOk result (λ f. (meaning : _) → function_of meaning f
        ≡ checked (signature name.now takes.now gives) (option_map meaning check_arguments)) }
{
    let argument_types = types_of(alloc, takes)?;
    Ok(ExtensionFunctionType {
        name: Name::unqualified_name(alloc, name)?,
        argument_types,
        is_variadic: false,
        return_type: gives.cedar_type(alloc)?,
        check_arguments,
    })
}

/// The types by which typing knows these kinds of values.
fn types_of(alloc: Global, types: &[ValueType]) -> Result<Vec<CedarType>, AllocError>
    ensures { IfOk result (λ v. map ty_of v.items ≡ map type_of types.now) }
{
    let mut all = Vec::new(alloc);
    for it in types {
        all.push(it.cedar_type(alloc)?)?;
    }
    Ok(all)
}

/// The extension types that `<` and `<=` compare. If memory is refused, the answer is an `AllocError`.
pub fn overloaded_types(alloc: Global) -> Result<BTreeSet<Name>, AllocError>
    ensures { IfOk result (λ s. map path_of s.keys ≡ ordered_types) }
{
    let mut types = BTreeSet::new(alloc);
    types.insert(Name::unqualified_name(alloc, ValueType::Datetime.name())?)?;
    types.insert(Name::unqualified_name(alloc, ValueType::Duration.name())?)?;
    Ok(types)
}
