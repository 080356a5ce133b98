// The functions of the tables by which rows and cases are typed.
ghost use Rattle.std.specs.Prelude.{◌≡◌, [], ◌∷◌, map, IfOk};
ghost use Rattle.cedar_types.specs.Types.{ty_of};
ghost use Rattle.cedar_types.specs.Extensions.Functions.{function_of};
ghost use Rattle.cedar_fixtures.specs.Tables.{address, ip, is_in_range, sum};

use cedar_types::base::{ArgumentCheck, CedarType, ExtensionFunctionType, Name};
use std::alloc::{AllocError, Global};
use std::collections::BTreeSet;

/// The extension type of addresses.
fn address(alloc: Global) -> Result<CedarType, AllocError>
    ensures { IfOk result (λ t. ty_of t ≡ address) }
{
    CedarType::extension(alloc, Name::unqualified_name(alloc, "ipaddr")?)
}

/// The function `ip`, from a String to an address.
fn ip(alloc: Global, check: Box<dyn ArgumentCheck>) -> Result<ExtensionFunctionType, AllocError>
    ensures { (meaning : _) → IfOk result (λ f. function_of meaning f ≡ ip (meaning check)) }
{
    Ok(ExtensionFunctionType {
        name: Name::unqualified_name(alloc, "ip")?,
        argument_types: vec![in alloc; CedarType::primitive_string()]?,
        is_variadic: false,
        return_type: address(alloc)?,
        check_arguments: Some(check),
    })
}

/// The function `isInRange`, from two addresses to a Bool.
fn is_in_range(alloc: Global) -> Result<ExtensionFunctionType, AllocError>
    ensures { (meaning : _) → IfOk result (λ f. function_of meaning f ≡ is_in_range) }
{
    Ok(ExtensionFunctionType {
        name: Name::unqualified_name(alloc, "isInRange")?,
        argument_types: vec![in alloc; address(alloc)?, address(alloc)?]?,
        is_variadic: false,
        return_type: CedarType::primitive_boolean(),
        check_arguments: None,
    })
}

/// The function `sum`, of one Long or more.
fn sum(alloc: Global) -> Result<ExtensionFunctionType, AllocError>
    ensures { (meaning : _) → IfOk result (λ f. function_of meaning f ≡ sum) }
{
    Ok(ExtensionFunctionType {
        name: Name::unqualified_name(alloc, "sum")?,
        argument_types: vec![in alloc; CedarType::primitive_long()]?,
        is_variadic: true,
        return_type: CedarType::primitive_long(),
        check_arguments: None,
    })
}

/// The functions `ip`, with this check, and `isInRange`. A table of them has no fault.
pub fn address_functions(
    alloc: Global,
    check: Box<dyn ArgumentCheck>,
) -> Result<Vec<ExtensionFunctionType>, AllocError>
    ensures { (meaning : _) → IfOk result (λ fs.
        map (function_of meaning) fs.items ≡ ip (meaning check) ∷ is_in_range ∷ []) }
{
    Ok(vec![in alloc; ip(alloc, check)?, is_in_range(alloc)?]?)
}

/// The functions `ip`, with this check, `isInRange` and `sum`. A table of them has no fault.
pub fn functions_with_sum(
    alloc: Global,
    check: Box<dyn ArgumentCheck>,
) -> Result<Vec<ExtensionFunctionType>, AllocError>
    ensures { (meaning : _) → IfOk result (λ fs.
        map (function_of meaning) fs.items ≡ ip (meaning check) ∷ is_in_range ∷ sum ∷ []) }
{
    Ok(vec![in alloc; ip(alloc, check)?, is_in_range(alloc)?, sum(alloc)?]?)
}

/// The overloaded types of a table that orders addresses alone.
pub fn addresses_alone(alloc: Global) -> Result<BTreeSet<Name>, AllocError> {
    let mut ordered = BTreeSet::new(alloc);
    ordered.insert(Name::unqualified_name(alloc, "ipaddr")?)?;
    Ok(ordered)
}
