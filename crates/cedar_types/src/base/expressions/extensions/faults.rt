// The faults of a table of extension functions.
ghost use Rattle.std.specs.Prelude.{◌≡◌, not, map};
ghost use Rattle.std.specs.List.{list_any, IsAllAdjacentAnswer};
ghost use Rattle.cedar_types.specs.Names.{path_of, path_eq};
ghost use Rattle.cedar_types.specs.Types.{ty_of};
ghost use Rattle.cedar_types.specs.Extensions.Functions.{function_of, is_plain_type, may_be_returned};
ghost use Rattle.cedar_types.specs.Extensions.Functions.{has_bad_return, lacks_arguments};

use crate::base::expressions::extensions::ExtensionFunctionType;
use crate::base::types::{BoolType, CedarType};

/// Whether a function has a return type that no function may have.
pub(crate) fn has_bad_return(functions: &[ExtensionFunctionType]) -> bool
    ensures { (meaning : _) →
        result ≡ list_any has_bad_return (map (function_of meaning) functions.now) }
{
    for function in functions {
        if is_return_bad(function) {
            return true;
        }
    }
    false
}

/// Whether a variadic function has no argument types.
pub(crate) fn has_variadic_without_arguments(functions: &[ExtensionFunctionType]) -> bool
    ensures { (meaning : _) →
        result ≡ list_any lacks_arguments (map (function_of meaning) functions.now) }
{
    for function in functions {
        if lacks_arguments(function) {
            return true;
        }
    }
    false
}

/// Whether each function has another name than the next.
pub(crate) fn neighbours_differ(functions: &[ExtensionFunctionType]) -> bool
    ensures { IsAllAdjacentAnswer
        (λ f g b. not (path_eq (path_of f.name) (path_of g.name)) ≡ b) functions.now result }
{
    for later in 1..functions.len() {
        if functions[later - 1].name == functions[later].name {
            return false;
        }
    }
    true
}

fn is_return_bad(function: &ExtensionFunctionType) -> bool
    ensures { (meaning : _) → result ≡ has_bad_return (function_of meaning function.now) }
{
    !may_be_returned(&function.return_type)
}

fn lacks_arguments(function: &ExtensionFunctionType) -> bool
    ensures { (meaning : _) → result ≡ lacks_arguments (function_of meaning function.now) }
{
    function.is_variadic && function.argument_types.len() == 0
}

/// Whether the type is a Boolean, a long, a string, an extension value, or a set of one of these.
fn may_be_returned(t: &CedarType) -> bool
    ensures { result ≡ may_be_returned (ty_of t.now) }
{
    match t {
        CedarType::Set(element) => is_plain_type(element),
        _ => is_plain_type(t),
    }
}

/// Whether the type is a Boolean, a long, a string, or an extension value.
fn is_plain_type(t: &CedarType) -> bool
    ensures { result ≡ is_plain_type (ty_of t.now) }
{
    match t {
        CedarType::Bool(BoolType::AnyBool) => true,
        CedarType::Long | CedarType::String | CedarType::Extension(_) => true,
        CedarType::Bool(BoolType::True | BoolType::False) => false,
        CedarType::Never | CedarType::Set(_) | CedarType::AnySet => false,
        CedarType::Record { .. } | CedarType::Entity(_) => false,
    }
}
