// Reports of a host on a set of policies.
use crate::embedding::policies::{
    APPROVED_SHARING, BY_A_DOCUMENT, FROM_NOWHERE, FROM_RANGE, HAUNTED, MISSPELT, OF_EITHER,
    OF_ONE_USER, UNGUARDED, approved_sharing, by_a_document, from_nowhere, from_range, haunted,
    misspelt, of_either, of_one_user, permit_when, unguarded,
};
use crate::embedding::schemas::documents;
use crate::extensions::cedar_functions;
use crate::wanted::{
    ACCEPTED, IMPOSSIBLE, REFUSED, Want, alone, are_said, number_policies, of_an_unknown,
};
use cedar_host::policy_sets::{WrittenPolicy, validate_set};
use cedar_host::safety::SoundMode;
use cedar_typechecker::rbac::Validator;
use cedar_types::base::{
    Expr, ExtensionSchemas, Literal, SchemaError, Template, ValidationMode, Var,
};
use cedar_typing::typecheck::Typechecker;
use std::alloc::{AllocError, Global};
use std::collections::HashSet;
use std::process::Abort;
use std::test::Fail;

const IMPOSSIBLE_0: &str =
    "for policy `policy0`, policy is impossible: it evaluates to false for every valid request";

const IMPOSSIBLE_2: &str =
    "for policy `policy2`, policy is impossible: it evaluates to false for every valid request";

const IMPOSSIBLE_5: &str =
    "for policy `policy5`, policy is impossible: it evaluates to false for every valid request";

const UNFIT_5: &str =
    "for policy `policy5`, unable to find an applicable action given the policy scope constraints";

/// Each policy with its text and an id of its own.
fn policies(alloc: Global) -> Result<Vec<WrittenPolicy>, AllocError> {
    let listed = vec![in alloc;
        (approved_sharing(alloc)?, APPROVED_SHARING),
        (unguarded(alloc)?, UNGUARDED),
        (misspelt(alloc)?, MISSPELT),
        (haunted(alloc)?, HAUNTED),
        (of_one_user(alloc)?, OF_ONE_USER),
        (by_a_document(alloc)?, BY_A_DOCUMENT),
        (of_either(alloc)?, OF_EITHER),
    ]?;
    number_policies(alloc, listed)
}

const UNGUARDED_WANTED: Want = Want {
    errors: &[
        "43..56 `principal.vip`: for policy `policy1`, \
         access to optional attribute `vip` on `User` is not guarded",
    ],
    ..REFUSED
};

const MISSPELT_WANTED: Want = Want {
    warnings: &[IMPOSSIBLE_2],
    ..IMPOSSIBLE
};

const HAUNTED_WANTED: Want = Want {
    errors: &["74..79 `Ghost`: for policy `policy3`, unrecognized entity type `Ghost`"],
    ..REFUSED
};

const UNFIT_WANTED: Want = Want {
    warnings: &[IMPOSSIBLE_5, UNFIT_5],
    ..IMPOSSIBLE
};

/// The report on the last policy in Strict.
const DISAGREES: Want = Want {
    errors: &[
        "44..93 `if principal has vip then principal else resource`: for policy `policy6`, \
         the types `Document`, `User` are not compatible",
    ],
    ..REFUSED
};

/// The reports on all policies, with this one on the last.
fn wanted(last: Want) -> [Want; 7] {
    [
        ACCEPTED,
        UNGUARDED_WANTED,
        MISSPELT_WANTED,
        HAUNTED_WANTED,
        ACCEPTED,
        UNFIT_WANTED,
        last,
    ]
}

/// Checks the reports on the policies in this mode, by the schema of documents and these functions.
fn are_said_by(
    rt: &impl Abort,
    alloc: Global,
    extensions: &ExtensionSchemas,
    mode: SoundMode,
    policies: &[WrittenPolicy],
    wanted: &[Want],
) -> Result<(), SchemaError> {
    let validator = Validator::new(documents(alloc)?, extensions);
    are_said(
        rt,
        &validate_set(alloc, &validator, mode, policies)?,
        wanted,
    );
    Ok(())
}

/// Checks the reports on the whole set in this mode.
fn are_said_of_all(
    rt: &impl Abort,
    alloc: Global,
    mode: SoundMode,
    wanted: &[Want],
) -> Result<(), SchemaError> {
    let policies = policies(alloc)?;
    let extensions = ExtensionSchemas::default(alloc);
    are_said_by(rt, alloc, &extensions, mode, &policies, wanted)
}

#[test]
fn each_policy_of_a_set_has_its_report(rt: HostRuntime) -> Result<(), Fail> {
    Ok(are_said_of_all(&rt, rt.alloc(), SoundMode::Strict, &wanted(DISAGREES))?)
}

#[test]
fn in_permissive_a_policy_may_unite_types(rt: HostRuntime) -> Result<(), Fail> {
    Ok(are_said_of_all(&rt, rt.alloc(), SoundMode::Permissive, &wanted(ACCEPTED))?)
}

/// Checks that the check alone passes a policy, and finds nothing.
fn is_silent(
    rt: &impl Abort,
    alloc: Global,
    checker: &Typechecker<'_>,
    policy: &Template,
) -> Result<(), AllocError> {
    let mut errors = HashSet::new(alloc);
    let mut warnings = HashSet::new(alloc);
    assert!(rt; checker.typecheck_policy(alloc, policy, &mut errors, &mut warnings)?);
    assert!(rt; errors.is_empty());
    assert!(rt; warnings.is_empty());
    Ok(())
}

#[test]
fn the_check_alone_passes_what_names_an_unknown_type(rt: HostRuntime) -> Result<(), Fail> {
    let alloc = rt.alloc();
    let extensions = ExtensionSchemas::default(alloc);
    let schema = documents(alloc)?;
    let checker = Typechecker::new(&schema, &extensions, ValidationMode::Strict);
    is_silent(&rt, alloc, &checker, &haunted(alloc)?)?;
    Ok(())
}

/// A policy that is refused with these errors.
fn refused(errors: &'static [&'static str]) -> Want {
    Want { errors, ..REFUSED }
}

/// Checks the report on a policy alone, by the table of Cedar's functions.
fn is_said_alone(
    rt: &impl Abort,
    alloc: Global,
    policy: Template,
    text: &str,
    want: Want,
) -> Result<(), Fail> {
    let policies = alone(alloc, policy, text)?;
    let (extensions, mode) = (cedar_functions(alloc)?, SoundMode::Strict);
    Ok(are_said_by(rt, alloc, &extensions, mode, &policies, &[want])?)
}

#[test]
fn a_policy_may_call_functions_of_the_table(rt: HostRuntime) -> Result<(), Fail> {
    let alloc = rt.alloc();
    is_said_alone(&rt, alloc, from_range(alloc)?, FROM_RANGE, ACCEPTED)
}

#[test]
fn what_a_check_refuses_is_refused_at_its_place(rt: HostRuntime) -> Result<(), Fail> {
    let alloc = rt.alloc();
    let errors = &["71..77 `ip(\"\")`: for policy `policy0`, invalid argument: the text is empty"];
    is_said_alone(
        &rt,
        alloc,
        from_nowhere(alloc)?,
        FROM_NOWHERE,
        refused(errors),
    )
}

/// `principal.vip && false`
fn unguarded_and_false(alloc: Global) -> Result<Template, AllocError> {
    let access = Expr::get_attr(alloc, Expr::var(Var::Principal), "vip")?;
    let condition = Expr::and(alloc, access, Expr::val(Literal::from(false)))?;
    permit_when(alloc, "", condition)
}

#[test]
fn an_error_counts_where_a_policy_is_impossible_too(rt: HostRuntime) -> Result<(), Fail> {
    let alloc = rt.alloc();
    let want = Want {
        is_impossible: true,
        errors: &[
            "for policy `policy0`, access to optional attribute `vip` on `User` is not guarded",
        ],
        warnings: &[IMPOSSIBLE_0],
        ..REFUSED
    };
    is_said_alone(&rt, alloc, unguarded_and_false(alloc)?, "", want)
}

#[test]
fn a_policy_that_is_refused_without_an_error_has_a_line(rt: HostRuntime) -> Result<(), Fail> {
    let alloc = rt.alloc();
    let errors = &["for policy `policy0`, no error says why: an unknown, or too deep a nesting"];
    is_said_alone(&rt, alloc, of_an_unknown(alloc)?, "", refused(errors))
}

/// An access to an attribute with a line break in its name.
fn of_a_forged_name(alloc: Global) -> Result<Template, AllocError> {
    let attr = "x`\nfor policy `policy1`, \u{202e}";
    permit_when(
        alloc,
        "",
        Expr::get_attr(alloc, Expr::var(Var::Principal), attr)?,
    )
}

#[test]
fn a_name_with_a_line_break_begins_no_line(rt: HostRuntime) -> Result<(), Fail> {
    let alloc = rt.alloc();
    let errors = &[
        "for policy `policy0`, attribute `x`\\nfor policy `policy1`, \\u{202e}` does not exist on `User`",
    ];
    is_said_alone(&rt, alloc, of_a_forged_name(alloc)?, "", refused(errors))
}
