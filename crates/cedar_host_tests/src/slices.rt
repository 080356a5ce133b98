// Reports of a host on a set of policies that it evaluates over slices.
use crate::embedding::policies::{
    APPROVED_SHARING, BY_ITS_CONTACT, BY_THEIR_CONTACT, MISSPELT, UNGUARDED, approved_sharing,
    by_its_contact, by_their_contact, misspelt, unguarded,
};
use crate::embedding::schemas::documents;
use crate::wanted::{ACCEPTED, IMPOSSIBLE, REFUSED, Want, is_said, number_policies, of_an_unknown};
use cedar_host::policy_sets::WrittenPolicy;
use cedar_host::safety::SoundMode;
use cedar_host::slices::validate_for_slices;
use cedar_typechecker::rbac::Validator;
use cedar_types::base::ExtensionSchemas;
use std::alloc::{AllocError, Global};
use std::process::Abort;
use std::test::Fail;

const IMPOSSIBLE_3: &str =
    "for policy `policy3`, policy is impossible: it evaluates to false for every valid request";

/// Each policy with its text and an id of its own; the last has an unknown, and no text.
fn policies(alloc: Global) -> Result<Vec<WrittenPolicy>, AllocError> {
    let listed = vec![in alloc;
        (approved_sharing(alloc)?, APPROVED_SHARING),
        (by_its_contact(alloc)?, BY_ITS_CONTACT),
        (by_their_contact(alloc)?, BY_THEIR_CONTACT),
        (misspelt(alloc)?, MISSPELT),
        (unguarded(alloc)?, UNGUARDED),
        (of_an_unknown(alloc)?, ""),
    ]?;
    number_policies(alloc, listed)
}

const MISSPELT_WANTED: Want = Want {
    warnings: &[IMPOSSIBLE_3],
    ..IMPOSSIBLE
};

/// The report at any number of steps. The check and the validation with levels find one error, and it is listed once.
const UNGUARDED_WANTED: Want = Want {
    errors: &[
        "43..56 `principal.vip`: for policy `policy4`, \
         access to optional attribute `vip` on `User` is not guarded",
    ],
    ..REFUSED
};

/// The report at any number of steps, though the validation with levels finds no error.
const UNKNOWN_WANTED: Want = Want {
    errors: &["for policy `policy5`, no error says why: an unknown, or too deep a nesting"],
    ..REFUSED
};

const WITHOUT_STEPS: &[Want] = &[
    ACCEPTED,
    Want {
        errors: &[
            "43..59 `resource.contact`: for policy `policy1`, \
             this policy requires level 1, which exceeds the maximum allowed level (0)",
        ],
        ..REFUSED
    },
    Want {
        errors: &[
            "43..67 `resource.contact.contact`: for policy `policy2`, \
             this policy requires level 2, which exceeds the maximum allowed level (0)",
        ],
        ..REFUSED
    },
    Want {
        is_impossible: true,
        errors: &[
            "for policy `policy3`, \
                   this policy requires level 1, which exceeds the maximum allowed level (0)",
        ],
        warnings: &[IMPOSSIBLE_3],
        ..REFUSED
    },
    UNGUARDED_WANTED,
    UNKNOWN_WANTED,
];

const WITH_ONE: &[Want] = &[
    ACCEPTED,
    ACCEPTED,
    Want {
        errors: &[
            "43..67 `resource.contact.contact`: for policy `policy2`, \
             this policy requires level 2, which exceeds the maximum allowed level (1)",
        ],
        ..REFUSED
    },
    MISSPELT_WANTED,
    UNGUARDED_WANTED,
    UNKNOWN_WANTED,
];

const WITH_TWO: &[Want] = &[
    ACCEPTED,
    ACCEPTED,
    ACCEPTED,
    MISSPELT_WANTED,
    UNGUARDED_WANTED,
    UNKNOWN_WANTED,
];

/// Checks the reports on the policies, in this mode, for slices of `steps` steps.
fn are_said(
    rt: &impl Abort,
    alloc: Global,
    validator: &Validator<'_>,
    mode: SoundMode,
    steps: u32,
    wanted: &[Want],
) -> Result<(), AllocError> {
    let policies = policies(alloc)?;
    let reports = validate_for_slices(alloc, validator, mode, steps, &policies)?;
    assert_eq!(rt; reports.len(), wanted.len());
    for (answer, want) in reports.iter().zip(wanted) {
        is_said(rt, &answer.report, want);
    }
    Ok(())
}

/// The reports for slices of no step, of one and of two, in each mode.
const SAID: [(SoundMode, u32, &[Want]); 6] = [
    (SoundMode::Strict, 0, WITHOUT_STEPS),
    (SoundMode::Strict, 1, WITH_ONE),
    (SoundMode::Strict, 2, WITH_TWO),
    (SoundMode::Permissive, 0, WITHOUT_STEPS),
    (SoundMode::Permissive, 1, WITH_ONE),
    (SoundMode::Permissive, 2, WITH_TWO),
];

#[test]
fn a_policy_is_accepted_from_its_level_on(rt: HostRuntime) -> Result<(), Fail> {
    let alloc = rt.alloc();
    let extensions = ExtensionSchemas::default(alloc);
    let validator = Validator::new(documents(alloc)?, &extensions);
    for (mode, steps, wanted) in SAID {
        are_said(&rt, alloc, &validator, mode, steps, wanted)?;
    }
    Ok(())
}
