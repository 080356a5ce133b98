// A gate in front of an authoriser: it admits policies of a file by the schema of a file, and tells
// why it refuses the others.
ghost use Rattle.std.specs.Prelude.{IfOk};
ghost use Rattle.cedar_host.specs.Safety.{sound_basis};
ghost use Rattle.cedar_samples.specs.Decisions.{AreDecided};

use crate::texts::*;
use std::alloc::{AllocError, Global};
use std::{fs, io};

/// The number of steps of the slices over which the authoriser evaluates.
const STEPS: u32 = 2;

/// The decision of the gate on policies.
#[derive(Drop)]
struct Decisions<'a> {
    admitted: Vec<SliceReport<'a>>,
    refused: Vec<SliceReport<'a>>,
}

/// Admits the policies without findings, and refuses the others. Each admitted policy gives a
/// boolean, or fails only for a missing entity, an overflow or an extension function; and its
/// result does not change over a part of the entities that has the slice of two steps.
fn decide<'a, C: ArgumentCheck>(
    alloc: Global,
    validator: &Validator<'_, C>,
    mode: SoundMode,
    policies: &'a [WrittenPolicy],
) -> Result<Decisions<'a>, AllocError>
    ensures { IfOk result (λ decisions.
        AreDecided (sound_basis mode C.refusal validator.now) 2 policies.now
        decisions.admitted.items decisions.refused.items) }
{
    let mut admitted = Vec::new(alloc);
    let mut refused = Vec::new(alloc);
    let reports = validate_for_slices(alloc, validator, mode, STEPS, policies)?;
    for report in reports {
        if report.report.is_accepted {
            admitted.push(report)?;
        } else {
            refused.push(report)?;
        }
    }
    Ok(Decisions { admitted, refused })
}

/// A policy and its verdict, and below it the findings against it.
fn show(rt: &HostRuntime, verdict: &str, of: &SliceReport<'_>) -> io::Result<()> {
    let policy = of.report.policy;
    let id = &policy.template.id;
    println!(rt; "{verdict} {id}, which {}s", policy.effect)?;
    for error in &of.report.errors {
        println!(rt; "    error: {error}")?;
    }
    for warning in &of.report.warnings {
        println!(rt; "    warning: {warning}")?;
    }
    Ok(())
}

/// Prints the admitted policies, and the reasons why the others are refused.
pub fn run(rt: &HostRuntime) -> Result<(), HostError> {
    let alloc = rt.alloc();
    let checks = Checks {
        ip: Box::new(alloc, Constructor::Ip.check(alloc))?,
        decimal: Box::new(alloc, Constructor::Decimal.check(alloc))?,
        datetime: Box::new(alloc, Constructor::Datetime.check(alloc))?,
        duration: Box::new(alloc, Constructor::Duration.check(alloc))?,
    };
    let extensions = ExtensionSchemas::new(functions(alloc, checks)?, overloaded_types(alloc)?)?;
    let schema = whole_schema(
        alloc,
        &fs::read_to_string(rt, "gate/documents.cedarschema")?,
    )?;
    let validator = Validator::new(schema, &extensions);
    let policies = written_policies(alloc, &fs::read_to_string(rt, "gate/documents.cedar")?)?;
    for id in repeated_ids(alloc, &policies)? {
        return Err(HostError::RepeatedId(id));
    }
    let decisions = decide(alloc, &validator, SoundMode::Strict, &policies)?;
    for report in &decisions.admitted {
        show(rt, "admitted", report)?;
    }
    for report in &decisions.refused {
        show(rt, "refused", report)?;
    }
    if let Some(steps) = level_of(&decisions.admitted) {
        println!(rt;
            "the admitted policies need {} of {STEPS} steps",
            steps.level
        )?;
    }
    Ok(())
}
