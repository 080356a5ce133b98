// Lines of the report: the name of each call and its outcome.
use crate::calls::answers::FOLLOW_UPS;
use crate::calls::capabilities::{BASES, SETS, TAGS};
use crate::calls::copies::COPIES;
use crate::calls::environments::{MODE, OfWalk, Walk, WalkCall};
use crate::calls::expressions::{MORE, ONE_OPERAND, TWO_OPERANDS};
use crate::calls::lines::{Line, LineCall, Probe};
use crate::calls::lookups::LOOKUPS;
use crate::calls::names::NAMES;
use crate::calls::passes::{OfLiterals, Pass, PassWalk};
use crate::calls::policies::WholeCheck;
use crate::calls::request_envs::ENVIRONMENTS;
use crate::calls::schemas::SCHEMAS;
use crate::calls::templates::TEMPLATES;
use crate::calls::typed_trees::TREES;
use crate::calls::types::{BOUNDS, TYPES};
use crate::calls::without_memory::{
    answers, capabilities, chain_cost, environments, levels, look_ups, passes, tables,
};
use crate::refusals::{refuse, was_refused};
use crate::samples::texts::{KNOWN, MANY, NAMED, ONE, SCHEMA, SUMS, UNKNOWN, policy, schema_of};
use crate::sweep::{Call, NOTHING_REFUSED, TAKES_NONE, sweep};
use crate::table::{CHECKS, POLICIES};
use cedar_typechecker::rbac::Validator;
use cedar_types::base::{ExtensionSchemas, ValidationMode};
use cedar_typing::typecheck::Typechecker;
use std::alloc::Global;
use std::io;
use std::io::Write;

/// Makes each call, and writes its outcome.
pub fn report<W: Write>(
    alloc: Global,
    extensions: &ExtensionSchemas,
    out: &mut W,
) -> io::Result<()> {
    let listens = refuse(alloc, 1) && !was_refused(alloc);
    let listener = if listens {
        "memory is refused"
    } else {
        "nothing is refused"
    };
    writeln!(out, "{listener}")?;
    let validator = Validator::new(schema_of(alloc, SCHEMA)?, extensions);
    write_parts(alloc, &validator, out)?;
    about_schemas(alloc, &validator, out)?;
    write_table(alloc, &validator, &CHECKS, out)?;
    write_table(alloc, &validator, &TREES, out)?;
    write_table(alloc, &validator, &POLICIES, out)?;
    walks(alloc, &validator, out)?;
    whole_checks(alloc, &validator, out)?;
    all_passes(alloc, &validator, out)?;
    without_memory(alloc, &validator, out)
}

/// The tables of makers from parts, and of copies.
fn write_parts<W: Write>(alloc: Global, validator: &Validator<'_>, out: &mut W) -> io::Result<()> {
    write_table(alloc, validator, &TWO_OPERANDS, out)?;
    write_table(alloc, validator, &ONE_OPERAND, out)?;
    write_table(alloc, validator, &MORE, out)?;
    write_table(alloc, validator, &NAMES, out)?;
    write_table(alloc, validator, &TYPES, out)?;
    write_table(alloc, validator, &COPIES, out)?;
    write_table(alloc, validator, &SETS, out)?;
    write_table(alloc, validator, &BASES, out)?;
    write_table(alloc, validator, &TAGS, out)?;
    write_table(alloc, validator, &FOLLOW_UPS, out)
}

/// The tables of questions about types, schemas, templates and environments.
fn about_schemas<W: Write>(
    alloc: Global,
    validator: &Validator<'_>,
    out: &mut W,
) -> io::Result<()> {
    write_table(alloc, validator, &BOUNDS, out)?;
    write_table(alloc, validator, &LOOKUPS, out)?;
    write_table(alloc, validator, &SCHEMAS, out)?;
    write_table(alloc, validator, &TEMPLATES, out)?;
    write_table(alloc, validator, &ENVIRONMENTS, out)
}

fn write_sweep<C: Call, W: Write>(
    alloc: Global,
    out: &mut W,
    name: &str,
    call: &C,
) -> io::Result<()> {
    let outcome = sweep(alloc, call)?;
    writeln!(out, "{name}: {outcome}")
}

/// Writes the outcomes of the lines of a table.
fn write_table<T: Probe, W: Write>(
    alloc: Global,
    validator: &Validator<'_>,
    lines: &[(T, &str)],
    out: &mut W,
) -> io::Result<()> {
    for (call, block) in lines {
        write_lines(alloc, &*validator, *call, block, out)?;
    }
    Ok(())
}

/// Writes the outcomes of the lines of one call.
fn write_lines<'x, T: Probe, W: Write>(
    alloc: Global,
    validator: &'x Validator<'x>,
    call: T,
    block: &'x str,
    out: &mut W,
) -> io::Result<()> {
    for line in block.trim().lines() {
        let line = Line::read(line);
        let outcome = sweep(
            alloc,
            &LineCall {
                validator,
                call,
                line,
            },
        )?;
        let name = line.name;
        match (line.takes_none, outcome.as_str() == NOTHING_REFUSED) {
            (true, true) => writeln!(out, "{name}: {TAKES_NONE}")?,
            (true, false) => writeln!(out, "{name}: it takes memory, or {outcome}")?,
            (false, _) => writeln!(out, "{name}: {outcome}")?,
        }
    }
    Ok(())
}

fn walks<W: Write>(alloc: Global, validator: &Validator<'_>, out: &mut W) -> io::Result<()> {
    let schema = validator.schema();
    let policy = policy(alloc, KNOWN)?;
    // each of two actions, with the slot linked in two ways, and the undeclared ones
    let walk = Walk {
        schema,
        checker: &Typechecker::new(schema, validator.extensions(), MODE),
        policy: &policy.template,
        environments: 5,
    };
    for (name, called) in [
        ("ValidatorSchema::linked_request_envs", OfWalk::MakesLinked),
        ("LinkedRequestEnvs::next", OfWalk::WalksLinked),
        ("Typechecker::typecheck_by_request_env", OfWalk::MakesChecks),
        ("RequestEnvChecks::next", OfWalk::WalksChecks),
        ("RequestEnvChecks::next_env", OfWalk::WalksNext),
        ("RequestEnvChecks::check", OfWalk::ChecksOne),
    ] {
        write_sweep(alloc, out, name, &WalkCall { walk, called })?;
    }
    Ok(())
}

fn whole_checks<W: Write>(alloc: Global, validator: &Validator<'_>, out: &mut W) -> io::Result<()> {
    let (schema, extensions) = (validator.schema(), validator.extensions());
    let checker = Typechecker::new(schema, extensions, ValidationMode::Strict);
    whole_checks_by(alloc, &checker, out)
}

fn whole_checks_by<W: Write>(
    alloc: Global,
    checker: &Typechecker<'_>,
    out: &mut W,
) -> io::Result<()> {
    let (one, many) = (policy(alloc, ONE)?, policy(alloc, MANY)?);
    let small = WholeCheck {
        checker,
        policy: &one.template,
        held: 1,
        holds_finding: false,
        errors: 2,
    };
    // the sets hold one of the many findings before the check
    let large = WholeCheck {
        checker,
        policy: &many.template,
        held: 9,
        holds_finding: true,
        errors: SUMS.saturating_add(8),
    };
    let name = "Typechecker::typecheck_policy, one member in each set";
    write_sweep(alloc, out, name, &small)?;
    let name = "Typechecker::typecheck_policy, nine members in each set";
    write_sweep(alloc, out, name, &large)
}

fn all_passes<W: Write>(alloc: Global, validator: &Validator<'_>, out: &mut W) -> io::Result<()> {
    let (named, bound) = (policy(alloc, NAMED)?, policy(alloc, UNKNOWN)?);
    for (name, policy, pass, items) in [
        ("Mentions::next", &named, Pass::Mentions, 11),
        ("ExprIterator::next", &named, Pass::Subexpressions, 27),
        (
            "LiteralErrors::next, validate_entity_types",
            &named,
            Pass::Literals(OfLiterals::EntityTypes),
            4,
        ),
        (
            "LiteralErrors::next, validate_action_ids",
            &named,
            Pass::Literals(OfLiterals::ActionIds),
            2,
        ),
        (
            "LiteralErrors::next, validate_enum_entity",
            &named,
            Pass::Literals(OfLiterals::EnumEntities),
            2,
        ),
        ("SlotTypeErrors::next", &bound, Pass::SlotTypes, 2),
    ] {
        let walk = PassWalk {
            validator,
            policy,
            pass,
            items,
        };
        write_sweep(alloc, out, name, &walk)?;
    }
    Ok(())
}

fn without_memory<W: Write>(
    alloc: Global,
    validator: &Validator<'_>,
    out: &mut W,
) -> io::Result<()> {
    let (schema, named) = (validator.schema(), policy(alloc, NAMED)?);
    writeln!(out, "environments: {}", environments(alloc, schema)?)?;
    writeln!(out, "look-ups: {}", look_ups(alloc, schema)?)?;
    writeln!(out, "tables: {}", tables(alloc)?)?;
    writeln!(out, "passes: {}", passes(alloc, validator, &named)?)?;
    writeln!(out, "chain cost: {}", chain_cost(alloc, schema)?)?;
    writeln!(out, "capabilities: {}", capabilities(alloc)?)?;
    writeln!(out, "answers: {}", answers(alloc)?)?;
    writeln!(
        out,
        "walks over level errors: {}",
        levels(alloc, validator)?
    )
}
