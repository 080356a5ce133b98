// Checks of conditions that are nested as deep as allowed, and deeper.
use crate::typing_tests::checks::{check, check_in, outcome, permit_when};
use cedar_reading::{ReadError, condition};
use cedar_types::base::{AttrChain, Expr, ValidationMode, Var};
use std::alloc::{AllocError, Global};
use std::test::Fail;

/// Conditions of operators. In each, a word in capitals stands for a part that is nested as deep as the test asks, in each
/// place that is visited. Behind a condition stands the depth of that part: the condition itself stands at 2, below the
/// conjunction with the scope's constraints. Then come the answers of the check in each mode, first with the innermost part at
/// depth 400, and then at 401.
const OPERATORS: &str = r#"
BOOL && true | 3 | success | failure
true && BOOL | 3 | success | failure
BOOL || true | 3 | success | failure
false || BOOL | 3 | success | failure
principal.ok || BOOL | 3 | success | failure
!BOOL | 3 | success | failure
-LONG == 1 | 4 | success | failure
SET.isEmpty() | 3 | success | failure
if BOOL then true else true | 3 | success | failure
if principal.ok then BOOL else true | 3 | success | failure
if principal.ok then true else BOOL | 3 | success | failure
if true then BOOL else true | 3 | success | failure
if false then true else BOOL | 3 | success | failure
USER has ok | 3 | success | failure
USER has boss.ok | 3 | success | failure
USER.ok | 3 | success | failure
LONG == 1 | 3 | success | failure
1 == LONG | 3 | success | failure
LONG < 1 | 3 | success | failure
1 < LONG | 3 | success | failure
LONG <= 1 | 3 | success | failure
1 <= LONG | 3 | success | failure
LONG + 1 == 1 | 4 | success | failure
1 + LONG == 1 | 4 | success | failure
LONG - 1 == 1 | 4 | success | failure
1 - LONG == 1 | 4 | success | failure
LONG * 1 == 1 | 4 | success | failure
1 * LONG == 1 | 4 | success | failure
"#;

/// Conditions of entities, tags and texts, as in `OPERATORS`.
const ENTITIES: &str = r#"
USER in principal | 3 | success | failure
principal in USER | 3 | success | failure
principal in [USER] | 4 | success | failure
principal in [principal, USER] | 4 | success | failure
USER.hasTag("t") | 3 | success | failure
principal.hasTag(TEXT) | 3 | success | failure
USER.hasTag("t") && USER.getTag("t").ok | 5 | success | failure
principal.hasTag(TEXT) && principal.getTag(TEXT).ok | 5 | success | failure
TEXT like "a*" | 3 | success | failure
USER is User | 3 | success | failure
"#;

/// Conditions of sets, records and calls, as in `OPERATORS`.
const SETS_AND_CALLS: &str = r#"
SET.contains(1) | 3 | success | failure
[1].contains(LONG) | 3 | success | failure
SET.containsAll([1]) | 3 | success | failure
[1].containsAll(SET) | 3 | success | failure
SET.containsAny([1]) | 3 | success | failure
[1].containsAny(SET) | 3 | success | failure
[LONG].contains(1) | 4 | success | failure
[1, LONG].contains(1) | 4 | success | failure
[LONG, 1].contains(1) | 4 | success | failure
{a: LONG, b: 1}.b == 1 | 5 | success | failure
{a: 1, b: LONG}.a == 1 | 5 | success | failure
sum(LONG) == 1 | 4 | success | failure
sum(1, LONG) == 1 | 4 | success | failure
sum(LONG, 1) == 1 | 4 | success | failure
isInRange(IP, principal.ip) | 3 | success | failure
isInRange(principal.ip, IP) | 3 | success | failure
"#;

/// Conditions with errors in other parts, as in `OPERATORS`: errors before the innermost part are found, and of those behind it
/// the ones in parts that are typed even after it.
const BESIDE_ERRORS: &str = r#"
1 && BOOL | 3 | failure; LONG_FOR_BOOL | failure; LONG_FOR_BOOL
BOOL && 1 | 3 | failure; LONG_FOR_BOOL | failure
1 || BOOL | 3 | failure; LONG_FOR_BOOL | failure; LONG_FOR_BOOL
if 1 then BOOL else principal.nope | 3 | failure; NOPE; LONG_FOR_BOOL | failure; NOPE; LONG_FOR_BOOL
if BOOL then principal.nope else principal.nope | 3 | failure; NOPE; NOPE | failure
if true then BOOL else principal.nope | 3 | success | failure
if principal.ok then BOOL else principal.nope | 3 | failure; NOPE | failure; NOPE
if principal.ok then principal.nope else BOOL | 3 | failure; NOPE | failure; NOPE
if principal.ok then BOOL else 1 | 3 | failure; UNLIKE | failure
LONG == (1 + "a") | 3 | failure; TEXT_FOR_LONG | failure; TEXT_FOR_LONG
(1 + "a") == LONG | 3 | failure; TEXT_FOR_LONG | failure; TEXT_FOR_LONG
LONG < (1 + "a") | 3 | failure; TEXT_FOR_LONG | failure
(1 + "a") < LONG | 3 | failure; TEXT_FOR_LONG | failure; TEXT_FOR_LONG
LONG + (1 + "a") == 2 | 4 | failure; TEXT_FOR_LONG | failure
USER in principal.nope | 3 | failure; NOPE | failure; NOPE
principal.nope in USER | 3 | failure; NOPE | failure; NOPE
principal in [USER, principal.nope] | 4 | failure; NOPE | failure; NOPE
SET.contains(1 + "a") | 3 | failure; TEXT_FOR_LONG | failure
SET.containsAll([1 + "a"]) | 3 | failure; TEXT_FOR_LONG | failure
USER.hasTag(principal.nope) | 3 | failure; NOPE | failure
[LONG, 1 + "a"].contains(1) | 4 | failure; TEXT_FOR_LONG | failure; TEXT_FOR_LONG
[1, "a", LONG].contains(1) | 4 | failure; UNLIKE_ELEMENTS | failure; UNLIKE_ELEMENTS
[LONG, "a"].contains(1) | 4 | failure; UNLIKE_ELEMENTS | failure
{a: LONG, b: 1 + "a"} has a | 4 | failure; TEXT_FOR_LONG | failure
{a: 1 + "a", b: LONG} has a | 4 | failure; TEXT_FOR_LONG | failure; TEXT_FOR_LONG
sum(LONG, 1 + "a") == 1 | 4 | failure; TEXT_FOR_LONG | failure
sum(1 + "a", LONG) == 1 | 4 | failure; TEXT_FOR_LONG | failure; TEXT_FOR_LONG
isInRange(IP) | 3 | failure; TOO_FEW | failure; TOO_FEW
nope(LONG) == 1 | 4 | failure; NO_FUNCTION | failure; NO_FUNCTION
nope(LONG, 1 + "a") == 1 | 4 | failure; NO_FUNCTION; TEXT_FOR_LONG | failure; NO_FUNCTION
"#;

/// Conditions in which the part is not visited, as in `OPERATORS`.
const NOT_VISITED: &str = r#"
false && BOOL | 3 | irrelevant | irrelevant
true || BOOL | 3 | success | success
if false then BOOL else true | 3 | success | success
if true then true else BOOL | 3 | success | success
"#;

/// The attribute of `principal.boss.boss..` that a word stands for.
const PARTS: [(&str, &str); 6] = [
    ("BOOL", "ok"),
    ("LONG", "age"),
    ("TEXT", "name"),
    ("SET", "ages"),
    ("USER", "boss"),
    ("IP", "ip"),
];

/// The texts for which words stand in an answer.
const ERRORS: [(&str, &str); 7] = [
    ("NOPE", "attribute `nope` does not exist on `User`"),
    ("NO_FUNCTION", "undefined extension function `nope`"),
    (
        "LONG_FOR_BOOL",
        "unexpected type: expected `Bool` but saw `Long`",
    ),
    (
        "TEXT_FOR_LONG",
        "unexpected type: expected `Long` but saw `String`",
    ),
    ("TOO_FEW", "wrong number of arguments: expected 2, got 1"),
    (
        "UNLIKE_ELEMENTS",
        "the types `Long`, `String` are not compatible",
    ),
    ("UNLIKE", "the types `Bool`, `Long` are not compatible"),
];

const MODES: [ValidationMode; 3] = [
    ValidationMode::Strict,
    ValidationMode::Permissive,
    ValidationMode::Partial,
];

/// A condition, with this many accesses between the attribute of each part and `principal`.
fn with_parts(alloc: Global, form: &str, accesses: usize) -> Result<String, AllocError> {
    let bosses = ".boss".repeat(alloc, accesses)?;
    let mut text = String::from_str(alloc, form)?;
    for (word, attr) in &PARTS {
        let part = format!(in alloc; "principal{bosses}.{attr}")?;
        text = text.replace(alloc, *word, part.as_str())?;
    }
    Ok(text)
}

/// An answer, with each error in it.
fn with_errors(alloc: Global, answer: &str) -> Result<String, AllocError> {
    let mut text = String::from_str(alloc, answer)?;
    for (word, error) in &ERRORS {
        text = text.replace(alloc, *word, *error)?;
    }
    Ok(text)
}

fn read(alloc: Global, text: &str) -> Result<Expr, Fail> {
    match condition(alloc, text) {
        Ok(read) => Ok(read),
        Err(ReadError::Memory(error)) => Err(Fail::from(error)),
        Err(ReadError::At(_, _)) => Err(Fail::from("a condition")),
    }
}

/// The first mode in which the check of a condition has another answer, if there is one.
fn mode_that_differs(
    alloc: Global,
    text: &str,
    want: &str,
) -> Result<Option<ValidationMode>, Fail> {
    let policy = permit_when(alloc, read(alloc, text)?)?;
    for mode in MODES {
        let check = check_in(alloc, &policy, mode)?;
        if outcome(alloc, &check)?.as_str() != want {
            return Ok(Some(mode));
        }
    }
    Ok(None)
}

/// Whether a line's condition has the answers of the line, with its innermost part at depth 400, and at 401.
fn agrees(alloc: Global, line: &str) -> Result<bool, Fail> {
    let (form, rest) = line.split_once(" | ").ok_or("a depth")?;
    let (depth, answers) = rest.split_once(" | ").ok_or("an answer")?;
    let (at_400, at_401) = answers.split_once(" | ").ok_or("two answers")?;
    let above: usize = depth.parse().or(Err("a number"))?;
    let accesses = 399usize.saturating_sub(above);
    let allowed = with_parts(alloc, form, accesses)?;
    let too_deep = with_parts(alloc, form, accesses.saturating_add(1))?;
    let at_400 = with_errors(alloc, at_400)?;
    let at_401 = with_errors(alloc, at_401)?;
    let allowed = mode_that_differs(alloc, allowed.as_str(), at_400.as_str())?;
    let too_deep = mode_that_differs(alloc, too_deep.as_str(), at_401.as_str())?;
    Ok(allowed.is_none() && too_deep.is_none())
}

/// The first line of a table that does not agree, if there is one.
fn line_that_differs<'a>(alloc: Global, table: &'a str) -> Result<Option<&'a str>, Fail> {
    for line in table.trim().lines() {
        if !agrees(alloc, line)? {
            return Ok(Some(line));
        }
    }
    Ok(None)
}

/// The subject of each table.
const TABLES: [(&str, &str); 5] = [
    ("an operand may stand at 400 and no deeper", OPERATORS),
    ("an entity may stand at 400 and no deeper", ENTITIES),
    ("an element may stand at 400 and no deeper", SETS_AND_CALLS),
    (
        "some parts are typed after one deeper than 400",
        BESIDE_ERRORS,
    ),
    ("a part that is not visited may stand deeper", NOT_VISITED),
];

#[test]
fn parts_stand_as_deep_as_they_may(rt: HostRuntime) -> Result<(), Fail> {
    for (shown, table) in &TABLES {
        assert_eq!(rt; line_that_differs(rt.alloc(), table)?, None, "{shown}");
    }
    Ok(())
}

/// `principal has boss.boss..`, of 300 attributes.
fn has_bosses(alloc: Global) -> Result<Expr, AllocError> {
    let mut rest = Vec::new(alloc);
    for _ in 1..300 {
        rest.push("boss")?;
    }
    let chain = AttrChain::new(alloc, "boss", rest.as_slice())?;
    Expr::extended_has_attr(alloc, Expr::var(Var::Principal), chain)
}

#[test]
fn a_chain_of_300_attributes_is_typed(rt: HostRuntime) -> Result<(), Fail> {
    let check = check(rt.alloc(), has_bosses(rt.alloc())?)?;
    let found = outcome(rt.alloc(), &check)?;
    assert_eq!(rt; found.as_str(), "success");
    Ok(())
}
