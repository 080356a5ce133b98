// Schemas that are read once: aliases that stand for others again and again, and names that hide
// others.
use cedar_reading::{
    Position, ReadError, SchemaReadError, schema, schema_faults, schema_with_hiding, token_text,
};
use std::alloc::{AllocError, Global};
use std::test::Fail;

/// A chain of `count` aliases, a line for each, of which each stands for the one before twice; and
/// an attribute of the last.
fn doubled(alloc: Global, count: usize) -> Result<String, AllocError> {
    let mut text = String::from_str(alloc, "type A0 = Long;\n")?;
    for before in 0..count {
        let own = before.saturating_add(1);
        write!(text, "type A{own} = {{a: A{before}, b: A{before}}};\n")?;
    }
    write!(text, "entity X {{ a: A{count} }};\n")?;
    Ok(text)
}

/// `read`, or the place and the words of a schema's fault.
fn answer(alloc: Global, text: &str) -> Result<String, AllocError> {
    match schema(alloc, text) {
        Ok(_) => String::from_str(alloc, "read"),
        Err(SchemaReadError::Read(ReadError::Memory(error))) => Err(error),
        Err(SchemaReadError::Read(ReadError::At(at, fault))) => {
            let place = Position::in_text(text, at);
            let token = token_text(text, at);
            format!(in alloc; "{}:{} `{token}`: {fault}", place.line, place.column)
        }
        Err(SchemaReadError::Refused(fault)) => format!(in alloc; "refused: {fault}"),
    }
}

/// A text may have as many tokens as bytes and 2^20 more. The tokens of an alias count wherever its
/// name stands, and an alias is refused behind the name that makes them too many. The alias of
/// number n has 10 * 2^n - 9 tokens, so the first 15 lines of aliases have 655,000, and the next
/// has 655,000 too. The places were found by counting tokens one by one.
const DOUBLED: [(usize, &str); 6] = [
    (0, "read"),
    (14, "read"),
    (15, "read"),
    (16, "2:17 `,`: aliases that stand for too much"),
    (24, "5:17 `,`: aliases that stand for too much"),
    (40, "2:17 `,`: aliases that stand for too much"),
];

#[test]
fn aliases_that_double(rt: HostRuntime) -> Result<(), Fail> {
    let alloc = rt.alloc();
    for (count, want) in &DOUBLED {
        let text = doubled(alloc, *count)?;
        let got = answer(alloc, text.as_str())?;
        assert_eq!(rt; got.as_str(), *want, "{count} aliases");
    }
    Ok(())
}

/// A type may be at most 800 steps deep: one for each type, one more for a name and one for the
/// alias behind it, two more for a record. An alias that was expanded with more steps left is
/// refused at a place at which it does not fit.
fn nested(alloc: Global, sets: usize) -> Result<String, AllocError> {
    let mut text = String::from_str(
        alloc,
        "type R = {r: Long}; type A = R; entity X { a: A, b: ",
    )?;
    for _ in 0..sets {
        text.push_str("Set<")?;
    }
    text.push_str("A")?;
    for _ in 0..sets {
        text.push_str(">")?;
    }
    text.push_str(" };")?;
    Ok(text)
}

#[test]
fn aliases_that_are_too_deep(rt: HostRuntime) -> Result<(), Fail> {
    let alloc = rt.alloc();
    // steps besides the sets: 1 for the attributes of X; A and R take 3 each, the record 3, and its
    // attribute 2
    for (sets, want) in [(788, "read"), (789, "1:14 `Long`: nested too deep")] {
        let text = nested(alloc, sets)?;
        let got = answer(alloc, text.as_str())?;
        assert_eq!(rt; got.as_str(), want, "{sets} sets");
    }
    Ok(())
}

/// The number of entity types in the schema of a text, the first name that hides another, and its
/// byte.
fn hiding(alloc: Global, text: &str) -> Result<String, AllocError> {
    let read = match schema_with_hiding(alloc, text) {
        Ok(read) => read,
        Err(error) => return format!(in alloc; "{error}"),
    };
    let types = read.schema.entity_types(alloc)?.len();
    match &read.hiding {
        None => format!(in alloc; "{types} types"),
        Some(name) => format!(in alloc; "{types} types, {} at {}", name.name, name.start),
    }
}

/// A name of a namespace hides an equal name outside: an entity type or an alias, or an action with
/// its id.
const HIDING: [(&str, &str); 7] = [
    ("entity A;", "1 types"),
    ("entity A; namespace N { entity A; }", "2 types, N::A at 31"),
    ("namespace N { entity A; } entity A;", "2 types, N::A at 21"),
    (
        "namespace N { entity B; type A = B; } entity A;",
        "2 types, N::A at 29",
    ),
    (
        "namespace N { action a; entity A; } entity A; action a;",
        "2 types, N::A at 31",
    ),
    (
        "namespace N { action a; } action \"a\";",
        "0 types, N::Action::\"a\" at 21",
    ),
    (
        "namespace N { entity A in Gone; } entity A;",
        "at byte 26: a name that is not declared",
    ),
];

#[test]
fn names_that_hide_others(rt: HostRuntime) -> Result<(), Fail> {
    for (text, want) in &HIDING {
        let got = hiding(rt.alloc(), text)?;
        assert_eq!(rt; got.as_str(), *want, "{text}");
    }
    Ok(())
}

/// The bytes of a schema's faults.
fn faults(alloc: Global, text: &str) -> Result<String, AllocError> {
    let mut places = String::new(alloc);
    for fault in &schema_faults(alloc, text)? {
        let start = fault.start();
        write!(places, "{start} ")?;
    }
    Ok(places)
}

/// An undeclared type and a context that is no record are told beside the fault behind them in one
/// declaration, and beside one in the type of an alias.
const BEFORE_A_FAULT: [(&str, &str); 3] = [
    ("entity A { a: Gone, b Long };", "14 22 "),
    (
        "entity A; action v appliesTo { principal: Gone, resource: A, context: Set<Gone> x };",
        "42 70 74 80 ",
    ),
    ("type T = Set<Gone>; entity A { a: T, b T };", "13 39 "),
];

#[test]
fn names_before_a_fault(rt: HostRuntime) -> Result<(), Fail> {
    for (text, want) in &BEFORE_A_FAULT {
        let got = faults(rt.alloc(), text)?;
        assert_eq!(rt; got.as_str(), *want, "{text}");
    }
    Ok(())
}

/// Texts, and their first token: a word, a number, a text in quotes, or the longest mark that fits;
/// behind blanks and comments. Letters and blanks may be any of Unicode.
const TOKENS: [(&str, &str); 24] = [
    ("", ""),
    ("entity", "entity"),
    (" \t\r\n_a1 b", "_a1"),
    ("a\u{e9}b c", "a\u{e9}b"),
    ("a\u{a0}b", "a"),
    ("\u{a0}a", "a"),
    ("\u{b}a", "a"),
    ("12a", "12"),
    ("\"a b\"c\"", "\"a b\""),
    ("\"a\\\"b\"c", "\"a\\\"b\""),
    ("\"\u{e9}\" ", "\"\u{e9}\""),
    ("\"a", "\"a"),
    ("// c\n a", "a"),
    ("// c\ra", "a"),
    (":::", "::"),
    (":=", ":"),
    ("===", "=="),
    ("=>", "="),
    ("<=>", "<="),
    ("!a", "!"),
    ("||", "||"),
    ("|&", "|"),
    ("&&", "&&"),
    ("&|", "&"),
];

#[test]
fn tokens(rt: HostRuntime) -> Result<(), Fail> {
    for (text, want) in &TOKENS {
        assert_eq!(rt; token_text(text, 0), *want, "{text}");
    }
    Ok(())
}
