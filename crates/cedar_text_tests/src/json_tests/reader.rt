// Texts with their values and the places of these, or with their first fault and its byte.
use crate::json_tests::cases::check;
use crate::json_tests::shown::show_value;
use std::alloc::Global;
use std::test::Fail;

/// Values without parts, and texts that are no values.
const PLAIN_VALUES: [(&str, &str); 19] = [
    ("true", "0-4=true"),
    ("false", "0-5=false"),
    (" \t\r\n true \n", "5-9=true"),
    ("True", "0 Value"),
    ("tru", "0 Value"),
    ("truex", "0 Value"),
    ("true1", "0 Value"),
    ("false_", "5 Trailing"),
    ("null", "0-4=null"),
    ("[null]", "0-6[1-5=null]"),
    ("{\"a\": null}", "0-11{1-4`a`6-10=null}"),
    ("nul", "0 Value"),
    ("", "0 Value"),
    ("  ", "2 Value"),
    ("'a'", "0 Value"),
    ("a", "0 Value"),
    ("// x\n1", "0 Value"),
    ("NaN", "0 Value"),
    ("\u{a0}1", "0 Value"),
];

/// Numbers, and texts that are nearly numbers.
const NUMBERS: [(&str, &str); 29] = [
    ("0", "0-1=0"),
    ("-0", "0-2=0"),
    ("7", "0-1=7"),
    ("-12", "0-3=-12"),
    (" 10 ", "1-3=10"),
    ("9223372036854775807", "0-19=9223372036854775807"),
    ("-9223372036854775808", "0-20=-9223372036854775808"),
    ("9223372036854775808", "0 Range"),
    ("-9223372036854775809", "0 Range"),
    ("100000000000000000000000000000", "0 Range"),
    ("[1, 99999999999999999999]", "4 Range"),
    ("01", "0 LeadingZero"),
    ("-01", "1 LeadingZero"),
    ("00", "0 LeadingZero"),
    ("-", "1 Digit"),
    ("-a", "1 Digit"),
    ("--1", "1 Digit"),
    ("+1", "0 Value"),
    (".5", "0 Value"),
    ("1.5", "1 Fraction"),
    ("1.", "1 Fraction"),
    ("-10.25", "3 Fraction"),
    ("1e3", "1 Exponent"),
    ("1E3", "1 Exponent"),
    ("20e-1", "2 Exponent"),
    ("1x", "1 Trailing"),
    ("1 2", "2 Trailing"),
    ("0x10", "1 Trailing"),
    ("1_000", "1 Trailing"),
];

/// Texts in quotes, with and without escapes.
const TEXTS: [(&str, &str); 17] = [
    ("\"\"", "0-2``"),
    ("\"a b\"", "0-5`a b`"),
    ("\"\u{e4}\u{1f600}\"", "0-8`\u{e4}\u{1f600}`"),
    ("\"\\\"\\\\\\/\"", "0-8`\"\\/`"),
    ("\"\\b\\f\\n\\r\\t\"", "0-12`\u{8}\u{c}\n\r\t`"),
    ("\"\\u0041\"", "0-8`A`"),
    ("\"\\u00e4\"", "0-8`\u{e4}`"),
    ("\"\\u00E4x\"", "0-9`\u{e4}x`"),
    ("\"\\u20ac\"", "0-8`\u{20ac}`"),
    ("\"\\u0000\"", "0-8`\u{0}`"),
    ("\"\\uffff\"", "0-8`\u{ffff}`"),
    ("\"\\ud83d\\ude00\"", "0-14`\u{1f600}`"),
    ("\"\\uD800\\uDC00\"", "0-14`\u{10000}`"),
    ("\"\\udbff\\udfff\"", "0-14`\u{10ffff}`"),
    ("\"\u{7f}\u{2028}\"", "0-6`\u{7f}\u{2028}`"),
    ("\"//\"", "0-4`//`"),
    ("\"*\"", "0-3`*`"),
];

/// Texts in quotes with a fault.
const FAULTS_IN_TEXTS: [(&str, &str); 25] = [
    ("\"", "0 Unclosed"),
    ("\"a", "0 Unclosed"),
    (" \"a\\\"", "1 Unclosed"),
    ("\"\\", "0 Unclosed"),
    ("\"\\u12", "0 Unclosed"),
    ("\"\\ud83d", "0 Unclosed"),
    ("\"a\nb\"", "2 Control"),
    ("\"\t\"", "1 Control"),
    ("\"\u{0}\"", "1 Control"),
    ("\"\u{1f}\"", "1 Control"),
    ("\"ab\\x41\"", "3 Escape"),
    ("\"\\'\"", "1 Escape"),
    ("\"\\u{41}\"", "1 Escape"),
    ("\"\\u00g0\"", "1 Escape"),
    ("\"\\u123\"", "1 Escape"),
    ("\"\\U0041\"", "1 Escape"),
    ("\"a\\ud800\"", "2 Surrogate"),
    ("\"\\ud800x\"", "1 Surrogate"),
    ("\"\\ud800\\n\"", "1 Surrogate"),
    ("\"\\ud800\\u0041\"", "1 Surrogate"),
    ("\"\\ud800\\ud800\"", "1 Surrogate"),
    ("\"\\ud800\\u00g0\"", "1 Escape"),
    ("\"\\udc00\"", "1 Surrogate"),
    ("\"\\ude00\\ud83d\"", "1 Surrogate"),
    ("\"a\"b", "3 Trailing"),
];

/// Arrays, and brackets that make none.
const ARRAYS: [(&str, &str); 17] = [
    ("[]", "0-2[]"),
    ("[ \n]", "0-4[]"),
    ("[1]", "0-3[1-2=1]"),
    ("[1, -2]", "0-7[1-2=14-6=-2]"),
    ("[ true , \"a\" ]", "0-14[2-6=true9-12`a`]"),
    ("[[], [[7]]]", "0-11[1-3[]5-10[6-9[7-8=7]]]"),
    ("[1,]", "3 Value"),
    ("[,1]", "1 Value"),
    ("[1 2]", "3 InArray"),
    ("[1;2]", "2 InArray"),
    ("[1", "2 InArray"),
    ("[", "1 Value"),
    ("[1,", "3 Value"),
    ("[1}", "2 InArray"),
    ("]", "0 Value"),
    ("[]]", "2 Trailing"),
    ("[[1]", "4 InArray"),
];

/// Objects, and braces that make none.
const OBJECTS: [(&str, &str); 26] = [
    ("{}", "0-2{}"),
    ("{ }", "0-3{}"),
    ("{\"a\":1}", "0-7{1-4`a`5-6=1}"),
    ("{\"b\": 1, \"a\" : []}", "0-18{1-4`b`6-7=19-12`a`15-17[]}"),
    ("{\"\": {\"\": 2}}", "0-13{1-3``5-12{6-8``10-11=2}}"),
    ("{\"\\u0061\": 1}", "0-13{1-9`a`11-12=1}"),
    ("{\"a\":1,}", "7 Key"),
    ("{,}", "1 Key"),
    ("{a: 1}", "1 Key"),
    ("{1: 1}", "1 Key"),
    ("{\"a\" 1}", "5 Colon"),
    ("{\"a\"}", "4 Colon"),
    ("{\"a\":}", "5 Value"),
    ("{\"a\":1 \"b\":2}", "7 InObject"),
    ("{\"a\":1", "6 InObject"),
    ("{\"a\":1]", "6 InObject"),
    ("{", "1 Key"),
    ("{\"a\": 1, \"a\": 2}", "9 SameKey"),
    ("{\"a\": 1, \"b\": 2, \"\\u0061\": 3}", "17 SameKey"),
    ("{\"a\": 1, \"a\" x", "9 SameKey"),
    ("{\"a\": {\"a\": 1}}", "0-15{1-4`a`6-14{7-10`a`12-13=1}}"),
    (
        "[{\"a\": 1}, {\"a\": 1}]",
        "0-20[1-9{2-5`a`7-8=1}11-19{12-15`a`17-18=1}]",
    ),
    ("{\"a\": \"x}", "6 Unclosed"),
    ("{} {}", "3 Trailing"),
    ("\u{feff}{}", "0 ByteOrderMark"),
    (" \u{feff}{}", "1 Value"),
];

#[test]
fn values(rt: HostRuntime) -> Result<(), Fail> {
    for cases in [
        &PLAIN_VALUES[..],
        &NUMBERS,
        &TEXTS,
        &FAULTS_IN_TEXTS,
        &ARRAYS,
        &OBJECTS,
    ] {
        check(&rt, rt.alloc(), show_value, cases)?;
    }
    Ok(())
}

/// The brackets `depth` times around nothing.
fn nest(alloc: Global, opening: &str, closing: &str, depth: usize) -> Result<String, Fail> {
    let mut text = String::new(alloc);
    for _ in 0..depth {
        text.push_str(opening)?;
    }
    text.push('1')?;
    for _ in 0..depth {
        text.push_str(closing)?;
    }
    Ok(text)
}

#[test]
fn depth(rt: HostRuntime) -> Result<(), Fail> {
    let alloc = rt.alloc();
    for (opening, closing, size) in [("[", "]", 1), ("{\"a\":", "}", 5)] {
        let most = nest(alloc, opening, closing, 400)?;
        let given = show_value(alloc, most.as_str())?;
        assert!(rt; given.starts_with("0-"));
        let wanted = format!(in alloc; "{} TooDeep", 400 * size)?;
        for depth in [401, 100_000] {
            let more = nest(alloc, opening, closing, depth)?;
            check(&rt, alloc, show_value, &[(more.as_str(), wanted.as_str())])?;
        }
    }
    Ok(())
}

#[test]
fn many_keys(rt: HostRuntime) -> Result<(), Fail> {
    let alloc = rt.alloc();
    let mut text = String::from_str(alloc, "{")?;
    for number in 0..20_000u32 {
        write!(text, "\"k{number}\":{number},")?;
    }
    let start = text.len();
    text.push_str("\"k7\":1}")?;
    let given = show_value(alloc, text.as_str())?;
    let wanted = format!(in alloc; "{start} SameKey")?;
    assert_eq!(rt; given.as_str(), wanted.as_str());
    Ok(())
}

#[test]
fn too_long(rt: HostRuntime) -> Result<(), Fail> {
    let alloc = rt.alloc();
    let mut text = String::from_str(alloc, " ")?;
    for _ in 0..26 {
        let half = text.clone()?;
        text.push_str(half.as_str())?;
    }
    text.push('1')?;
    let given = show_value(alloc, text.as_str())?;
    assert_eq!(rt; given.as_str(), "0 TooLong");
    Ok(())
}
