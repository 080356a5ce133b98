// Random conditions, with parentheses around each operand and with comments between tokens.
use crate::writing_tests::formatting::shown;
use std::alloc::{AllocError, Global};
use std::test::Fail;

/// Expressions without operands.
const LEAVES: [&str; 9] = [
    "true",
    "42",
    "\"//\"",
    "A::B::\"(\"",
    "principal",
    "context . a",
    "- 5",
    "[ ]",
    "resource is User in Group::\"g\"",
];

/// Expressions with operands: each `E` is one.
const FORMS: [&str; 20] = [
    "( E ) && ( E )",
    "( E ) && ( E ) && ( E )",
    "( E ) || ( E )",
    "( E ) || ( E ) || ( E )",
    "( E ) == ( E )",
    "( E ) != ( E )",
    "( E ) in ( E )",
    "( E ) + ( E )",
    "( E ) - ( E )",
    "( E ) * ( E )",
    "! ( E )",
    "- ( E )",
    "( E ) . name [ \"key\" ]",
    "( E ) . contains ( E )",
    "( E ) has a . b",
    "( E ) like \"*\"",
    "[ E , E , ]",
    "{ a : E , \"b\" : E }",
    "ip ( E )",
    "if E then E else E",
];

/// Texts that stand between two tokens.
const GAPS: [&str; 8] = [
    " ",
    " ",
    "\n",
    "  ",
    " // a\n",
    "\n// b\n",
    "\n\n// c\n\n",
    " // d\r",
];

/// Numbers by a multiplication, the same ones in each run.
#[derive(Drop)]
struct Random {
    state: u64,
}

impl Random {
    /// A number below `count`.
    fn below(&mut self, count: u64) -> usize {
        self.state = self
            .state
            .wrapping_mul(6_364_136_223_846_793_005)
            .wrapping_add(1_442_695_040_888_963_407);
        let number = (self.state >> 33).checked_rem(count).unwrap_or(0);
        usize::try_from(number).unwrap_or(0)
    }

    fn choice<'a>(&mut self, table: &[&'a str]) -> &'a str {
        let count = u64::try_from(table.len()).unwrap_or(1);
        table.get(self.below(count)).copied().unwrap_or("")
    }
}

/// A condition of about so many forms, with gaps between its tokens.
fn condition(alloc: Global, random: &mut Random, forms: usize) -> Result<String, AllocError> {
    let mut out = String::new(alloc);
    let mut left = Vec::new(alloc);
    left.push("E")?;
    let mut budget = forms;
    for _ in 0..10_000 {
        let Some(part) = left.pop() else {
            break;
        };
        if part != "E" {
            out.push_str(random.choice(&GAPS))?;
            out.push_str(part)?;
            continue;
        }
        let form = if budget > 0 {
            random.choice(&FORMS)
        } else {
            random.choice(&LEAVES)
        };
        budget = budget.saturating_sub(1);
        let parts = form.split(' ').collect::<Vec<&str>>(alloc)?;
        for part in parts.iter().rev() {
            left.push(*part)?;
        }
    }
    Ok(out)
}

#[test]
fn random_conditions(rt: HostRuntime) -> Result<(), Fail> {
    let alloc = rt.alloc();
    let mut random = Random { state: 7 };
    for _ in 0..300 {
        let forms = random.below(24);
        let condition = condition(alloc, &mut random, forms)?;
        let text = format!(in alloc; "permit(principal,action,resource)when{{{condition}}};")?;
        let formatted = shown(alloc, text.as_str())?;
        let begin = "permit (principal, action, resource)\nwhen {";
        assert!(rt;
            formatted.as_str().starts_with(begin),
            "{text}\n{formatted}"
        );
        assert!(rt;
            !formatted.as_str().contains("is formatted to\n"),
            "{text}\n{formatted}"
        );
        let wanted = text.as_str().split("// ").count();
        assert_eq!(rt;
            formatted.as_str().split("// ").count(),
            wanted,
            "{formatted}"
        );
    }
    Ok(())
}
