// Follow-ups on a list of answers, which are made as they are taken.
ghost use Rattle.std.specs.Iterator.{at_most};

use crate::typing_tests::parts::{is_limit, is_long, knowing, knows, long, number};
use cedar_types::base::{CedarType, Expr};
use cedar_types::types::capability::CapabilitySet;
use cedar_typing::typecheck::answer::TypecheckAnswer;
use std::alloc::{AllocError, Global};
use std::cell::Cell;
use std::test::Fail;

/// An item of a list.
#[derive(Clone, Copy)]
enum Item {
    /// A success that knows that the principal has `x`.
    Success,
    Failure,
    Limit,
    Refused,
}

/// The answers of items in order; each answer's number is that of its item. It counts how often it is asked for one.
#[derive(Drop)]
struct Answers<'a> {
    alloc: Global,
    items: &'a [Item],
    left: usize,
    asked: &'a Cell<i64>,
}

impl<'a> Iterator for Answers<'a> {
    type Item = Result<TypecheckAnswer<'a>, AllocError>;

    ghost remaining = { λ s. at_most s.left };

    fn next(&mut self) -> Option<Result<TypecheckAnswer<'a>, AllocError>> {
        let number = self.asked.get();
        self.asked.set(number.wrapping_add(1));
        if self.left == 0 {
            return None;
        }
        self.left -= 1;
        let (item, rest) = self.items.split_first()?;
        self.items = rest;
        Some(answer(self.alloc, *item, number))
    }
}

/// The answers of these items, none of which is taken yet.
fn take_from<'a>(alloc: Global, items: &'a [Item], asked: &'a Cell<i64>) -> Answers<'a> {
    Answers {
        alloc,
        items,
        left: items.len(),
        asked,
    }
}

fn answer<'a>(alloc: Global, item: Item, value: i64) -> Result<TypecheckAnswer<'a>, AllocError> {
    match item {
        Item::Success => {
            let set = knowing(alloc, "x")?;
            Ok(TypecheckAnswer::success_with_capability(long(alloc, value)?, set))
        }
        Item::Failure => Ok(TypecheckAnswer::fail(long(alloc, value)?)),
        Item::Limit => Ok(TypecheckAnswer::RecursionLimit),
        Item::Refused => Err(AllocError),
    }
}

/// Adds the items that are handed on: each by its number, and with an x if it knows `x`.
fn add_handed(
    alloc: Global,
    shown: &mut String,
    handed: &[(Box<Expr<Option<CedarType>>>, CapabilitySet<'_>)],
) -> Result<(), AllocError> {
    for ((expr, set), value) in handed.iter().zip(0..) {
        let order = if is_long(expr, value) { "" } else { "?" };
        let known = if knows(alloc, set, "x")? { "x" } else { "" };
        write!(shown, " {order}{value}{known}")?;
    }
    Ok(())
}

/// The answers that these items hand on, the number of items that are asked for, and the whole answer.
fn run_sequence(alloc: Global, items: &[Item]) -> Result<String, AllocError> {
    let asked = Cell::new(0);
    let answers = take_from(alloc, items, &asked);
    let mut shown = String::from_str(alloc, "not called")?;
    let answer = TypecheckAnswer::sequence_all_then_typecheck(alloc, answers, |handed| {
        shown = String::from_str(alloc, "called with")?;
        add_handed(alloc, &mut shown, &handed)?;
        Ok(TypecheckAnswer::success(alloc, number(alloc, 0, Some(CedarType::String))?))
    });
    let ending = match answer {
        Ok(TypecheckAnswer::TypecheckSuccess { .. }) => "success",
        Ok(TypecheckAnswer::TypecheckFail { .. }) => "failure",
        Ok(TypecheckAnswer::RecursionLimit) => "limit",
        Err(AllocError) => "refused",
    };
    write!(shown, "; {} asked for; {ending}", asked.get())?;
    Ok(shown)
}

#[test]
fn answers_are_taken_until_the_first_limit(rt: HostRuntime) -> Result<(), Fail> {
    let alloc = rt.alloc();
    for (items, want) in [
        (
            &[Item::Success, Item::Success][..],
            "called with 0x 1x; 3 asked for; success",
        ),
        (
            &[Item::Failure, Item::Success, Item::Success][..],
            "called with 0 1x 2x; 4 asked for; failure",
        ),
        (&[][..], "called with; 1 asked for; success"),
        (
            &[Item::Success, Item::Failure, Item::Limit, Item::Refused][..],
            "called with 0x 1; 3 asked for; limit",
        ),
        (
            &[Item::Limit, Item::Limit][..],
            "called with; 1 asked for; limit",
        ),
        (
            &[Item::Success, Item::Refused, Item::Limit][..],
            "not called; 2 asked for; refused",
        ),
    ] {
        let found = run_sequence(alloc, items)?;
        assert_eq!(rt; found.as_str(), want);
    }
    Ok(())
}

/// Whether the answer is a limit, if a limit follows a failure.
fn is_limit_after_failure(alloc: Global, asked: &Cell<i64>) -> Result<bool, AllocError> {
    let failures = take_from(alloc, &[Item::Failure], asked);
    let answer = TypecheckAnswer::sequence_all_then_typecheck(
        alloc,
        failures,
        |_| Ok(TypecheckAnswer::RecursionLimit),
    )?;
    Ok(is_limit(&answer))
}

/// Whether the answer is an error, if an error follows a limit.
fn is_error_after_limit(alloc: Global, asked: &Cell<i64>) -> bool {
    let limits = take_from(alloc, &[Item::Limit], asked);
    TypecheckAnswer::sequence_all_then_typecheck(alloc, limits, |_| Err(AllocError)).is_err()
}

#[test]
fn what_follows_may_be_a_limit_or_an_error(rt: HostRuntime) -> Result<(), Fail> {
    let asked = Cell::new(0);
    assert!(rt; is_limit_after_failure(rt.alloc(), &asked)?);
    assert!(rt; is_error_after_limit(rt.alloc(), &asked));
    Ok(())
}
