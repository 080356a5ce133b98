// Tables of cases: texts with their answers.
use std::alloc::Global;
use std::process::Abort;
use std::test::Fail;

/// Checks that each text gives the answer beside it.
pub fn check<F: Fn(Global, &str) -> Result<String, Fail>>(
    rt: &(impl Abort + AllocGlobal),
    answer: F,
    cases: &[(&str, &str)],
) -> Result<(), Fail>
    requires { F.IsAlwaysCallable answer }
{
    for (text, wanted) in cases {
        let given = answer(rt.alloc(), text)?;
        assert_eq!(rt; given.as_str(), *wanted, "for {text}");
    }
    Ok(())
}
