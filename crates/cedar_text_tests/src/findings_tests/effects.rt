// Effects of the policies of a text.
use cedar_reading::{Policies, ReadError};
use std::alloc::Global;
use std::test::Fail;

const TEXT: &str = "permit(principal, action, resource);\n\
                    @id(\"permit\") forbid(principal, action, resource) when { true };\n\
                    permit(principal, action, resource) unless { false };\n";

/// The effect of each policy of the text, shown, with a blank behind it.
fn effects(alloc: Global, text: &str) -> Result<String, ReadError> {
    let mut policies = Policies::new(alloc, text)?;
    let mut shown = String::new(alloc);
    for _ in 0..text.len() {
        let Some(read) = policies.next_policy() else {
            break;
        };
        shown = format!(in alloc; "{shown}{} ", read?.effect)?;
    }
    Ok(shown)
}

#[test]
fn each_policy_has_its_effect(rt: HostRuntime) -> Result<(), Fail> {
    let shown = effects(rt.alloc(), TEXT)?;
    assert_eq!(rt; shown.as_str(), "permit forbid permit ");
    Ok(())
}
