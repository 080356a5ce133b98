// Rules of SARIF: each kind of finding once, with a short and a full description and with help.
use cedar_findings::codes::CODES;
use cedar_findings::rules::{description, help, page};
use cedar_findings::sarif::Sarif;
use cedar_findings::writers::FindingsWriter;
use std::test::Fail;

/// The rule of one kind, on a line of its own behind the rule of the kind before it.
const RULE: &str = "\n{\"id\":\"unguarded-attribute\",\
     \"shortDescription\":{\"text\":\"An optional attribute is read without a test.\"},\
     \"fullDescription\":{\"text\":\"An attribute that may be absent is read where no `has` shows before that it is there. \
     If it is absent, the policy has an error and is not applied.\"},\
     \"help\":{\"text\":\"Test the attribute before, as in `principal has name && principal.name == \\\"a\\\"`.\"},\
     \"helpUri\":\"https://docs.cedarpolicy.com/policies/validation.html\"},\n";

#[test]
fn what_a_rule_says(rt: HostRuntime) -> Result<(), Fail> {
    let mut out = String::new(rt.alloc());
    Sarif::new().begin(&mut out)?;
    assert!(rt; out.as_str().contains(RULE), "{out}");
    assert_eq!(rt; out.as_str().lines().count(), CODES.len() + 2);
    Ok(())
}

/// Each sentence is whole, is different from all others, and says more than the short description.
#[test]
fn each_kind_is_described(rt: HostRuntime) -> Result<(), Fail> {
    for code in CODES {
        let (long, advice) = (description(code), help(code));
        assert!(rt;
            long.ends_with('.') && advice.ends_with('.'),
            "{}",
            code.text()
        );
        assert!(rt; long != code.meaning(), "{}", code.text());
        for other in CODES {
            assert!(rt;
                code == other || description(other) != long,
                "{}",
                code.text()
            );
        }
    }
    Ok(())
}

/// SARIF takes an absolute address alone.
#[test]
fn each_kind_has_a_page(rt: HostRuntime) -> Result<(), Fail> {
    for code in CODES {
        let address = page(code);
        assert!(rt;
            address.starts_with("https://docs.cedarpolicy.com/") && address.ends_with(".html"),
            "{}",
            code.text()
        );
    }
    assert!(rt; page(CODES[0]).ends_with("/validation.html"));
    Ok(())
}
