// Comparisons of two verdicts on a policy.
use cedar_findings::changes::Change;
use cedar_findings::codes::Code;
use cedar_findings::environment_changes::EnvironmentChanges;
use cedar_findings::findings::{Finding, Requirement, Verdict};
use cedar_types::base::EntityDerefLevel;
use cedar_verdicts::changes::{compare, is_worse};
use std::alloc::{AllocError, Global};
use std::test::Fail;

/// A verdict in short: `+` if it accepts, else `-`, `i` if the policy is impossible, and the level, or `n` if none is enough.
fn verdict_of(alloc: Global, short: &str) -> Result<Verdict, AllocError> {
    let mut warnings = Vec::new(alloc);
    if short.contains('i') {
        warnings.push(finding(alloc, Code::Impossible)?)?;
    }
    if short.contains('w') {
        warnings.push(finding(alloc, Code::Direction)?)?;
    }
    let digits = short.trim_matches(|c: char| !c.is_ascii_digit());
    let requirement = match digits.parse::<u32>() {
        Ok(level) => Requirement::Level(EntityDerefLevel { level }),
        Err(_) if short.contains('n') => Requirement::NoLevel,
        Err(_) => Requirement::Unsaid,
    };
    Ok(Verdict {
        is_accepted: short.starts_with('+'),
        requirement,
        errors: Vec::new(alloc),
        warnings,
        others: 0,
        warning_count: 0,
    })
}

fn finding(alloc: Global, code: Code) -> Result<Finding, AllocError> {
    Ok(Finding {
        start: 0,
        end: 0,
        text: String::new(alloc),
        hint: String::new(alloc),
        also: Vec::new(alloc),
        environments: Vec::new(alloc),
        code,
    })
}

/// Two verdicts, whether the second is worse, the number of changes, and the numbers of findings that came and went.
const CASES: [(&str, &str, bool, usize, usize, usize); 20] = [
    ("+1", "+1", false, 0, 0, 0),
    ("+1", "-", true, 1, 0, 0),
    ("-", "+1", false, 1, 0, 0),
    ("-", "-", false, 0, 0, 0),
    ("+1", "+2", true, 1, 0, 0),
    ("+2", "+1", false, 1, 0, 0),
    ("+1", "+n", true, 1, 0, 0),
    ("+n", "+1", false, 1, 0, 0),
    ("+n", "+n", false, 0, 0, 0),
    ("+", "+3", false, 0, 0, 0),
    ("+0", "+i0", true, 1, 1, 0),
    ("+i0", "+0", false, 1, 0, 1),
    ("+i0", "+i0", false, 0, 0, 0),
    ("+0", "+w0", false, 0, 1, 0),
    ("+i1", "-i", true, 1, 0, 0),
    // a refused policy is not called possible
    ("+i1", "-", true, 1, 0, 1),
    ("-i", "-", false, 0, 0, 1),
    ("-", "+i2", false, 2, 1, 0),
    ("-1", "-2", false, 1, 0, 0),
    ("-", "-i", false, 1, 1, 0),
];

fn no_environments(alloc: Global) -> EnvironmentChanges {
    EnvironmentChanges {
        gained: Vec::new(alloc),
        lost: Vec::new(alloc),
    }
}

#[test]
fn what_is_worse(rt: HostRuntime) -> Result<(), Fail> {
    let alloc = rt.alloc();
    for (old, new, worse, changes, came, went) in &CASES {
        let before = verdict_of(alloc, old)?;
        let after = verdict_of(alloc, new)?;
        assert_eq!(rt; is_worse(&before, &after), *worse, "{old} {new}");
        let comparison = compare(alloc, &before, &after, no_environments(alloc))?;
        assert_eq!(rt; comparison.is_worse, *worse, "{old} {new}");
        assert_eq!(rt; comparison.changes.len(), *changes, "{old} {new}");
        assert_eq!(rt; comparison.came.len(), *came, "{old} {new}");
        assert_eq!(rt; comparison.went.len(), *went, "{old} {new}");
    }
    Ok(())
}

/// Whether environments are gained and lost, and the changes that tell so. A policy is not worse off by them.
const ENVIRONMENTS: [(bool, bool, &[Change]); 4] = [
    (false, false, &[]),
    (true, false, &[Change::Gained]),
    (false, true, &[Change::Lost]),
    (true, true, &[Change::Gained, Change::Lost]),
];

#[test]
fn other_environments(rt: HostRuntime) -> Result<(), Fail> {
    let alloc = rt.alloc();
    for (gains, loses, changes) in &ENVIRONMENTS {
        let verdict = verdict_of(alloc, "+1")?;
        let mut environments = no_environments(alloc);
        if *gains {
            environments.gained.push(String::from_str(alloc, "a")?)?;
        }
        if *loses {
            environments.lost.push(String::from_str(alloc, "b")?)?;
        }
        let comparison = compare(alloc, &verdict, &verdict, environments)?;
        assert_eq!(rt; comparison.changes.as_slice(), *changes, "{gains} {loses}");
        assert_eq!(rt;
            comparison.is_empty(),
            changes.is_empty(),
            "{gains} {loses}"
        );
        assert!(rt; !comparison.is_worse, "{gains} {loses}");
    }
    Ok(())
}
