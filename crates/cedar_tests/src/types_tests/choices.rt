// Ids of an enumerated type: their order, repeats, and members.
use cedar_types::base::EnumChoices;
use std::alloc::{AllocError, Global};
use std::rc::RcStr;
use std::test::Fail;

/// The ids of these texts.
fn ids(alloc: Global, texts: &[&str]) -> Result<Vec<RcStr>, AllocError> {
    let mut ids = Vec::new(alloc);
    for text in texts {
        ids.push(RcStr::from_str(alloc, text)?)?;
    }
    Ok(ids)
}

/// Whether these are listed, in this order.
fn are_listed(choices: &EnumChoices, texts: &[&str]) -> bool {
    let listed = choices.as_slice();
    listed.len() == texts.len()
        && listed
            .iter()
            .zip(texts)
            .all(|(id, text)| id.as_str() == *text)
}

#[test]
fn ids_stand_as_given_and_are_found(rt: HostRuntime) -> Result<(), Fail> {
    let alloc = rt.alloc();
    let given = ["red", "blue", "green", "blue", ""];
    let choices = EnumChoices::new(alloc, ids(alloc, &given)?)?;
    assert!(rt; are_listed(&choices, &given));
    for id in &ids(alloc, &given)? {
        assert!(rt; choices.contains(id));
    }
    for id in &ids(alloc, &["re", "redd", "Red", "b"])? {
        assert!(rt; !choices.contains(id));
    }
    let none = EnumChoices::new(alloc, Vec::new(alloc))?;
    assert!(rt; are_listed(&none, &[]));
    assert!(rt; !none.contains(&RcStr::from_str(alloc, "")?));
    Ok(())
}
