//! The texts of errors.
use shred::{AsyncError, DispatchError, ExecError, Missing, ResourceId, Stop, SystemId};
use std::test::Fail;

#[test]
fn refusals_are_told_by_texts(rt: HostRuntime) -> Result<(), Fail> {
    let why = format!(in rt.alloc(); "no speed")?;
    let staged = DispatchError::System(SystemId(3), Stop::Refused(why));
    let local = AsyncError::Refused(DispatchError::Local(1, Stop::Full));
    let told = format!(in rt.alloc(); "{staged}; {local}")?;
    let wanted =
        "system 3: refused: no speed; the dispatch ended early: local system 1: a list is full";
    assert_eq!(rt; told.as_str(), wanted);
    let (memory, lost) = (DispatchError::Memory, AsyncError::Failed);
    let told = format!(in rt.alloc(); "{memory}; {lost}")?;
    let wanted =
        "out of memory for a stage; a thread couldn't be started: systems and world are lost";
    assert_eq!(rt; told.as_str(), wanted);
    let missing = Missing {
        id: ResourceId {
            kind: 2,
            dynamic: 7,
        },
    };
    let (refused, wanting) = (ExecError::Memory, ExecError::Missing(missing));
    let told = format!(in rt.alloc(); "{missing}; {refused}; {wanting}")?;
    let wanted =
        "no resource of kind 2 under number 7; out of memory; no resource of kind 2 under number 7";
    assert_eq!(rt; told.as_str(), wanted);
    Ok(())
}
