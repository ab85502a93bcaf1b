//! Documents that are refused, and the name of each refusal.
use crate::runs::{is_refused, is_refused_anyhow};
use scene::DocRefusal;
use std::alloc::AllocError;
use std::sync::Wait;
use std::test::Fail;
use std::thread::Threads;

/// The worked refusals, of documents that don't say how they are run.
const WORKED: [(&str, DocRefusal); 6] = [
    (
        "{\"next\":3,\"entities\":[{\"id\":3,\"parts\":{}}]}",
        DocRefusal::IdNotBelowNext,
    ),
    ("{\"next\":0", DocRefusal::Unreadable),
    ("", DocRefusal::Unreadable),
    ("{\"next\":1.5,\"entities\":[]}", DocRefusal::NotWhole),
    (
        "{\"next\":1,\"entities\":[{\"id\":0,\"parts\":{\"owner\":5}}]}",
        DocRefusal::Dangling,
    ),
    (
        "{\"next\":0,\"entities\":[],\"systems\":[{\"kind\":\"pull\"}]}",
        DocRefusal::MissingGlobal,
    ),
];

/// Odd shapes, numbers, names and keys.
const ODD: [(&str, DocRefusal); 19] = [
    (
        "{\"next\":0,\"entities\":[],\"workers\":65}",
        DocRefusal::TooManyWorkers,
    ),
    ("[]", DocRefusal::WrongShape),
    (
        "{\"next\":0,\"entities\":[],\"x\":1}",
        DocRefusal::WrongShape,
    ),
    ("{\"next\":-1,\"entities\":[]}", DocRefusal::WrongShape),
    (
        "{\"next\":18446744073709551616,\"entities\":[]}",
        DocRefusal::NotWhole,
    ),
    ("{\"next\":1.0,\"entities\":[]}", DocRefusal::NotWhole),
    ("{\"next\":0,\"entities\":[]} x", DocRefusal::Unreadable),
    (
        "{\"next\":0,\"entities\":[{\"id\":0,\"parts\":{}},{\"id\":0,\"parts\":{}}]}",
        DocRefusal::DoubleId,
    ),
    (
        "{\"next\":0,\"entities\":[],\"frames\":4294967296}",
        DocRefusal::WrongShape,
    ),
    (
        "{\"next\":0,\"entities\":[],\"systems\":[{\"kind\":\"decay\",\"after\":[\"z\"]}]}",
        DocRefusal::UnknownDependency,
    ),
    (
        "{\"next\":0,\"entities\":[],\"store\":\"heap\"}",
        DocRefusal::UnknownStore,
    ),
    (
        "{\"next\":0,\"entities\":[],\"store\":null}",
        DocRefusal::WrongShape,
    ),
    (
        "{\"next\":0,\"entities\":[],\"systems\":[{\"kind\":\"eat\"}]}",
        DocRefusal::UnknownSystem,
    ),
    (
        "{\"next\":0,\"entities\":[],\"systems\":[{\"kind\":\"drift\",\"config\":1}]}",
        DocRefusal::WrongShape,
    ),
    (
        "{\"next\":0,\"entities\":[],\"systems\":[{\"kind\":\"drift\",\"config\":null}],\"globals\":{\"h\":1}}",
        DocRefusal::UnknownKind,
    ),
    (
        "{\"next\":0,\"entities\":[],\"systems\":[{\"kind\":\"drift\",\"local\":true,\"name\":\"\"}]}",
        DocRefusal::WrongShape,
    ),
    (
        "{\"next\":1,\"entities\":[{\"id\":0,\"parts\":{\"tie\":0}}]}",
        DocRefusal::UnknownKind,
    ),
    (
        "{\"next\":1,\"entities\":[{\"id\":0,\"parts\":{\"pos\":9223372036854775808}}]}",
        DocRefusal::WrongShape,
    ),
    (
        "{\"next\":0,\"entities\":[],\"commands\":[[{\"put\":{\"id\":0,\"kind\":\"mana\",\"value\":1}}]]}",
        DocRefusal::UnknownKind,
    ),
];

/// Commands and lists of systems.
const LISTS: [(&str, DocRefusal); 20] = [
    (
        "{\"next\":0,\"entities\":[],\"commands\":[[{\"spawn\":{\"mana\":1}}]]}",
        DocRefusal::UnknownKind,
    ),
    (
        "{\"next\":0,\"entities\":[],\"commands\":[[{\"take\":{\"id\":0,\"kind\":\"mana\"}}]]}",
        DocRefusal::UnknownKind,
    ),
    (
        "{\"next\":0,\"entities\":[],\"commands\":[[{\"put\":{\"id\":0,\"kind\":\"pos\"}}]]}",
        DocRefusal::WrongShape,
    ),
    (
        "{\"next\":0,\"entities\":[],\"commands\":[[{\"put\":{\"id\":0,\"kind\":\"pos\",\"value\":\"x\"}}]]}",
        DocRefusal::WrongShape,
    ),
    (
        "{\"next\":0,\"entities\":[],\"commands\":[[{\"kill\":-1}]]}",
        DocRefusal::WrongShape,
    ),
    (
        "{\"next\":0,\"entities\":[],\"commands\":[[{\"kill\":1,\"spawn\":{}}]]}",
        DocRefusal::WrongShape,
    ),
    (
        "{\"next\":0,\"entities\":[],\"commands\":[[{}]]}",
        DocRefusal::WrongShape,
    ),
    (
        "{\"next\":0,\"entities\":[],\"commands\":[{\"kill\":1}]}",
        DocRefusal::WrongShape,
    ),
    (
        "{\"next\":0,\"entities\":[],\"commands\":[[{\"grow\":1}]]}",
        DocRefusal::WrongShape,
    ),
    (
        "{\"next\":0,\"entities\":[],\"commands\":[[{\"kill\":1.0}]]}",
        DocRefusal::NotWhole,
    ),
    (
        "{\"next\":0,\"entities\":[],\"systems\":[{\"kind\":\"drift\",\"name\":\"a\"},{\"kind\":\"decay\",\"name\":\"a\"}]}",
        DocRefusal::NameTaken,
    ),
    (
        "{\"next\":0,\"entities\":[],\"systems\":[{\"kind\":\"drift\",\"after\":[\"b\"]},{\"kind\":\"decay\",\"name\":\"b\"}]}",
        DocRefusal::UnknownDependency,
    ),
    (
        "{\"next\":0,\"entities\":[],\"systems\":[{\"kind\":\"drift\"},{\"kind\":\"decay\",\"after\":[\"\"]}]}",
        DocRefusal::UnknownDependency,
    ),
    (
        "{\"next\":0,\"entities\":[],\"systems\":[{\"kind\":\"drift\",\"name\":\"a\"},{\"kind\":\"eat\",\"name\":\"a\"}]}",
        DocRefusal::UnknownSystem,
    ),
    (
        "{\"next\":0,\"entities\":[],\"systems\":[{\"kind\":\"pull\",\"name\":\"a\",\"after\":[\"z\"]},{\"kind\":\"drift\",\"name\":\"a\"}]}",
        DocRefusal::NameTaken,
    ),
    (
        "{\"next\":0,\"entities\":[],\"systems\":[{\"kind\":\"pull\"},{\"kind\":\"drift\",\"after\":[\"z\"]}]}",
        DocRefusal::UnknownDependency,
    ),
    (
        "{\"next\":0,\"entities\":[],\"systems\":[{\"kind\":\"drift\"},{\"kind\":\"pull\"}],\"workers\":65}",
        DocRefusal::MissingGlobal,
    ),
    (
        "{\"next\":0,\"entities\":[],\"systems\":[{\"barrier\":false}]}",
        DocRefusal::WrongShape,
    ),
    (
        "{\"next\":0,\"entities\":[],\"systems\":[{\"barrier\":true,\"kind\":\"drift\"}]}",
        DocRefusal::WrongShape,
    ),
    (
        "{\"next\":0,\"entities\":[],\"systems\":[{\"kind\":\"drift\",\"local\":true,\"after\":[]}]}",
        DocRefusal::WrongShape,
    ),
];

/// The first document of a table that is not refused by the name beside it.
fn first_wrong<'a, H: AllocGlobal + Threads + Wait + Sync>(
    rt: &H,
    rows: &'a [(&'static str, DocRefusal)],
) -> Option<&'a str> {
    for (document, refusal) in rows {
        if !is_refused(rt, document, *refusal) {
            return Some(document);
        }
    }
    None
}

#[test]
fn documents_are_refused_by_name(rt: HostRuntime) {
    let mut wrong = None;
    for (document, refusal) in &WORKED {
        if !is_refused_anyhow(&rt, document, *refusal) {
            wrong = Some(*document);
        }
    }
    assert_eq!(rt; wrong, None);
    assert_eq!(rt; first_wrong(&rt, ODD.as_slice()), None);
    assert_eq!(rt; first_wrong(&rt, LISTS.as_slice()), None);
}

/// That many lists, one in the other.
fn nested<H: AllocGlobal>(rt: &H, depth: usize) -> Result<String, AllocError> {
    let mut document = String::new(rt.alloc());
    for _ in 0..depth {
        document.push('[')?;
    }
    for _ in 0..depth {
        document.push(']')?;
    }
    Ok(document)
}

#[test]
fn deep_lists_are_unreadable(rt: HostRuntime) -> Result<(), Fail> {
    // An array is read down to 127 of them, and then its shape is told.
    let rows = [
        (127, DocRefusal::WrongShape),
        (128, DocRefusal::Unreadable),
        (200, DocRefusal::Unreadable),
    ];
    let mut wrong = None;
    for (depth, refusal) in rows {
        let document = nested(&rt, depth)?;
        if !is_refused(&rt, document.as_str(), refusal) {
            wrong = Some(depth);
        }
    }
    assert_eq!(rt; wrong, None);
    Ok(())
}
