//! Where a walk is cut in two.
use crate::walked::set_of;
use hibitset::producer::BitProducer;
use hibitset_sets::{BitSetLike, Index};
use std::alloc::{AllocError, Global};
use std::test::Fail;

/// The members, the layers that may be split, and how many items the first part has: none where the
/// walk is left whole.
const ROWS: [(&[Index], u8, Option<usize>); 8] = [
    (&[], 3, None),
    (&[5], 3, None),
    (&[0, 63], 3, None),
    (&[0, 64], 3, Some(1)),
    (&[0, 64], 2, None),
    (&[1, 2, 64, 128], 3, Some(3)),
    (&[0, 262_144], 1, Some(1)),
    (&[0, 1, 4_096, 8_192], 2, Some(3)),
];

/// How many items a part of a walk has.
fn items<T: BitSetLike>(part: BitProducer<T>) -> usize {
    part.fold_with(0usize, |n: usize, _i: Index| n.wrapping_add(1))
}

/// Whether a walk over the members is cut after so many items, and the parts have all.
fn holds(
    alloc: Global,
    members: &[Index],
    layers: u8,
    first: Option<usize>,
) -> Result<bool, AllocError> {
    let set = set_of(alloc, members)?;
    let (one, other) = BitProducer((&set).iter(), if layers < 3 { layers } else { 3 }).split();
    let below = items(one);
    Ok(match other {
        None => first == None && below == members.len(),
        Some(part) => first == Some(below) && items(part).wrapping_add(below) == members.len(),
    })
}

#[test]
fn walks_are_cut_at_the_middle_bit(rt: HostRuntime) -> Result<(), Fail> {
    let mut wrong = None;
    for row in ROWS.as_slice() {
        let (members, layers, first) = *row;
        if !holds(rt.alloc(), members, layers, first)? {
            wrong = Some((members, layers));
        }
    }
    assert_eq!(rt; wrong, None);
    Ok(())
}
