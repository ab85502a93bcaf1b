//! Whether two iterators share an item.
ghost use Rattle.std.specs.Prelude.{◌≡◌, IsOk, IfOk, MatchResult};
ghost use Rattle.std.specs.Iterator.{IsFinite};
ghost use Rattle.shred_world.specs.Sharing.{CanBeWalked, Tells, TellsByClone, Shares};

use std::alloc::AllocError;

/// Whether an item that one iterator gives equals one that the other gives.
///
/// The right one is cloned for each item of the left one, and a clone is walked up to the first equal item; the left one is walked
/// up to the first item that is shared.
///
/// Errors: `AllocError`, where a clone is refused.
pub fn check_intersection<'i, T, I, J>(left: I, right: J) -> Result<bool, AllocError>
where
    T: PartialEq + 'i,
    I: Iterator<Item = &'i T>,
    J: Iterator<Item = &'i T> + Clone,
    requires left { I.can_next left }
    requires left_ends { IsFinite (I.remaining left) }
    requires right { CanBeWalked J.is_clone J.can_next J.remaining right }
    ensures exact { IfOk result (λ shared. Shares T.eq J.next_gives I.next_gives J.is_clone shared left right) }
    ensures succeeds { J.is_infallible right → IsOk result }
{
    for item in left {
        match is_shared(item, &right) {
            Ok(true) => return Ok(true),
            Ok(false) => {}
            Err(refused) => return Err(refused),
        }
    }
    Ok(false)
}

/// Whether a clone of an iterator gives an item that equals this one.
///
/// Errors: `AllocError`, where the clone is refused.
fn is_shared<'i, T, J>(item: &T, others: &J) -> Result<bool, AllocError>
where
    T: PartialEq + 'i,
    J: Iterator<Item = &'i T> + Clone,
    requires { CanBeWalked J.is_clone J.can_next J.remaining others.now }
    ensures { MatchResult result (λ found. TellsByClone T.eq J.next_gives J.is_clone others.now found item.now)
        (λ _. ¬ (J.is_infallible others.now)) }
{
    match others.clone() {
        Ok(copy) => Ok(is_given(item, copy)),
        Err(refused) => Err(refused),
    }
}

/// Whether an iterator gives an item that equals this one.
fn is_given<'i, T, J>(item: &T, others: J) -> bool
where
    T: PartialEq + 'i,
    J: Iterator<Item = &'i T>,
    requires can { J.can_next others }
    requires ends { IsFinite (J.remaining others) }
    ensures { Tells T.eq J.next_gives result others item.now }
{
    for other in others {
        if *item == *other {
            return true;
        }
    }
    false
}
