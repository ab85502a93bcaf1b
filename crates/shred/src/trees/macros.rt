//! Trees of several trees at once.

/// A `Seq` of some trees, in their order: `seq![first, second, third]`.
#[macro_export]
macro_rules! seq {
    ($first:expr $(, $next:expr)* $(,)?) => {
        $crate::Seq::new($first)$(.with($next))*
    };
}

/// A `Par` of some trees, in their order: `par![in alloc; first, second, third]`.
///
/// It is the result of `Par::with` for one after the other; a refusal tells its cause alone, and lets the trees go.
#[macro_export]
macro_rules! par {
    (in $alloc:expr; $first:expr $(,)?) => {
        Ok($crate::Par::new($first))
    };
    (in $alloc:expr; $first:expr $(, $next:expr)+ $(,)?) => {
        $crate::par!(@ $alloc; $crate::Par::new($first); $($next),+)
    };
    (@ $alloc:expr; $tree:expr; $next:expr) => {
        match $tree.with($alloc, $next) {
            Ok(tree) => Ok(tree),
            Err((cause, _tree, _next)) => Err(cause),
        }
    };
    (@ $alloc:expr; $tree:expr; $next:expr, $($others:expr),+) => {
        match $tree.with($alloc, $next) {
            Ok(tree) => $crate::par!(@ $alloc; tree; $($others),+),
            Err((cause, _tree, _next)) => Err(cause),
        }
    };
}
