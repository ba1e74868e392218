//! The pairs of fanouts that the program offers. Only here do numbers choose a type.

/// Calls a function over the tree of two fanouts, which replace the `..` of its type. The arguments
/// behind the call are passed on. Fanouts that are not offered are refused by fault `BadFanout`
/// (18).
macro_rules! over_offered_tree {
    (
        $leaf:expr,
        $inner:expr,
        $call:ident::<$($before:ident,)* .. $(, $behind:ident)*> $($rest:tt)*
    ) => {
        match ($leaf, $inner) {
            (2, 2) => $call::<$($before,)* 2, 2 $(, $behind)*> $($rest)*,
            (2, 3) => $call::<$($before,)* 2, 3 $(, $behind)*> $($rest)*,
            (4, 4) => $call::<$($before,)* 4, 4 $(, $behind)*> $($rest)*,
            (16, 64) => $call::<$($before,)* 16, 64 $(, $behind)*> $($rest)*,
            (64, 64) => $call::<$($before,)* 64, 64 $(, $behind)*> $($rest)*,
            _ => Err(RunFault::Open(Fault::BadFanout)),
        }
    };
}

pub(crate) use over_offered_tree;
