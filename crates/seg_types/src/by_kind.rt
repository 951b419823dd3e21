//! Macros that lead from a kind or a value, known only at run time, to the same code for its type.

/// Repeats a piece of code for the type of each kind. `work!(bool, Bool)` gets the type and its name in
/// [`ScalarKind`](crate::ScalarKind) and [`ScalarValue`](crate::ScalarValue), and so on for each of the five.
///
/// Example: `by_kind!(kind, size_of)`, where `size_of!` takes a type and a name.
#[macro_export]
macro_rules! by_kind {
    ($kind:expr, $work:ident) => {
        match $kind {
            $crate::ScalarKind::Bool => $work!(bool, Bool),
            $crate::ScalarKind::U8 => $work!(u8, U8),
            $crate::ScalarKind::I32 => $work!(i32, I32),
            $crate::ScalarKind::I64 => $work!(i64, I64),
            $crate::ScalarKind::U64 => $work!(u64, U64),
        }
    };
}

/// Repeats a piece of code for the value of each kind: for a `bool`, a `u8`, and so on.
///
/// Example: `by_value!(value, it => print(it))`.
#[macro_export]
macro_rules! by_value {
    ($value:expr, $it:ident => $work:expr) => {
        match $value {
            $crate::ScalarValue::Bool($it) => $work,
            $crate::ScalarValue::U8($it) => $work,
            $crate::ScalarValue::I32($it) => $work,
            $crate::ScalarValue::I64($it) => $work,
            $crate::ScalarValue::U64($it) => $work,
        }
    };
}
