//! What the tests compare by: calls, since what a macro writes in each test is dear to prove.
ghost use Rattle.std.specs.Prelude.{◌≡◌, Err, IsTrue, Ok};

use std::process::Abort;

/// Fails if a call answers something else than is wanted.
pub fn same<T: PartialEq + Drop>(rt: &impl Abort, got: T, want: T) {
    holds(rt, got == want);
}

/// Fails if something is not so. What a caller does after it may rest on it.
pub fn holds(rt: &impl Abort, so: bool)
    ensures { IsTrue so }
{
    assert!(rt; so);
}

/// Returns what a call answers, which is not refused.
pub fn done<T, E: Drop>(rt: &impl Abort, got: Result<T, E>) -> T
    ensures { got ≡ Ok result }
{
    match got {
        Ok(it) => it,
        Err(_) => panic!(rt; "refused"),
    }
}

/// Returns what a call is refused with.
pub fn refusal<T: Drop, E>(rt: &impl Abort, got: Result<T, E>) -> E
    ensures { got ≡ Err result }
{
    match got {
        Ok(_) => panic!(rt; "not refused"),
        Err(why) => why,
    }
}
