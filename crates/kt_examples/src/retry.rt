/// Returns the result of the call `$call`, which is repeated once if it fails with
/// `$fault::NoMemory`. A failed call must have changed nothing.
#[macro_export]
macro_rules! retry_once {
    ($fault:ident, $call:expr) => {
        match $call {
            Err($fault::NoMemory(_)) => $call,
            done => done,
        }
    };
}
