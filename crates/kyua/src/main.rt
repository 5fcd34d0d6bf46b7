//! The program `kyua`: executes the command in its arguments on the host, by kt_cli.
#![tactic(auto)]

mod host;

use host::{InitialContents, KyuaHost};
use kt_cli::{
    HostHandles, LineOutput, NonblockingOutput, ResultsHost, SharedOutput, StandardOutput,
    run_process_args,
};
use kt_os::{HostOs, OsFiles};
use sqlite::Unknown;
use std::alloc::Global;
use std::cell::RefCell;
use std::env;
use std::process::ExitCode;

/// Executes the command in the arguments of the process, and returns the exit status.
///
/// Bytes that the reader of standard output does not take yet are held in memory or in a temporary
/// file.
fn execute<P: ResultsHost>(rt: &HostRuntime, host: &mut P) -> ExitCode {
    let held = RefCell::new(NonblockingOutput::new(rt.alloc(), StandardOutput::new(rt)));
    let outside = HostHandles {
        alloc: rt.alloc(),
        machine: OsFiles { rt },
        os: HostOs::new(rt, SharedOutput::new(&held)),
    };
    // `run_process_args` sets `by_line` for `test`.
    let mut out = LineOutput::new(SharedOutput::new(&held), false);
    let (status, _outside) = run_process_args(
        outside,
        host,
        env::args(rt),
        &mut out,
        &mut rt.stderr(),
    );
    ExitCode::from(status)
}

/// Executes the command in the arguments of the process on the host, and returns the exit status.
///
/// Only contracts use `start`: it represents the initial contents of the results file.
fn run<S: InitialContents>(rt: &HostRuntime, start: S) -> ExitCode {
    let mut host = KyuaHost {
        rt,
        start: Some(start),
    };
    execute(rt, &mut host)
}

/// The size of the block that `keep_large_blocks` allocates and frees, in bytes. It is half of 32
/// MiB, the greatest value to which glibc raises M_MMAP_THRESHOLD by itself (mallopt(3)).
const LARGE_BLOCK: usize = 16_777_216;

/// Makes glibc allocate large blocks on its heap, instead of mapping and unmapping each of them.
///
/// Freeing one mapped block raises glibc's threshold for mapping to the size of the block. Smaller
/// blocks then come from the heap (mallopt(3), M_MMAP_THRESHOLD).
fn keep_large_blocks(alloc: Global) {
    let _ = Vec::<u8>::with_capacity(alloc, LARGE_BLOCK);
}

fn main(rt: HostRuntime) -> ExitCode {
    keep_large_blocks(rt.alloc());
    run(&rt, Unknown)
}
