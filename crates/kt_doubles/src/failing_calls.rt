use crate::{provoke_no_memory, provoke_store_error};
use kt_base::NoMemory;
use kt_examples::{Example, Result, parse_number};
use kt_store::{DatabaseFailure, StoreFault};
use std::alloc::Global;

/// A counter of the calls on a results store, which makes a range of the calls fail.
#[derive(Drop)]
pub struct FailingCalls {
    /// The number of calls of the store so far.
    calls: u64,
    /// The numbers of the first and the last call that fail, counted from 1, or 0 and 0 for none.
    failing_range: (u64, u64),
    /// The error of the calls that a line `refused` makes fail.
    failure: DatabaseFailure,
    /// The error of the calls that a line `refused-memory` makes fail, or `None` if the example has
    /// no such line.
    no_memory: Option<NoMemory>,
}

impl FailingCalls {
    ghost use Rattle.std.specs.Prelude.{IfErr};
    ghost use Rattle.kt_store.specs.Ask.{IsDatabaseFault};

    /// Parses the line `refused CALLS` or `refused-memory CALLS` of `example`. CALLS is `N` for one
    /// call or `N M` for the calls from `N` to `M`, counted from 1. Without such a line no call
    /// fails.
    ///
    /// # Errors
    ///
    /// - `InvalidExample`: CALLS isn't one or two numbers, or the failure whose error the calls
    ///   return can't be provoked.
    /// - `NoMemory`: an allocation failed.
    pub fn parse(alloc: Global, example: &Example<'_>) -> Result<FailingCalls> {
        let (calls, no_memory) = match example.find_text("refused-memory") {
            Some(calls) => (calls, Some(provoke_no_memory(alloc)?)),
            None => (example.find_text("refused").unwrap_or("0"), None),
        };
        let (first, last) = calls.split_once(' ').unwrap_or((calls, calls));
        Ok(FailingCalls {
            calls: 0,
            failing_range: (parse_number(first)?, parse_number(last)?),
            failure: provoke_store_error(alloc)?,
            no_memory,
        })
    }

    /// Counts a call on the store, and fails if the call is in the range that must fail. Allocates
    /// nothing.
    ///
    /// # Errors
    ///
    /// - `NoMemory`: the call is in the range of `refused-memory`.
    /// - `Store`: the call is in the range of `refused`.
    pub fn count_call(&mut self) -> Result<(), StoreFault>
        ensures { IfErr result IsDatabaseFault }
    {
        let call = self.calls.saturating_add(1);
        self.calls = call;
        let (first, last) = self.failing_range;
        if call < first || last < call {
            return Ok(());
        }
        match self.no_memory {
            Some(refusal) => Err(StoreFault::from(refusal)),
            None => Err(StoreFault::Store(self.failure)),
        }
    }
}
