ghost use Rattle.std.specs.Prelude.{◌≡◌};
ghost use Rattle.kt_atflist.specs.Inner.Reading.{initial_state};

use crate::block::Block;
use crate::names::NameSet;
use crate::{CaseDef, ListCause};
use kt_base::Items;
use std::alloc::Global;
use std::marker::Model;

/// A state of the reader of a list of test cases, between two lines of the list.
///
/// In contracts, a `ListReader` is the record `ReaderState`: the cases of the finished blocks, and
/// the block that has begun, if any.
#[derive(Drop)]
pub struct ListReader {
    /// The test cases whose blocks in the list are finished, in order.
    pub cases: Items<CaseDef>,
    /// The names of the cases in `cases`, and of the case of `block` if it is `Some`.
    pub names: NameSet,
    /// The block of the list that has begun and is not finished, or `None` between two blocks.
    pub block: Option<Block>,
}

impl Model for ListReader {
    ghost use Rattle.std.specs.Prelude.{◌≡◌};
    ghost use Rattle.kt_atflist.specs.Inner.Keys.{names_of};
    ghost use Rattle.kt_atflist.specs.ReaderState.{ReaderState};

    ghost Value = { ReaderState };

    ghost view = { λ r. record { cases = r.cases; block = r.block } };

    ghost invariant = { λ r. r.names ≡ names_of r.cases r.block };
}

impl ListReader {
    /// Creates the state of a reader before the first block of a list.
    ///
    /// Allocates nothing.
    pub fn new(alloc: Global) -> ListReader
        ensures { result ≡ initial_state }
    {
        ListReader {
            cases: Items::new(alloc),
            names: NameSet::new(alloc),
            block: None,
        }
    }
}

/// A result of reading one line of a list of test cases.
#[derive(Drop)]
pub enum ListStep {
    /// The line is valid. The field is the state of the reader after the line.
    NextState(ListReader),
    /// The line is faulty. The field is the cause of the fault.
    FaultyLine(ListCause),
}
