ghost use Rattle.std.specs.Prelude.{OnOk, OnErr};
ghost use Rattle.kt_store.specs.Common.{Commits, HasCleanDisk, MayCommit, Survives, RollsBack, state};

use crate::statements::execute_in_transaction;
use crate::store_fault::{DATABASE_FAILURE, DatabaseError};
use sqlite::{Alter, Connection, Transaction};

/// An interface to a list of SQL statements that are executed in order and committed together.
pub(crate) trait Batch {
    ghost use Rattle.std.specs.Prelude.{List, ◌≡◌, OnOk};
    ghost use Rattle.kt_store.specs.Common.{Statement, CommitsNothingYet, ExecutesAll};

    /// The SQL statements of a batch with the values of their parameters, in the order of
    /// execution.
    ghost statements: { Self → List Statement };

    /// The condition under which the statements of a batch can be executed. Each implementation
    /// defines this condition. Each statement then creates a table of the store, or can be prepared
    /// over the tables of the store.
    ghost is_ready: { Self → Type 0 };

    /// Executes the statements of the batch in order in the open transaction `tx`, without
    /// committing it. Fails with the error of the first statement that fails.
    fn execute_statements<S: Alter>(&self, tx: &mut Transaction<'_, S>) -> Result<(), DatabaseError>
        requires { is_ready self.now }
        ensures same_reference { tx.new.conn.ghost_name ≡ tx.old.conn.ghost_name }
        ensures runs { OnOk result (ExecutesAll S.Store (statements self.now)
            tx.old.conn.now tx.new.conn.now) }
        ensures uncommitted { CommitsNothingYet S.Store tx.old.conn.now tx.new.conn.now };
}

/// A batch of SQL texts without parameters.
#[derive(Clone, Copy)]
pub(crate) struct SqlTexts<'a> {
    /// The SQL texts, in the order of their execution.
    pub(crate) texts: &'a [&'a str],
}

impl Batch for SqlTexts<'_> {
    ghost use Rattle.std.specs.Prelude.{map};
    ghost use Rattle.kt_store.specs.Common.{AllByRecursion, IsSchema2Statement, plain_statements};

    ghost statements = { λ t. plain_statements (map (λ sql. sql.now) t.texts.now) };

    ghost is_ready = { λ t. AllByRecursion IsSchema2Statement (map (λ sql. sql.now) t.texts.now) };

    fn execute_statements<S: Alter>(
        &self,
        tx: &mut Transaction<'_, S>,
    ) -> Result<(), DatabaseError> {
        for text in self.texts {
            execute_in_transaction(tx, text, &[])?;
        }
        Ok(())
    }
}

/// Executes a batch in a new transaction, and commits the transaction. Fails if a transaction is
/// open already. If a statement or the commit fails, the batch is rolled back.
pub(crate) fn commit<S: Alter, B: Batch>(
    conn: &mut Connection<S>,
    batch: &B,
) -> Result<(), DatabaseError>
    requires { B.is_ready batch.now }
    ensures done { HasCleanDisk (state S.Store conn.new)
        → OnOk result (Commits S.Store (B.statements batch.now) conn.old conn.new) }
    ensures undone { HasCleanDisk (state S.Store conn.new)
        → OnErr result (RollsBack S.Store conn.old conn.new) }
    ensures crash { Survives (state S.Store conn.old) (state S.Store conn.new)
        (MayCommit S.Store (B.statements batch.now) conn.old) }
{
    if !conn.is_autocommit() {
        return Err(DATABASE_FAILURE);
    }
    let mut tx = conn.transaction();
    batch.execute_statements(&mut tx)?;
    tx.commit()?;
    Ok(())
}
