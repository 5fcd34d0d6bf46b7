use crate::files::FailedOpenWitness;
use sqlite::{Start, Unknown};

/// An interface to a value that represents the initial content of a results file and its log, in
/// contracts alone.
///
/// The content is assumed to contain valid runs if it lists the tables of schema 2. Nothing is
/// assumed of other contents. An open consumes a value of the type, so each open needs another
/// value.
pub trait TrustedContents: Start {
    ghost use Rattle.sqlite_wal.specs.Files.{image_at};
    ghost use Rattle.kt_store.specs.TrustedContents.{IsTrustedImage};

    /// Returns the value that the failed open consumed, so that another open can consume it. The
    /// program doesn't read the value.
    fn recover_contents(failed: FailedOpenWitness<Self>) -> Self;

    /// The assumption that the initial content of the results file and its log meets
    /// `IsTrustedImage`.
    ghost holds: { IsTrustedImage (image_at Self.Start) };
}

impl TrustedContents for Unknown {
    ghost use Rattle.kt_dbfile.specs.Inner.EmptyFiles.{empty_files_are_trusted};

    ghost holds = { empty_files_are_trusted };

    fn recover_contents(_failed: FailedOpenWitness<Unknown>) -> Unknown {
        Unknown
    }
}
