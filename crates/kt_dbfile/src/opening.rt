ghost use Rattle.std.specs.Prelude.{◌≡◌, ◌⊎◌, [], ◌∷◌, pos, codes, map, drop, true, false, Ok, Err, IfOk, IfErr, OnOk, IfSome, IsTrue};
ghost use Rattle.kt_dbfile.specs.Common.{ClosesCleanly, FailsToClose, Int, IsOnlyRead, CachesPages, LeavesAsBefore, IsDatabaseFault, OnlyReadsStore, ListsRuns, MustBeChecked, RecoversAsBefore, HasOtherSchema, StaysNumbered};
ghost use Rattle.kt_store.specs.TrustedContents.{IsTrustedImage, ListsTables, key_object, schema_2_objects, table_object};
ghost use Rattle.sqlite_trees.specs.Tree.{Trees};
ghost use Rattle.sqlite_value.specs.Value.{owned};
ghost use Rattle.sqlite_value.specs.declared.value.Value.TheVariants.{Text as Words};
ghost use Rattle.sqlite_wal.specs.PageSize.{bytes_of};
ghost use Rattle.sqlite_wal.specs.Reads.{AreClean, OnlyReads};
ghost use Rattle.kt_dbfile.specs.Common.{schema_2};
ghost use Rattle.kt_dbfile.specs.Inner.Opening.{OpensOver};
ghost use Rattle.kt_store.specs.Runs.{HasSchemaNumber};
ghost use Rattle.sqlite_catalog.specs.Listing.{IsSound};
ghost use Rattle.sqlite_pool.specs.Stored.{Recovers};
ghost use Rattle.sqlite_store.specs.FileStore.{IsReady, schema_of, state, view};
ghost use Rattle.sqlite_trees.specs.View.{IsClean};
ghost use Rattle.sqlite_store.specs.Unopened.{AreUsable, HasFile, Opens, files_of, image, state_of, wanted_by};
ghost use Rattle.sqlite.specs.Closing.{files_left};
ghost use Rattle.sqlite.specs.Files.{HoldsDatabase, image_of};

use crate::new_file::MIN_LOG_BYTES;
use crate::result_trees::ResultTrees;
use crate::trees::copy_all_columns;
use kt_base::NoMemory;
use kt_store::StoreFault;
use kt_store::attach::{CREATE_ENTRIES, CREATE_META, CREATE_PROPS, CREATE_RUNS};
use kt_store::store_fault::{DatabaseError, require_present};
use sqlite::Leftover;
use sqlite_disk::{Disk, Files};
use sqlite_exec::check::all_rows;
use sqlite_exec::work::Workspace;
use sqlite_pager::{Options, Pager};
use sqlite_store::{FileStore, OpenError, Unopened};
use sqlite_trees::store::{Alter, Shape, Store};
use sqlite_value::keys::Order;
use sqlite_value::order::is_same;
use sqlite_value::row::Row;
use sqlite_value::value::ValueRef;
use sqlite_wal::{PageSize, probe_first_page, probe_page_size};
use std::alloc::Global;
use std::hash::{BuildHasher, RandomState};

/// The size of the largest database file whose pages and trees are all checked during an open, in
/// bytes.
const MAX_CHECKED_BYTES: usize = 16 * 1_048_576;

/// Bytes 20 to 23 of a database whose pages end in checksums, as a big-endian number.
const CHECKSUM_MARK: u32 = 0x0840_2020;

/// The number of the B-tree of the table `meta`, which has the schema number.
const META: u32 = 0;

/// The layout of a table's B-tree: the shape of a table, and an empty set of columns of the type
/// REAL.
const TABLE: (Shape, u64) = (Shape::Table, 0);

/// The layout of a key index's B-tree: the shape of an index, and an empty set of columns of the
/// type REAL.
const KEY: (Shape, u64) = (Shape::Index(Order::PLAIN), 0);

/// The layouts of the B-trees of schema 2, in the order of their numbers. A layout is a shape and a
/// bit mask of the columns of the type REAL.
const LAYOUTS: [(Shape, u64); 7] = [TABLE, KEY, TABLE, TABLE, KEY, TABLE, KEY];

impl<S: Store> ResultTrees<S> {
    /// Checks that the schema number in the table `meta` is 2. Fails with `UnknownSchema` if it is
    /// another number, and with `Store` if the table doesn't have exactly one schema number.
    pub(crate) fn check_schema_number(&mut self) -> Result<(), StoreFault>
        ensures ours { OnOk result (IsClean (S.Store.view self.new.store)
            → HasSchemaNumber (pos 2) (S.Store.view self.old.store).trees) }
        // The error is `UnknownSchema` only if the schema number is another than 2.
        ensures unknown { IfErr result (λ e. IsDatabaseFault e ⊎ ((e ≡ StoreFault.UnknownSchema)
            × (IsClean (S.Store.view self.new.store)
            → HasOtherSchema (S.Store.view self.old.store).trees))) }
        ensures looks { OnlyReadsStore S.Store self.old.store self.new.store }
    {
        let number = self.stored_schema_number()?;
        if number == 2 {
            Ok(())
        } else {
            Err(StoreFault::UnknownSchema)
        }
    }

    /// Returns the schema number in the table `meta`. Fails unless the table has one row, with the
    /// name `schema` and an integer.
    fn stored_schema_number(&mut self) -> Result<i64, DatabaseError>
        ensures says { IfOk result (λ n. IsClean (S.Store.view self.new.store)
            → HasSchemaNumber n (S.Store.view self.old.store).trees) }
        ensures looks { OnlyReadsStore S.Store self.old.store self.new.store }
    {
        let settings = all_rows(&mut self.store, &mut Workspace::new(self.alloc), META)?;
        require_present(schema_number_from_rows(settings.as_slice()))
    }
}

/// Returns store options that limit the cache of read pages to `pages` pages. Returns `None` if the
/// system provides no random number.
pub(crate) fn store_options(rt: &HostRuntime, pages: usize) -> Option<Options>
    ensures pages { IfSome result (CachesPages pages) }
{
    let state = RandomState::new(rt).ok()?;
    let mut options = Options::new(state.hash_one(&0u8));
    options.cache_pages = pages;
    Some(options)
}

/// Returns the page size of the database in `files`. Returns `None` if its pages end in checksums,
/// if there is no database, or if a read fails.
fn page_size_without_checksums<D: Disk>(alloc: Global, files: &mut Files<D>) -> Option<PageSize>
    requires log { IsTrue (D.Disk.is_usable files.old.log) }
    requires db { IsTrue (D.Disk.is_usable files.old.db) }
    ensures size { IfSome result (λ size. AreClean D.Disk files.new.log files.new.db → (db : Trees)
        (held : HoldsDatabase (image_of D.Disk files.old) db) → held.0 ≡ bytes_of size) }
    ensures log { OnlyReads D.Disk files.old.log files.new.log }
    ensures db { OnlyReads D.Disk files.old.db files.new.db }
{
    let found = probe_page_size(files).ok()?;
    let size = found?;
    let head = probe_first_page(alloc, files, size).ok()?;
    if head.0 != b'S' || head.1 == CHECKSUM_MARK {
        return None;
    }
    Some(size)
}

/// Returns `true` if the open must check all pages and trees of `files`, the results file and its
/// log.
///
/// It checks them if the database file has at most 16 MiB, since the check then takes at most about
/// 60 ms. It also checks them if the log can have frames: then a runner was killed or the machine
/// lost power. Fails if the size of a file can't be read.
fn needs_full_check<D: Disk>(files: &mut Files<D>) -> Result<bool, DatabaseError>
    requires log { IsTrue (D.Disk.is_usable files.old.log) }
    requires db { IsTrue (D.Disk.is_usable files.old.db) }
    ensures tested { IfOk result (λ it. AreClean D.Disk files.new.log files.new.db
        → MustBeChecked (image_of D.Disk files.old) → it ≡ true) }
    ensures log { OnlyReads D.Disk files.old.log files.new.log }
    ensures db { OnlyReads D.Disk files.old.db files.new.db }
{
    let size = require_present(files.db.len().ok())?;
    let log = require_present(files.log.len().ok())?;
    Ok(size <= MAX_CHECKED_BYTES || MIN_LOG_BYTES <= log)
}

/// Creates a store over `files` that isn't opened yet, with the page size `size` and without
/// checksums. Returns the files if an allocation fails.
fn create_unopened_store<D: Disk + Drop>(
    alloc: Global,
    files: Files<D>,
    size: PageSize,
    options: Options,
) -> Result<Unopened<D>, Files<D>>
    ensures files { IfOk result (λ it. files_of it ≡ (files.log, files.db)) }
    ensures size { IfOk result (λ it. (state_of it).page_size ≡ bytes_of size) }
    ensures back { IfErr result (λ left. left ≡ files) }
{
    let pager = match Pager::new(alloc, files, size, options) {
        Ok(pager) => pager,
        Err(failed) => return Err(failed.value),
    };
    match Unopened::with_sums(alloc, pager, &[], false) {
        Ok(fresh) => Ok(fresh),
        Err(failed) => Err(failed.value.close()),
    }
}

/// Returns `true` if `row`, a row of SQLite's schema list, has exactly these values: the rowid
/// `id`, the type `kind`, the name `name`, the table name `table` and the SQL text `text`.
fn is_schema_object(
    row: &Row,
    id: i64,
    kind: &str,
    name: &str,
    table: &str,
    text: ValueRef<'_>,
) -> bool
    ensures { IsTrue result → row.now ≡ Int id ∷ Words kind.now ∷ Words name.now
        ∷ Words table.now ∷ owned text.entry ∷ [] }
{
    row.len() == 5
        && is_same(row.get(0), ValueRef::Int(id))
        && is_same(row.get(1), ValueRef::Text(kind.as_bytes()))
        && is_same(row.get(2), ValueRef::Text(name.as_bytes()))
        && is_same(row.get(3), ValueRef::Text(table.as_bytes()))
        && is_same(row.get(4), text)
}

/// Returns `true` if `row`, a row of SQLite's schema list, lists the table `name` with the rowid
/// `id` and the SQL text `sql`.
fn is_table(row: &Row, id: u32, name: &str, sql: &str) -> bool
    ensures { IsTrue result → row.now ≡ table_object id name.now sql.now }
{
    let text = ValueRef::Text(sql.as_bytes());
    is_schema_object(row, i64::from(id), "table", name, name, text)
}

/// Returns `true` if `row`, a row of SQLite's schema list, lists the key index `name` of the table
/// `table`, with the rowid `id`. Such an index has no SQL text.
fn is_key_index(row: &Row, id: u32, name: &str, table: &str) -> bool
    ensures { IsTrue result → row.now ≡ key_object id name.now table.now }
{
    is_schema_object(row, i64::from(id), "index", name, table, ValueRef::Null)
}

/// Returns `true` if `rows` are SQLite's schema list for schema 2, without the root pages
/// (docs/formats/store.md).
fn is_schema_2(rows: &[Row]) -> bool
    ensures { IsTrue result → rows.now ≡ schema_2_objects }
{
    let [meta, meta_key, runs, entries, entries_key, props, props_key] = rows else {
        return false;
    };
    let of_meta = is_table(meta, 1, "meta", CREATE_META)
        & is_key_index(meta_key, 2, "sqlite_autoindex_meta_1", "meta");
    let of_runs = is_table(runs, 3, "runs", CREATE_RUNS);
    let of_entries = is_table(entries, 4, "entries", CREATE_ENTRIES)
        & is_key_index(entries_key, 5, "sqlite_autoindex_entries_1", "entries");
    let of_props = is_table(props, 6, "props", CREATE_PROPS)
        & is_key_index(props_key, 7, "sqlite_autoindex_props_1", "props");
    of_meta & of_runs & of_entries & of_props
}

/// Reads SQLite's schema list in `files`, and returns `true` if it is the list of schema 2. If it
/// is, the later open of `files` uses schema 2.
fn list_schema<D: Disk>(alloc: Global, files: &mut Unopened<D>) -> Result<bool, DatabaseError>
    requires { AreUsable files.old }
    ensures honest { IsTrue (state_of files.new).is_clean → IsTrue (state_of files.old).is_clean }
    ensures kept { IsTrue (state_of files.new).is_clean → Opens files.old (state_of files.new) }
    ensures usable { OnOk result (AreUsable files.new) }
    ensures read { OnOk result (IsTrue (state_of files.new).is_clean
        → RecoversAsBefore files.old files.new) }
    ensures lists { IfOk result (λ it. IsTrue it → IsTrue (state_of files.new).is_clean
        → ListsRuns files.old files.new) }
{
    let listed = files.read_catalog()?;
    let rows = copy_all_columns(alloc, listed.as_slice(), &[0, 1, 2, 3, 5])?;
    if !is_schema_2(rows.as_slice()) || rows.len() != 7 {
        return Ok(false);
    }
    match files.list_schema(rows.as_slice(), &LAYOUTS) {
        Ok(is_listed) => Ok(is_listed),
        Err(refusal) => Err(DatabaseError::from(NoMemory::from(refusal))),
    }
}

/// Returns the schema number in `settings`, the rows of the table `meta`. Returns `None` unless
/// there is one row, with the name `schema` and an integer.
fn schema_number_from_rows(settings: &[Row]) -> Option<i64>
    ensures { IfSome result (λ n. map (drop 1) settings.now
        ≡ (Words (codes "schema") ∷ Int n ∷ []) ∷ []) }
{
    let [row] = settings else {
        return None;
    };
    if row.len() != 3 || !is_same(row.get(1), ValueRef::Text("schema".as_bytes())) {
        return None;
    }
    match row.get(2) {
        ValueRef::Int(number) => Some(number),
        _ => None,
    }
}

/// Converts the error of `returned`, the result of an open, to a `DatabaseError`.
fn convert_open_result<T, L>(returned: Result<T, (OpenError, L)>) -> Result<T, (DatabaseError, L)>
    ensures ok { IfOk result (λ it. returned ≡ Ok it) }
    ensures err { IfErr result (λ e. (cause : _) × (returned ≡ Err (cause, e.1))) }
{
    match returned {
        Ok(it) => Ok(it),
        Err((error, left)) => Err((DatabaseError::from(error), left)),
    }
}

/// Opens the database in `files`, from which the schema list has been read already. Checks all
/// pages and trees if `needs_full_check` is `true`. Otherwise, checks only the pages of the schema
/// and the free pages. On failure, returns the error with the files.
fn open_sound_files<D: Disk + Drop>(
    files: Unopened<D>,
    needs_full_check: bool,
) -> Result<FileStore<D>, (DatabaseError, Unopened<D>)>
    requires usable { AreUsable files }
    requires sound { IsTrue (state_of files).is_clean → HasFile files }
    ensures ready { IfOk result IsReady }
    ensures schema { IfOk result (λ it. schema_of it ≡ wanted_by files) }
    ensures honest { IfOk result (λ it. IsTrue (state it).is_clean
        → IsTrue (state_of files).is_clean) }
    ensures found { IfOk result (λ it. IsTrue (state it).is_clean
        → Recovers (state_of files).page_size (image files) (state it).committed) }
    ensures kept { IfOk result (λ it. IsTrue (state it).is_clean → Opens files (state it)) }
    // Only a store whose trees were checked is numbered.
    ensures tested { needs_full_check ≡ true → IfOk result (λ it. IsTrue (view it).is_numbered) }
    ensures falls { IfErr result (λ e. IsTrue (state_of e.1).is_clean
        → IsTrue (state_of files).is_clean) }
    ensures unharmed { IfErr result (λ e. IsTrue (state_of e.1).is_clean
        → Opens files (state_of e.1)) }
{
    if needs_full_check {
        convert_open_result(files.open_numbered())
    } else {
        convert_open_result(files.open_trusted())
    }
}

/// Opens `files`, the results file and its log, if they list the tables of schema 2 in pages
/// without checksums. Recovers the log. If `files` aren't such files, only reads them and returns
/// them as the inner error. It does the same if the page size can't be read or the store can't be
/// allocated. On any other failure, returns the error with both files, as a `Leftover`.
pub(crate) fn open_known_files<D: Disk + Drop>(
    alloc: Global,
    mut files: Files<D>,
    options: Options,
) -> Result<Result<FileStore<D>, Files<D>>, (DatabaseError, Leftover<D>)>
    requires log { IsTrue (D.Disk.is_usable files.log) }
    requires db { IsTrue (D.Disk.is_usable files.db) }
    requires held { IsTrustedImage (image_of D.Disk files) }
    ensures opens { IfOk result (λ found. IfOk found (λ s. IsClean (view s)
        → OpensOver (image_of D.Disk files) s)) }
    ensures settled { IfOk result (λ found. IfOk found (λ s. (view s).trees ≡ (view s).committed)) }
    ensures unbroken { IfOk result (λ found. IfOk found (λ s. IsClean (view s)
        → (view s).is_broken ≡ false)) }
    ensures lists { IfOk result (λ found. IfOk found (λ s. IsClean (view s)
        → ListsTables (image_of D.Disk files))) }
    ensures sound { IfOk result (λ found. IfOk found (λ s. IsTrue (view s).is_open
        → IsSound schema_2 (view s).committed)) }
    ensures tested { IfOk result (λ found. IfOk found (λ s. IsClean (view s)
        → MustBeChecked (image_of D.Disk files) → IsTrue (view s).is_numbered)) }
    ensures back { IfOk result (λ found. IfErr found (IsOnlyRead D.Disk files)) }
    ensures left { IfErr result (λ e. LeavesAsBefore D.Disk files (files_left e.1)) }
{
    let Some(size) = page_size_without_checksums(alloc, &mut files) else {
        return Ok(Err(files));
    };
    let needs_full_check = match needs_full_check(&mut files) {
        Ok(needs_full_check) => needs_full_check,
        Err(failure) => return Err((failure, Leftover::Files(files))),
    };
    let mut fresh = match create_unopened_store(alloc, files, size, options) {
        Ok(fresh) => fresh,
        Err(left) => return Ok(Err(left)),
    };
    let is_listed = match list_schema(alloc, &mut fresh) {
        Ok(is_listed) => is_listed,
        Err(failure) => return Err((failure, Leftover::Unopened(fresh))),
    };
    if !is_listed {
        return Ok(Err(fresh.close()));
    }
    match open_sound_files(fresh, needs_full_check) {
        Ok(store) => Ok(Ok(store)),
        Err((failure, left)) => Err((failure, Leftover::Unopened(left))),
    }
}

/// Copies the log of `store` into the database file, and closes both files. Uncommitted changes are
/// lost. On failure, returns the error with the store.
pub(crate) fn close_store<D: Disk + Drop>(
    mut store: FileStore<D>,
) -> Result<(), (DatabaseError, FileStore<D>)>
    ensures closed { OnOk result (ClosesCleanly store) }
    ensures failed { IfErr result (λ e. FailsToClose store e.1) }
    ensures numbered { IfErr result (λ e. StaysNumbered (view store) (view e.1)) }
{
    store.rollback();
    match store.checkpoint() {
        Ok(()) => {
            let _files = store.close();
            Ok(())
        }
        Err(error) => Err((DatabaseError::from(error), store)),
    }
}
