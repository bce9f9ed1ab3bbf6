//! The changes, the session steps and `get` with values in place of a line. What is told of each is `mi_embed`'s.
ghost use Rattle.std.specs.Prelude.{◌≡◌, ◌==◌, not};
ghost use types.Logic.{sem};
ghost use base.Fml.{fex};
ghost use Rattle.mi_embed.specs.State.{EngineState};
ghost use Rattle.mi_embed.specs.Calls as call;
ghost use Rattle.mi_embed.specs.Calls.{Tells};
ghost use Rattle.mi_embed.specs.Shown.{got, TellsRow};
ghost use Rattle.weltiyo.specs.OptionalId.{optional_id};
ghost use Rattle.weltiyo.specs.Handle.{engine_at};

use crate::optional_id::optional_id;
use mi_embed::{CallResult, Cell, EditCell, Engine};

/// Adds a record, and tells its id.
fn inserted(
    engine: &mut Engine,
    conn: u64,
    table: usize,
    cells: &[Cell],
    texts: &[u8],
) -> CallResult
    ensures { Tells conn (call.insert table cells.now texts.now) result engine.old engine.new }
{
    engine.insert(conn, table, cells, texts)
}

/// Adds the record that cells are to a table, and tells its id.
#[unsafe(no_mangle)]
pub unsafe extern "C" fn weltiyo_insert(
    at: *mut u8,
    conn: u64,
    table: usize,
    cells: &[Cell],
    texts: &[u8],
) -> CallResult
    ghost engine: { EngineState }
    requires* { sem 𝓛 (engine_at at engine) }
    ensures* { sem 𝓛 (fex EngineState (λ new. fex (Tells conn (call.insert table cells.now texts.now) result engine new)
        (λ _. engine_at at new))) }
{
    inserted(&mut *(at as *mut Engine), conn, table, cells, texts)
}

/// Puts a record into cells and bytes, and tells its id.
fn shown(
    engine: &mut Engine,
    table: usize,
    id: u64,
    cells: &mut [Cell],
    texts: &mut [u8],
) -> CallResult
    ensures same { engine.new ≡ engine.old }
    ensures row { TellsRow id (got engine.old.held table id) result cells.old cells.new texts.old texts.new }
{
    engine.get(table, id, cells, texts)
}

/// Puts the record of an id into cells, and its texts into bytes, and tells the id.
#[unsafe(no_mangle)]
pub unsafe extern "C" fn weltiyo_get(
    at: *mut u8,
    table: usize,
    id: u64,
    cells: &mut [Cell],
    texts: &mut [u8],
) -> CallResult
    ghost engine: { EngineState }
    requires* { sem 𝓛 (engine_at at engine) }
    ensures* { sem 𝓛 (engine_at at engine) ∗ ⌜ TellsRow id (got engine.held table id) result cells.old cells.new texts.old texts.new ⌝ }
{
    shown(&mut *(at as *mut Engine), table, id, cells, texts)
}

/// Opens a session, and tells the new revision.
fn started(engine: &mut Engine, conn: u64) -> CallResult
    ensures { Tells conn call.start result engine.old engine.new }
{
    engine.start(conn)
}

/// Opens a session, which the connection then holds, and tells the new revision.
#[unsafe(no_mangle)]
pub unsafe extern "C" fn weltiyo_start(at: *mut u8, conn: u64) -> CallResult
    ghost engine: { EngineState }
    requires* { sem 𝓛 (engine_at at engine) }
    ensures* { sem 𝓛 (fex EngineState (λ new. fex (Tells conn call.start result engine new) (λ _. engine_at at new))) }
{
    started(&mut *(at as *mut Engine), conn)
}

/// Undoes the newest session, and tells the new revision.
fn undone(engine: &mut Engine, conn: u64) -> CallResult
    ensures { Tells conn call.undo result engine.old engine.new }
{
    engine.undo(conn)
}

/// Undoes the newest session, and tells the new revision. It takes no memory.
#[unsafe(no_mangle)]
pub unsafe extern "C" fn weltiyo_undo(at: *mut u8, conn: u64) -> CallResult
    ghost engine: { EngineState }
    requires* { sem 𝓛 (engine_at at engine) }
    ensures* { sem 𝓛 (fex EngineState (λ new. fex (Tells conn call.undo result engine new) (λ _. engine_at at new))) }
{
    undone(&mut *(at as *mut Engine), conn)
}

/// Sets another record for an id.
fn replaced(
    engine: &mut Engine,
    conn: u64,
    table: usize,
    id: u64,
    cells: &[Cell],
    texts: &[u8],
) -> CallResult
    ensures { Tells conn (call.replace table id cells.now texts.now) result engine.old engine.new }
{
    engine.replace(conn, table, id, cells, texts)
}

/// Sets the record that cells are for an id.
#[unsafe(no_mangle)]
pub unsafe extern "C" fn weltiyo_replace(
    at: *mut u8,
    conn: u64,
    table: usize,
    id: u64,
    cells: &[Cell],
    texts: &[u8],
) -> CallResult
    ghost engine: { EngineState }
    requires* { sem 𝓛 (engine_at at engine) }
    ensures* { sem 𝓛 (fex EngineState (λ new. fex (Tells conn (call.replace table id cells.now texts.now) result engine new)
        (λ _. engine_at at new))) }
{
    replaced(&mut *(at as *mut Engine), conn, table, id, cells, texts)
}

/// Adds a number to a column of a record.
fn added(
    engine: &mut Engine,
    conn: u64,
    table: usize,
    id: u64,
    column: usize,
    n: i64,
    rollback: u32,
) -> CallResult
    ensures { Tells conn (call.modify_add table id column n (not (rollback == 0))) result engine.old engine.new }
{
    engine.modify_add(conn, table, id, column, n, rollback != 0)
}

/// Adds a number to a column of a record; `rollback` is 0 where a conflict erases the record, and any other number where it changes nothing.
#[unsafe(no_mangle)]
pub unsafe extern "C" fn weltiyo_modify_add(
    at: *mut u8,
    conn: u64,
    table: usize,
    id: u64,
    column: usize,
    n: i64,
    rollback: u32,
) -> CallResult
    ghost engine: { EngineState }
    requires* { sem 𝓛 (engine_at at engine) }
    ensures* { sem 𝓛 (fex EngineState (λ new. fex (Tells conn (call.modify_add table id column n (not (rollback == 0)))
        result engine new) (λ _. engine_at at new))) }
{
    added(
        &mut *(at as *mut Engine),
        conn,
        table,
        id,
        column,
        n,
        rollback,
    )
}

/// Erases a record.
fn erased(engine: &mut Engine, conn: u64, table: usize, id: u64) -> CallResult
    ensures { Tells conn (call.erase table id) result engine.old engine.new }
{
    engine.erase(conn, table, id)
}

/// Erases a record.
#[unsafe(no_mangle)]
pub unsafe extern "C" fn weltiyo_erase(at: *mut u8, conn: u64, table: usize, id: u64) -> CallResult
    ghost engine: { EngineState }
    requires* { sem 𝓛 (engine_at at engine) }
    ensures* { sem 𝓛 (fex EngineState (λ new. fex (Tells conn (call.erase table id) result engine new) (λ _. engine_at at new))) }
{
    erased(&mut *(at as *mut Engine), conn, table, id)
}

/// Joins the newest session into the one below, and tells the new revision.
fn squashed(engine: &mut Engine, conn: u64) -> CallResult
    ensures { Tells conn call.squash result engine.old engine.new }
{
    engine.squash(conn)
}

/// Joins the newest session into the one below, and tells the new revision. It takes no memory.
#[unsafe(no_mangle)]
pub unsafe extern "C" fn weltiyo_squash(at: *mut u8, conn: u64) -> CallResult
    ghost engine: { EngineState }
    requires* { sem 𝓛 (engine_at at engine) }
    ensures* { sem 𝓛 (fex EngineState (λ new. fex (Tells conn call.squash result engine new) (λ _. engine_at at new))) }
{
    squashed(&mut *(at as *mut Engine), conn)
}

/// Ends the sessions up to a number, and tells how many.
fn committed(engine: &mut Engine, conn: u64, number: u64) -> CallResult
    ensures { Tells conn (call.commit number) result engine.old engine.new }
{
    engine.commit(conn, number)
}

/// Ends the sessions up to a number, keeps their changes, and tells how many. It takes no memory.
#[unsafe(no_mangle)]
pub unsafe extern "C" fn weltiyo_commit(at: *mut u8, conn: u64, number: u64) -> CallResult
    ghost engine: { EngineState }
    requires* { sem 𝓛 (engine_at at engine) }
    ensures* { sem 𝓛 (fex EngineState (λ new. fex (Tells conn (call.commit number) result engine new) (λ _. engine_at at new))) }
{
    committed(&mut *(at as *mut Engine), conn, number)
}

/// Adds a record directly before another in a sequenced index, and tells its id.
fn inserted_before(
    engine: &mut Engine,
    conn: u64,
    table: usize,
    cells: &[Cell],
    texts: &[u8],
    index: usize,
    before: u64,
) -> CallResult
    ensures { Tells conn (call.insert_before table cells.now texts.now index before) result engine.old engine.new }
{
    engine.insert_before(conn, table, cells, texts, index, before)
}

/// Adds the record that cells are to a table, in a sequenced index directly before the record of an id, and tells its id.
#[unsafe(no_mangle)]
pub unsafe extern "C" fn weltiyo_insert_before(
    at: *mut u8,
    conn: u64,
    table: usize,
    cells: &[Cell],
    texts: &[u8],
    index: usize,
    before: u64,
) -> CallResult
    ghost engine: { EngineState }
    requires* { sem 𝓛 (engine_at at engine) }
    ensures* { sem 𝓛 (fex EngineState (λ new. fex (Tells conn (call.insert_before table cells.now texts.now index before)
        result engine new) (λ _. engine_at at new))) }
{
    inserted_before(
        &mut *(at as *mut Engine),
        conn,
        table,
        cells,
        texts,
        index,
        before,
    )
}

/// Changes columns of a record.
fn modified(
    engine: &mut Engine,
    conn: u64,
    table: usize,
    id: u64,
    edits: &[EditCell],
    texts: &[u8],
    rollback: u32,
) -> CallResult
    ensures { Tells conn (call.modify table id edits.now texts.now (not (rollback == 0))) result engine.old engine.new }
{
    engine.modify(conn, table, id, edits, texts, rollback != 0)
}

/// Changes columns of a record, each by an edit of its own; `rollback` is 0 where a conflict erases the record, and any other number where it
/// changes nothing.
#[unsafe(no_mangle)]
pub unsafe extern "C" fn weltiyo_modify(
    at: *mut u8,
    conn: u64,
    table: usize,
    id: u64,
    edits: &[EditCell],
    texts: &[u8],
    rollback: u32,
) -> CallResult
    ghost engine: { EngineState }
    requires* { sem 𝓛 (engine_at at engine) }
    ensures* { sem 𝓛 (fex EngineState (λ new. fex (Tells conn (call.modify table id edits.now texts.now (not (rollback == 0)))
        result engine new) (λ _. engine_at at new))) }
{
    modified(
        &mut *(at as *mut Engine),
        conn,
        table,
        id,
        edits,
        texts,
        rollback,
    )
}

/// Erases the records of a whole key, and tells how many.
fn erased_by_key(
    engine: &mut Engine,
    conn: u64,
    table: usize,
    index: usize,
    key: &[Cell],
    texts: &[u8],
) -> CallResult
    ensures { Tells conn (call.erase_key table index key.now texts.now) result engine.old engine.new }
{
    engine.erase_key(conn, table, index, key, texts)
}

/// Erases the records of a whole key, and tells how many.
#[unsafe(no_mangle)]
pub unsafe extern "C" fn weltiyo_erase_key(
    at: *mut u8,
    conn: u64,
    table: usize,
    index: usize,
    key: &[Cell],
    texts: &[u8],
) -> CallResult
    ghost engine: { EngineState }
    requires* { sem 𝓛 (engine_at at engine) }
    ensures* { sem 𝓛 (fex EngineState (λ new. fex (Tells conn (call.erase_key table index key.now texts.now) result engine new)
        (λ _. engine_at at new))) }
{
    erased_by_key(&mut *(at as *mut Engine), conn, table, index, key, texts)
}

/// Moves a record in a sequenced index.
fn relocated(
    engine: &mut Engine,
    conn: u64,
    table: usize,
    index: usize,
    id: u64,
    has_before: u32,
    before: u64,
) -> CallResult
    ensures { Tells conn (call.relocate table index id (optional_id has_before before)) result engine.old engine.new }
{
    engine.relocate(conn, table, index, id, optional_id(has_before, before))
}

/// Moves a record in a sequenced index directly before the record `before`, or where `has_before` is 0 to its end.
#[unsafe(no_mangle)]
pub unsafe extern "C" fn weltiyo_relocate(
    at: *mut u8,
    conn: u64,
    table: usize,
    index: usize,
    id: u64,
    has_before: u32,
    before: u64,
) -> CallResult
    ghost engine: { EngineState }
    requires* { sem 𝓛 (engine_at at engine) }
    ensures* { sem 𝓛 (fex EngineState (λ new. fex (Tells conn (call.relocate table index id (optional_id has_before before))
        result engine new) (λ _. engine_at at new))) }
{
    relocated(
        &mut *(at as *mut Engine),
        conn,
        table,
        index,
        id,
        has_before,
        before,
    )
}

/// Undoes every open session, and tells how many.
fn all_undone(engine: &mut Engine, conn: u64) -> CallResult
    ensures { Tells conn call.undo_all result engine.old engine.new }
{
    engine.undo_all(conn)
}

/// Undoes every open session, and tells how many. It takes no memory.
#[unsafe(no_mangle)]
pub unsafe extern "C" fn weltiyo_undo_all(at: *mut u8, conn: u64) -> CallResult
    ghost engine: { EngineState }
    requires* { sem 𝓛 (engine_at at engine) }
    ensures* { sem 𝓛 (fex EngineState (λ new. fex (Tells conn call.undo_all result engine new) (λ _. engine_at at new))) }
{
    all_undone(&mut *(at as *mut Engine), conn)
}

/// Lets go of the sessions of a connection, and tells how many.
fn pushed(engine: &mut Engine, conn: u64) -> CallResult
    ensures { Tells conn call.push result engine.old engine.new }
{
    engine.push(conn)
}

/// Lets go of the sessions that the connection holds, which stay open, and tells how many. It takes no memory.
#[unsafe(no_mangle)]
pub unsafe extern "C" fn weltiyo_push(at: *mut u8, conn: u64) -> CallResult
    ghost engine: { EngineState }
    requires* { sem 𝓛 (engine_at at engine) }
    ensures* { sem 𝓛 (fex EngineState (λ new. fex (Tells conn call.push result engine new) (λ _. engine_at at new))) }
{
    pushed(&mut *(at as *mut Engine), conn)
}
