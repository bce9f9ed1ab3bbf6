//! Cursors: an id under an index is found and stepped from, and a record is read a column at a time. They leave the engine as it is; what is told of
//! each is `mi_embed`'s.
ghost use Rattle.std.specs.Prelude.{◌≡◌, ◌==◌, not};
ghost use types.Logic.{sem};
ghost use Rattle.mi_embed.specs.State.{EngineState};
ghost use Rattle.mi_embed.specs.CallResults.{number_told};
ghost use Rattle.mi_embed.specs.Cursors as cursor;
ghost use Rattle.mi_embed.specs.Cursors.{cursor_told, field_of, TellsCursor, TellsText};
ghost use Rattle.weltiyo.specs.Handle.{engine_at};

use mi_embed::{CallResult, Cell, Engine, Field};

/// Tells the first id of a key.
fn id_found(
    engine: &mut Engine,
    table: usize,
    index: usize,
    key: &[Cell],
    texts: &[u8],
) -> CallResult
    ensures same { engine.new ≡ engine.old }
    ensures told { TellsCursor key.now (cursor.find_id_by engine.old.held.database table index key.now texts.now) result }
{
    CallResult::cursor(engine.find_id(table, index, key, texts))
}

/// Tells the first id of a key, or in an ordered or ranked index of the first values of one.
#[unsafe(no_mangle)]
pub unsafe extern "C" fn weltiyo_find_id(
    at: *mut u8,
    table: usize,
    index: usize,
    key: &[Cell],
    texts: &[u8],
) -> CallResult
    ghost engine: { EngineState }
    requires* { sem 𝓛 (engine_at at engine) }
    ensures* { sem 𝓛 (engine_at at engine) ∗ ⌜ TellsCursor key.now (cursor.find_id_by engine.held.database table index key.now texts.now) result ⌝ }
{
    id_found(&mut *(at as *mut Engine), table, index, key, texts)
}

/// Tells where a key begins, or what stands behind it.
fn sought(
    engine: &mut Engine,
    table: usize,
    index: usize,
    key: &[Cell],
    texts: &[u8],
    beyond: u32,
) -> CallResult
    ensures same { engine.new ≡ engine.old }
    ensures told { TellsCursor key.now (cursor.seek_by engine.old.held.database table index key.now texts.now (not (beyond == 0))) result }
{
    CallResult::cursor(engine.seek_id(table, index, key, texts, beyond != 0))
}

/// Tells the first id of an ordered or ranked index whose key isn't less than a key or the first values of one, or with `beyond` is greater.
#[unsafe(no_mangle)]
pub unsafe extern "C" fn weltiyo_seek_id(
    at: *mut u8,
    table: usize,
    index: usize,
    key: &[Cell],
    texts: &[u8],
    beyond: u32,
) -> CallResult
    ghost engine: { EngineState }
    requires* { sem 𝓛 (engine_at at engine) }
    ensures* { sem 𝓛 (engine_at at engine) ∗
        ⌜ TellsCursor key.now (cursor.seek_by engine.held.database table index key.now texts.now (not (beyond == 0))) result ⌝ }
{
    sought(&mut *(at as *mut Engine), table, index, key, texts, beyond)
}

/// Tells the first id that an index shows.
fn first_of(engine: &mut Engine, table: usize, index: usize) -> CallResult
    ensures same { engine.new ≡ engine.old }
    ensures told { result ≡ cursor_told (cursor.first_by engine.old.held.database table index) }
{
    CallResult::cursor(engine.first_id(table, index))
}

/// Tells the first id that any index but a hashed one shows.
#[unsafe(no_mangle)]
pub unsafe extern "C" fn weltiyo_first_id(at: *mut u8, table: usize, index: usize) -> CallResult
    ghost engine: { EngineState }
    requires* { sem 𝓛 (engine_at at engine) }
    ensures* { sem 𝓛 (engine_at at engine) ∗ ⌜ result ≡ cursor_told (cursor.first_by engine.held.database table index) ⌝ }
{
    first_of(&mut *(at as *mut Engine), table, index)
}

/// Tells the last id that an index shows.
fn last_of(engine: &mut Engine, table: usize, index: usize) -> CallResult
    ensures same { engine.new ≡ engine.old }
    ensures told { result ≡ cursor_told (cursor.last_by engine.old.held.database table index) }
{
    CallResult::cursor(engine.last_id(table, index))
}

/// Tells the last id that any index but a hashed one shows.
#[unsafe(no_mangle)]
pub unsafe extern "C" fn weltiyo_last_id(at: *mut u8, table: usize, index: usize) -> CallResult
    ghost engine: { EngineState }
    requires* { sem 𝓛 (engine_at at engine) }
    ensures* { sem 𝓛 (engine_at at engine) ∗ ⌜ result ≡ cursor_told (cursor.last_by engine.held.database table index) ⌝ }
{
    last_of(&mut *(at as *mut Engine), table, index)
}

/// Tells the id of a rank.
fn id_ranked(engine: &mut Engine, table: usize, index: usize, n: u64) -> CallResult
    ensures same { engine.new ≡ engine.old }
    ensures told { result ≡ cursor_told (cursor.at_rank_by engine.old.held.database table index n) }
{
    CallResult::cursor(engine.id_at_rank(table, index, n))
}

/// Tells the id with n records before it in a ranked index.
#[unsafe(no_mangle)]
pub unsafe extern "C" fn weltiyo_at_rank_id(
    at: *mut u8,
    table: usize,
    index: usize,
    n: u64,
) -> CallResult
    ghost engine: { EngineState }
    requires* { sem 𝓛 (engine_at at engine) }
    ensures* { sem 𝓛 (engine_at at engine) ∗ ⌜ result ≡ cursor_told (cursor.at_rank_by engine.held.database table index n) ⌝ }
{
    id_ranked(&mut *(at as *mut Engine), table, index, n)
}

/// Tells the id behind one, or before it.
fn stepped(engine: &mut Engine, table: usize, index: usize, id: u64, back: u32) -> CallResult
    ensures same { engine.new ≡ engine.old }
    ensures told { result ≡ cursor_told (cursor.step_by engine.old.held.database table index id (not (back == 0))) }
{
    CallResult::cursor(engine.step_id(table, index, id, back != 0))
}

/// Tells the id that any index but a hashed one shows directly behind another, or with `back` before it.
#[unsafe(no_mangle)]
pub unsafe extern "C" fn weltiyo_step_id(
    at: *mut u8,
    table: usize,
    index: usize,
    id: u64,
    back: u32,
) -> CallResult
    ghost engine: { EngineState }
    requires* { sem 𝓛 (engine_at at engine) }
    ensures* { sem 𝓛 (engine_at at engine) ∗ ⌜ result ≡ cursor_told (cursor.step_by engine.held.database table index id (not (back == 0))) ⌝ }
{
    stepped(&mut *(at as *mut Engine), table, index, id, back)
}

/// Tells an id, if its record is there.
fn there(engine: &mut Engine, table: usize, id: u64) -> CallResult
    ensures same { engine.new ≡ engine.old }
    ensures told { result ≡ number_told (cursor.there_by engine.old.held.database table id) }
{
    CallResult::number(engine.there(table, id))
}

/// Tells an id, if its record is there.
#[unsafe(no_mangle)]
pub unsafe extern "C" fn weltiyo_has_id(at: *mut u8, table: usize, id: u64) -> CallResult
    ghost engine: { EngineState }
    requires* { sem 𝓛 (engine_at at engine) }
    ensures* { sem 𝓛 (engine_at at engine) ∗ ⌜ result ≡ number_told (cursor.there_by engine.held.database table id) ⌝ }
{
    there(&mut *(at as *mut Engine), table, id)
}

/// Reads one column of a record.
fn field_read(engine: &mut Engine, table: usize, id: u64, column: usize) -> Field
    ensures same { engine.new ≡ engine.old }
    ensures field { result ≡ field_of (cursor.column_by engine.old.held.database table id column) }
{
    engine.field(table, id, column)
}

/// Reads one column of a record: its kind, and its number where it is one.
#[unsafe(no_mangle)]
pub unsafe extern "C" fn weltiyo_field_of(
    at: *mut u8,
    table: usize,
    id: u64,
    column: usize,
) -> Field
    ghost engine: { EngineState }
    requires* { sem 𝓛 (engine_at at engine) }
    ensures* { sem 𝓛 (engine_at at engine) ∗ ⌜ result ≡ field_of (cursor.column_by engine.held.database table id column) ⌝ }
{
    field_read(&mut *(at as *mut Engine), table, id, column)
}

/// Copies the text of a column.
fn text_copied(
    engine: &mut Engine,
    table: usize,
    id: u64,
    column: usize,
    out: &mut [u8],
) -> CallResult
    ensures same { engine.new ≡ engine.old }
    ensures text { TellsText (cursor.text_by engine.old.held.database table id column) result out.old out.new }
{
    engine.copy_text(table, id, column, out)
}

/// Copies the text of a column where there is room for all of it, and tells its length.
#[unsafe(no_mangle)]
pub unsafe extern "C" fn weltiyo_text_in(
    at: *mut u8,
    table: usize,
    id: u64,
    column: usize,
    out: &mut [u8],
) -> CallResult
    ghost engine: { EngineState }
    requires* { sem 𝓛 (engine_at at engine) }
    ensures* { sem 𝓛 (engine_at at engine) ∗ ⌜ TellsText (cursor.text_by engine.held.database table id column) result out.old out.new ⌝ }
{
    text_copied(&mut *(at as *mut Engine), table, id, column, out)
}

/// Copies the name of an index.
fn name_copied(engine: &mut Engine, table: usize, index: usize, out: &mut [u8]) -> CallResult
    ensures same { engine.new ≡ engine.old }
    ensures name { TellsText (cursor.index_name_by engine.old.held.database.catalog table index) result out.old out.new }
{
    engine.copy_index_name(table, index, out)
}

/// Copies the name of an index where there is room for all of it, and tells its length.
#[unsafe(no_mangle)]
pub unsafe extern "C" fn weltiyo_index_name(
    at: *mut u8,
    table: usize,
    index: usize,
    out: &mut [u8],
) -> CallResult
    ghost engine: { EngineState }
    requires* { sem 𝓛 (engine_at at engine) }
    ensures* { sem 𝓛 (engine_at at engine) ∗ ⌜ TellsText (cursor.index_name_by engine.held.database.catalog table index) result out.old out.new ⌝ }
{
    name_copied(&mut *(at as *mut Engine), table, index, out)
}
