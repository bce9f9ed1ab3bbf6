//! Tables, indexes and columns by their names, and the text that names them all. They leave the engine as it is; what is told of each is
//! `mi_embed`'s.
ghost use Rattle.std.specs.Prelude.{◌≡◌, Ok};
ghost use types.Logic.{sem};
ghost use Rattle.mi_embed.specs.State.{EngineState};
ghost use Rattle.mi_embed.specs.CallResults.{number_told};
ghost use Rattle.mi_embed.specs.Cursors.{TellsText};
ghost use Rattle.mi_embed.specs.Named as meaning;
ghost use Rattle.weltiyo.specs.Handle.{engine_at};

use mi_embed::{CallResult, Engine};

/// Tells the number of the table of a name.
fn table_named(engine: &mut Engine, name: &[u8]) -> CallResult
    ensures same { engine.new ≡ engine.old }
    ensures told { result ≡ number_told (meaning.table_named engine.old.held name.now) }
{
    CallResult::number(engine.table_named(name))
}

/// Tells the number of the table of a name.
#[unsafe(no_mangle)]
pub unsafe extern "C" fn weltiyo_table(at: *mut u8, name: &[u8]) -> CallResult
    ghost engine: { EngineState }
    requires* { sem 𝓛 (engine_at at engine) }
    ensures* { sem 𝓛 (engine_at at engine) ∗ ⌜ result ≡ number_told (meaning.table_named engine.held name.now) ⌝ }
{
    table_named(&mut *(at as *mut Engine), name)
}

/// Tells the number of the index of a name.
fn index_named(engine: &mut Engine, table: usize, name: &[u8]) -> CallResult
    ensures same { engine.new ≡ engine.old }
    ensures told { result ≡ number_told (meaning.index_named engine.old.held table name.now) }
{
    CallResult::number(engine.index_named(table, name))
}

/// Tells the number of the index of a name.
#[unsafe(no_mangle)]
pub unsafe extern "C" fn weltiyo_index(at: *mut u8, table: usize, name: &[u8]) -> CallResult
    ghost engine: { EngineState }
    requires* { sem 𝓛 (engine_at at engine) }
    ensures* { sem 𝓛 (engine_at at engine) ∗ ⌜ result ≡ number_told (meaning.index_named engine.held table name.now) ⌝ }
{
    index_named(&mut *(at as *mut Engine), table, name)
}

/// Tells the number of the column of a name.
fn column_named(engine: &mut Engine, table: usize, name: &[u8]) -> CallResult
    ensures same { engine.new ≡ engine.old }
    ensures told { result ≡ number_told (meaning.column_named engine.old.held table name.now) }
{
    CallResult::number(engine.column_named(table, name))
}

/// Tells the number of the column of a name.
#[unsafe(no_mangle)]
pub unsafe extern "C" fn weltiyo_column(at: *mut u8, table: usize, name: &[u8]) -> CallResult
    ghost engine: { EngineState }
    requires* { sem 𝓛 (engine_at at engine) }
    ensures* { sem 𝓛 (engine_at at engine) ∗ ⌜ result ≡ number_told (meaning.column_named engine.held table name.now) ⌝ }
{
    column_named(&mut *(at as *mut Engine), table, name)
}

/// Copies the text of the schema.
fn schema_copied(engine: &mut Engine, out: &mut [u8]) -> CallResult
    ensures same { engine.new ≡ engine.old }
    ensures text { TellsText (Ok engine.old.schema) result out.old out.new }
{
    engine.copy_schema(out)
}

/// Copies the text of the schema where there is room for all of it, and tells its length.
#[unsafe(no_mangle)]
pub unsafe extern "C" fn weltiyo_schema(at: *mut u8, out: &mut [u8]) -> CallResult
    ghost engine: { EngineState }
    requires* { sem 𝓛 (engine_at at engine) }
    ensures* { sem 𝓛 (engine_at at engine) ∗ ⌜ TellsText (Ok engine.schema) result out.old out.new ⌝ }
{
    schema_copied(&mut *(at as *mut Engine), out)
}
