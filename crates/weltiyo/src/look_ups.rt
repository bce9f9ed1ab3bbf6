//! The look-ups with values in place of a line. They leave the engine as it is; what is told of each is `mi_embed`'s.
ghost use Rattle.std.specs.Prelude.{◌≡◌};
ghost use types.Logic.{sem};
ghost use Rattle.mi_embed.specs.State.{EngineState};
ghost use Rattle.mi_embed.specs.CallResults.{number_told};
ghost use Rattle.mi_embed.specs.LookUps as look;
ghost use Rattle.mi_embed.specs.LookUps.{TellsNumber, TellsFound, MayTellFound};
ghost use Rattle.weltiyo.specs.Handle.{engine_at};

use mi_embed::{CallResult, Cell, Engine};

/// Tells how many records a table has.
fn sized(engine: &mut Engine, table: usize) -> CallResult
    ensures same { engine.new ≡ engine.old }
    ensures told { result ≡ number_told (look.size_by engine.old.held table) }
{
    CallResult::number(engine.size(table))
}

/// Tells how many records a table has.
#[unsafe(no_mangle)]
pub unsafe extern "C" fn weltiyo_size(at: *mut u8, table: usize) -> CallResult
    ghost engine: { EngineState }
    requires* { sem 𝓛 (engine_at at engine) }
    ensures* { sem 𝓛 (engine_at at engine) ∗ ⌜ result ≡ number_told (look.size_by engine.held table) ⌝ }
{
    sized(&mut *(at as *mut Engine), table)
}

/// Tells how many records have a key.
fn counted(
    engine: &mut Engine,
    table: usize,
    index: usize,
    key: &[Cell],
    texts: &[u8],
) -> CallResult
    ensures same { engine.new ≡ engine.old }
    ensures told { TellsNumber (look.count_by engine.old.held table index key.now texts.now) result }
{
    CallResult::number(engine.count(table, index, key, texts))
}

/// Tells how many records have a key, or in an ordered or ranked index the first values of one.
#[unsafe(no_mangle)]
pub unsafe extern "C" fn weltiyo_count(
    at: *mut u8,
    table: usize,
    index: usize,
    key: &[Cell],
    texts: &[u8],
) -> CallResult
    ghost engine: { EngineState }
    requires* { sem 𝓛 (engine_at at engine) }
    ensures* { sem 𝓛 (engine_at at engine) ∗ ⌜ TellsNumber (look.count_by engine.held table index key.now texts.now) result ⌝ }
{
    counted(&mut *(at as *mut Engine), table, index, key, texts)
}

/// Tells how many records stand before one.
fn ranked(engine: &mut Engine, table: usize, index: usize, id: u64) -> CallResult
    ensures same { engine.new ≡ engine.old }
    ensures told { result ≡ number_told (look.rank_by engine.old.held table index id) }
{
    CallResult::number(engine.rank(table, index, id))
}

/// Tells how many records stand before one in a ranked index.
#[unsafe(no_mangle)]
pub unsafe extern "C" fn weltiyo_rank(
    at: *mut u8,
    table: usize,
    index: usize,
    id: u64,
) -> CallResult
    ghost engine: { EngineState }
    requires* { sem 𝓛 (engine_at at engine) }
    ensures* { sem 𝓛 (engine_at at engine) ∗ ⌜ result ≡ number_told (look.rank_by engine.held table index id) ⌝ }
{
    ranked(&mut *(at as *mut Engine), table, index, id)
}

/// Tells how many keys are less than a key.
fn ranked_below(
    engine: &mut Engine,
    table: usize,
    index: usize,
    key: &[Cell],
    texts: &[u8],
) -> CallResult
    ensures same { engine.new ≡ engine.old }
    ensures told { TellsNumber (look.lower_rank_by engine.old.held table index key.now texts.now) result }
{
    CallResult::number(engine.lower_rank(table, index, key, texts))
}

/// Tells how many keys of a ranked index are less than a key or the first values of one.
#[unsafe(no_mangle)]
pub unsafe extern "C" fn weltiyo_lower_rank(
    at: *mut u8,
    table: usize,
    index: usize,
    key: &[Cell],
    texts: &[u8],
) -> CallResult
    ghost engine: { EngineState }
    requires* { sem 𝓛 (engine_at at engine) }
    ensures* { sem 𝓛 (engine_at at engine) ∗ ⌜ TellsNumber (look.lower_rank_by engine.held table index key.now texts.now) result ⌝ }
{
    ranked_below(&mut *(at as *mut Engine), table, index, key, texts)
}

/// Tells how many keys are not greater than a key.
fn ranked_up_to(
    engine: &mut Engine,
    table: usize,
    index: usize,
    key: &[Cell],
    texts: &[u8],
) -> CallResult
    ensures same { engine.new ≡ engine.old }
    ensures told { TellsNumber (look.upper_rank_by engine.old.held table index key.now texts.now) result }
{
    CallResult::number(engine.upper_rank(table, index, key, texts))
}

/// Tells how many keys of a ranked index are not greater than a key or the first values of one.
#[unsafe(no_mangle)]
pub unsafe extern "C" fn weltiyo_upper_rank(
    at: *mut u8,
    table: usize,
    index: usize,
    key: &[Cell],
    texts: &[u8],
) -> CallResult
    ghost engine: { EngineState }
    requires* { sem 𝓛 (engine_at at engine) }
    ensures* { sem 𝓛 (engine_at at engine) ∗ ⌜ TellsNumber (look.upper_rank_by engine.held table index key.now texts.now) result ⌝ }
{
    ranked_up_to(&mut *(at as *mut Engine), table, index, key, texts)
}

/// Puts the first record of a key into cells and bytes, and tells its id.
fn found(
    engine: &mut Engine,
    table: usize,
    index: usize,
    key: &[Cell],
    key_texts: &[u8],
    cells: &mut [Cell],
    texts: &mut [u8],
) -> CallResult
    ensures same { engine.new ≡ engine.old }
    ensures told { MayTellFound (look.find_by engine.old.held table index key.now key_texts.now) result cells.old cells.new texts.old texts.new }
{
    engine.find(table, index, key, key_texts, cells, texts)
}

/// Puts the first record of a key, or in an ordered or ranked index of the first values of one, into cells and bytes, and tells its id.
#[unsafe(no_mangle)]
pub unsafe extern "C" fn weltiyo_find(
    at: *mut u8,
    table: usize,
    index: usize,
    key: &[Cell],
    key_texts: &[u8],
    cells: &mut [Cell],
    texts: &mut [u8],
) -> CallResult
    ghost engine: { EngineState }
    requires* { sem 𝓛 (engine_at at engine) }
    ensures* { sem 𝓛 (engine_at at engine) ∗ ⌜ MayTellFound (look.find_by engine.held table index key.now key_texts.now)
        result cells.old cells.new texts.old texts.new ⌝ }
{
    found(
        &mut *(at as *mut Engine),
        table,
        index,
        key,
        key_texts,
        cells,
        texts,
    )
}

/// Puts the record of a rank into cells and bytes, and tells its id.
fn at_rank(
    engine: &mut Engine,
    table: usize,
    index: usize,
    n: u64,
    cells: &mut [Cell],
    texts: &mut [u8],
) -> CallResult
    ensures same { engine.new ≡ engine.old }
    ensures told { TellsFound (look.nth_by engine.old.held table index n) result cells.old cells.new texts.old texts.new }
{
    engine.nth(table, index, n, cells, texts)
}

/// Puts the record with n records before it in a ranked index into cells and bytes, and tells its id.
#[unsafe(no_mangle)]
pub unsafe extern "C" fn weltiyo_nth(
    at: *mut u8,
    table: usize,
    index: usize,
    n: u64,
    cells: &mut [Cell],
    texts: &mut [u8],
) -> CallResult
    ghost engine: { EngineState }
    requires* { sem 𝓛 (engine_at at engine) }
    ensures* { sem 𝓛 (engine_at at engine) ∗ ⌜ TellsFound (look.nth_by engine.held table index n) result cells.old cells.new texts.old texts.new ⌝ }
{
    at_rank(&mut *(at as *mut Engine), table, index, n, cells, texts)
}
