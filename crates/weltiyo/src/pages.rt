//! Pages of ranges and lists with values in place of a line. They leave the engine as it is; what is told of each is `mi_embed`'s.
ghost use Rattle.std.specs.Prelude.{◌≡◌, ◌==◌, not};
ghost use types.Logic.{sem};
ghost use Rattle.mi_embed.specs.State.{EngineState};
ghost use Rattle.mi_embed.specs.Pages as pages;
ghost use Rattle.mi_embed.specs.Pages.{page_limit, MayTellPage};
ghost use Rattle.weltiyo.specs.OptionalId.{optional_id};
ghost use Rattle.weltiyo.specs.Handle.{engine_at};

use crate::optional_id::optional_id;
use mi_embed::{CallResult, Cell, End, Engine};

/// Puts the rows between two bounds into ids, cells and bytes, and tells how many they are.
fn ranged(
    engine: &mut Engine,
    table: usize,
    index: usize,
    lower: u32,
    lower_key: &[Cell],
    upper: u32,
    upper_key: &[Cell],
    key_texts: &[u8],
    reverse: u32,
    ids: &mut [u64],
    cells: &mut [Cell],
    texts: &mut [u8],
) -> CallResult
    ensures same { engine.new ≡ engine.old }
    ensures told { MayTellPage (pages.range_by engine.old.held table index lower lower_key.now upper upper_key.now
        key_texts.now (not (reverse == 0)) (page_limit ids.old))
        result ids.old ids.new cells.old cells.new texts.old texts.new }
{
    let lower = End {
        kind: lower,
        key: lower_key,
    };
    let upper = End {
        kind: upper,
        key: upper_key,
    };
    let reverse = reverse != 0;
    engine.range(
        table, index, lower, upper, key_texts, reverse, ids, cells, texts,
    )
}

/// Puts the rows between two bounds of an ordered or ranked index into ids, cells and bytes, and tells how many they are and whether others
/// remain. An end is open (0), at its key (1) or beyond it (2). `reverse` is 0 for the order of the index, and any other number for the reverse.
#[unsafe(no_mangle)]
pub unsafe extern "C" fn weltiyo_range(
    at: *mut u8,
    table: usize,
    index: usize,
    lower: u32,
    lower_key: &[Cell],
    upper: u32,
    upper_key: &[Cell],
    key_texts: &[u8],
    reverse: u32,
    ids: &mut [u64],
    cells: &mut [Cell],
    texts: &mut [u8],
) -> CallResult
    ghost engine: { EngineState }
    requires* { sem 𝓛 (engine_at at engine) }
    ensures* { sem 𝓛 (engine_at at engine) ∗ ⌜ MayTellPage (pages.range_by engine.held table index lower lower_key.now upper upper_key.now
        key_texts.now (not (reverse == 0)) (page_limit ids.old))
        result ids.old ids.new cells.old cells.new texts.old texts.new ⌝ }
{
    ranged(
        &mut *(at as *mut Engine),
        table,
        index,
        lower,
        lower_key,
        upper,
        upper_key,
        key_texts,
        reverse,
        ids,
        cells,
        texts,
    )
}

/// Puts the rows of a sequenced index into ids, cells and bytes, and tells how many they are.
fn listed(
    engine: &mut Engine,
    table: usize,
    index: usize,
    has_after: u32,
    after: u64,
    ids: &mut [u64],
    cells: &mut [Cell],
    texts: &mut [u8],
) -> CallResult
    ensures same { engine.new ≡ engine.old }
    ensures told { MayTellPage (pages.list_by engine.old.held table index (optional_id has_after after) (page_limit ids.old))
        result ids.old ids.new cells.old cells.new texts.old texts.new }
{
    engine.list(
        table,
        index,
        optional_id(has_after, after),
        ids,
        cells,
        texts,
    )
}

/// Puts the rows of a sequenced index behind the record `after` into ids, cells and bytes, and tells how many they are and whether others
/// remain. Where `has_after` is 0 they are from the first on.
#[unsafe(no_mangle)]
pub unsafe extern "C" fn weltiyo_list(
    at: *mut u8,
    table: usize,
    index: usize,
    has_after: u32,
    after: u64,
    ids: &mut [u64],
    cells: &mut [Cell],
    texts: &mut [u8],
) -> CallResult
    ghost engine: { EngineState }
    requires* { sem 𝓛 (engine_at at engine) }
    ensures* { sem 𝓛 (engine_at at engine) ∗ ⌜ MayTellPage (pages.list_by engine.held table index (optional_id has_after after) (page_limit ids.old))
        result ids.old ids.new cells.old cells.new texts.old texts.new ⌝ }
{
    listed(
        &mut *(at as *mut Engine),
        table,
        index,
        has_after,
        after,
        ids,
        cells,
        texts,
    )
}
