//! The database for programs that aren't Rattle. Each export is one safe call of `mi_embed`, and states what that call does to the engine at
//! the handle. What a caller owes stands in `clients/c/weltiyo.h`.
#![tactic(auto)]

ghost use Rattle.std.specs.Prelude.{◌≡◌, ℕ, Ok, Err, MatchResult, length};
ghost use types.Logic.{sem};
ghost use base.Fml.{fex};
ghost use Rattle.mi_commands.specs.Holder.{released};
ghost use Rattle.mi_embed.specs.Opening.{IsOpened};
ghost use Rattle.mi_embed.specs.State.{EngineState, Answers, IsCopied};
ghost use Rattle.weltiyo.specs.Handle.{engine_at, engine_where, TellsOpening};

mod cursors;
mod look_ups;
mod names;
mod opened;
mod optional_id;
mod pages;
mod raw_box;
mod typed;

use mi_embed::{Engine, OpenFault};
use opened::Opened;
use raw_box::RawBox;
use std::alloc::Global;

/// The engine that a schema's text opens, at an address of its own.
fn boxed(alloc: Global, schema: &[u8], secret: u64) -> Result<Box<Engine>, OpenFault>
    ensures { MatchResult result (λ b. IsOpened schema.now (Ok b.value)) (λ fault. IsOpened schema.now (Err fault)) }
{
    let engine = Engine::open(alloc, schema, secret)?;
    Ok(Box::new(alloc, engine)?)
}

/// What opening a schema's text gives.
fn open_engine(alloc: Global, schema: &[u8], secret: u64) -> Opened
    ensures { TellsOpening schema.now result.status result.engine }
{
    match boxed(alloc, schema, secret) {
        Ok(made) => Opened::of(RawBox::of(made)),
        Err(fault) => Opened::none(fault.status()),
    }
}

/// Opens the tables of a schema's text, and answers its status. Where that is 0 the handle is written to `out`, and else null.
#[unsafe(no_mangle)]
pub extern "C" fn weltiyo_open(alloc: Global, schema: &[u8], secret: u64, out: &mut *mut u8) -> u32
    ensures* { sem 𝓛 (fex EngineState (λ engine. fex (TellsOpening schema.now result engine) (λ _. engine_where result out.new engine))) }
{
    let Opened { at, status } = open_engine(alloc, schema, secret);
    *out = at as *mut u8;
    status
}

/// Answers a line, and says how long its reply is.
fn answered(engine: &mut Engine, conn: u64, line: &[u8]) -> usize
    ensures is { Answers conn engine.old line.now engine.new }
    ensures long { result ≡ length engine.new.reply }
{
    engine.execute(conn, line)
}

/// Answers a line of a connection, and answers the length of its reply, which stays until the next line.
#[unsafe(no_mangle)]
pub unsafe extern "C" fn weltiyo_execute(at: *mut u8, conn: u64, line: &[u8]) -> usize
    ghost engine: { EngineState }
    requires* { sem 𝓛 (engine_at at engine) }
    ensures* { sem 𝓛 (fex EngineState (λ new. fex ((Answers conn engine line.now new) × (result ≡ length new.reply))
        (λ _. engine_at at new))) }
{
    answered(&mut *(at as *mut Engine), conn, line)
}

/// Copies the reply from this byte on, as much as there is room for, and says how many bytes.
fn copied(engine: &mut Engine, from: usize, out: &mut [u8]) -> usize
    ensures same { engine.new ≡ engine.old }
    ensures copied { IsCopied engine.old.reply from out.old out.new result }
{
    engine.copy_reply(from, out)
}

/// Copies the reply to the last line from this byte on, as much as there is room for, and answers how many bytes.
#[unsafe(no_mangle)]
pub unsafe extern "C" fn weltiyo_reply(at: *mut u8, from: usize, out: &mut [u8]) -> usize
    ghost engine: { EngineState }
    requires* { sem 𝓛 (engine_at at engine) }
    ensures* { sem 𝓛 (engine_at at engine) ∗ ⌜ IsCopied engine.reply from out.old out.new result ⌝ }
{
    copied(&mut *(at as *mut Engine), from, out)
}

/// Answers a line, copies as much of its reply as there is room for, and says how long the whole reply is.
fn asked(engine: &mut Engine, conn: u64, line: &[u8], out: &mut [u8]) -> usize
    ensures is { Answers conn engine.old line.now engine.new }
    ensures long { result ≡ length engine.new.reply }
    ensures copied { (count : ℕ) × IsCopied engine.new.reply 0 out.old out.new count }
{
    engine.ask(conn, line, out)
}

/// Answers a line of a connection, copies as much of its reply as there is room for, and answers the length of the whole reply.
#[unsafe(no_mangle)]
pub unsafe extern "C" fn weltiyo_ask(at: *mut u8, conn: u64, line: &[u8], out: &mut [u8]) -> usize
    ghost engine: { EngineState }
    requires* { sem 𝓛 (engine_at at engine) }
    ensures* { sem 𝓛 (fex EngineState (λ new. fex ((Answers conn engine line.now new) × (result ≡ length new.reply)
        × ((count : ℕ) × IsCopied new.reply 0 out.old out.new count))
        (λ _. engine_at at new))) }
{
    asked(&mut *(at as *mut Engine), conn, line, out)
}

/// Lets go of a connection.
fn let_go(engine: &mut Engine, conn: u64)
    ensures { engine.new ≡ record { held = released conn engine.old.held; reply = engine.old.reply; schema = engine.old.schema } }
{
    engine.release(conn);
}

/// A connection goes away: the sessions that it holds are undone. It takes no memory.
#[unsafe(no_mangle)]
pub unsafe extern "C" fn weltiyo_release(at: *mut u8, conn: u64)
    ghost engine: { EngineState }
    requires* { sem 𝓛 (engine_at at engine) }
    ensures* { sem 𝓛 (engine_at at (record { held = released conn engine.held; reply = engine.reply; schema = engine.schema })) }
{
    let_go(&mut *(at as *mut Engine), conn);
}

/// The engine is let go of.
fn freed(raw_box: RawBox<Engine, Global>) {
    let _whole = raw_box.into_box();
}

/// Frees all that an engine holds, and its block.
#[unsafe(no_mangle)]
pub unsafe extern "C" fn weltiyo_close(alloc: Global, at: *mut u8)
    ghost engine: { EngineState }
    requires* { sem 𝓛 (engine_at at engine) }
{
    freed(RawBox {
        at: at as *mut Engine,
        alloc,
    });
}
