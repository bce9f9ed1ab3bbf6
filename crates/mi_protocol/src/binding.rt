//! From a request to a command over a catalog: names of tables and indexes become numbers, a row becomes a record. Each kind of request has
//! a call of its own, so that none is moved with the fields of another.
ghost use Rattle.std.specs.Prelude.{◌≡◌, true, Ok, Err, IfOk, IfErr};
ghost use Rattle.mi_catalog.specs.Shape.{schema_at};
ghost use Rattle.mi_request.specs.Answers.{IsAnswer, NamesNoIndex};
ghost use Rattle.mi_protocol.specs.Binding as binding;
ghost use Rattle.mi_protocol.specs.Binding.{bound_command, binds_without, of_table, FitsCatalog};
ghost use Rattle.mi_request.specs.declared.request.Request.TheVariants as request;
ghost use Rattle.mi_protocol.specs.declared.command.Command.TheVariants as command;

use crate::changes::{Change, change_over};
use crate::command::Command;
use crate::look_ups::{KeyLookUp, NumberLookUp, key_look_up_over, number_look_up_over};
use mi_catalog::{Catalog, Schema};
use mi_request::{ChangeRequest, KeyLookUpRequest, Name, NumberLookUpRequest, Request};
use mi_value::Refusal;
use std::alloc::Global;

/// The number of the table that is named; without a name it is the first. Refusal: `NoTable`.
fn table_number(table: Option<Name>, catalog: &Catalog) -> Result<usize, Refusal>
    ensures { result ≡ binding.table_number catalog.now table.entry }
{
    match table {
        Some(name) => catalog.find_table(name.as_str()).ok_or(Refusal::NoTable),
        None => Ok(0),
    }
}

/// The table that is named, and its number; without a name it is the first. Refusal: `NoTable`.
fn named_table<'a>(
    table: Option<Name>,
    catalog: &'a Catalog,
) -> Result<(usize, &'a Schema), Refusal>
    ensures number { IfOk result (λ t. binding.table_number catalog.now table.entry ≡ Ok t.0) }
    ensures schema { IfOk result (λ t. t.1.now ≡ schema_at catalog.now t.0) }
    ensures refusal { IfErr result (λ e. (e ≡ Refusal.NoTable) × (binding.table_number catalog.now table.entry ≡ Err Refusal.NoTable)) }
{
    catalog.keeps_rules();
    let number = table_number(table, catalog)?;
    Ok((number, catalog.table(number)))
}

/// The number of the table that is named, and the change.
fn named_change(
    alloc: Global,
    table: Option<Name>,
    change: ChangeRequest,
    catalog: &Catalog,
) -> Result<(usize, Change), Refusal>
    ensures { IsAnswer (of_table command.Change result) (bound_command catalog.now (request.Change table.entry change.entry)) }
{
    let (number, schema) = named_table(table, catalog)?;
    let change = change_over(alloc, change, schema)?;
    Ok((number, change))
}

/// The change that is asked over this catalog, and the number of its table. Refusals, in this order: `NoTable`, `Index`, `Kind`, `Row`,
/// `Key`, and `Memory`. What is answered fits the catalog.
pub fn bind_change(
    alloc: Global,
    table: Option<Name>,
    change: ChangeRequest,
    catalog: &Catalog,
) -> Result<(usize, Change), Refusal>
    ensures answer { IsAnswer (of_table command.Change result) (bound_command catalog.now (request.Change table.entry change.entry)) }
    ensures refusal { IfErr result NamesNoIndex }
    ensures fits { IfOk result (λ c. FitsCatalog catalog.now (command.Change c.0 c.1)) }
{
    catalog.keeps_rules();
    named_change(alloc, table, change, catalog)
}

/// The number of the table that is named, and the look-up by numbers.
#[inline(always)]
fn named_number_look_up(
    table: Option<Name>,
    look_up: NumberLookUpRequest,
    catalog: &Catalog,
) -> Result<(usize, NumberLookUp), Refusal>
    ensures { of_table command.NumberLookUp result ≡ bound_command catalog.now (request.NumberLookUp table.entry look_up.entry) }
{
    let (number, schema) = named_table(table, catalog)?;
    let look_up = number_look_up_over(look_up, schema)?;
    Ok((number, look_up))
}

/// The look-up by numbers that is asked over this catalog, and the number of its table. It takes no memory. Refusals, in this order:
/// `NoTable`, `Index` and `Kind`. What is answered fits the catalog. In line its caller has the look-up in registers.
#[inline(always)]
pub fn bind_number_look_up(
    table: Option<Name>,
    look_up: NumberLookUpRequest,
    catalog: &Catalog,
) -> Result<(usize, NumberLookUp), Refusal>
    ensures answer { of_table command.NumberLookUp result ≡ bound_command catalog.now (request.NumberLookUp table.entry look_up.entry) }
    ensures refusal { IfErr result NamesNoIndex }
    ensures fits { IfOk result (λ c. FitsCatalog catalog.now (command.NumberLookUp c.0 c.1)) }
{
    catalog.keeps_rules();
    named_number_look_up(table, look_up, catalog)
}

/// The number of the table that is named, and the look-up by keys.
fn named_key_look_up(
    alloc: Global,
    table: Option<Name>,
    look_up: KeyLookUpRequest,
    catalog: &Catalog,
) -> Result<(usize, KeyLookUp), Refusal>
    ensures { IsAnswer (of_table command.KeyLookUp result) (bound_command catalog.now (request.KeyLookUp table.entry look_up.entry)) }
{
    let (number, schema) = named_table(table, catalog)?;
    let look_up = key_look_up_over(alloc, look_up, schema)?;
    Ok((number, look_up))
}

/// The look-up by keys that is asked over this catalog, and the number of its table. Refusals, in this order: `NoTable`, `Index`, `Kind`,
/// `Key`, and `Memory`. What is answered fits the catalog.
pub fn bind_key_look_up(
    alloc: Global,
    table: Option<Name>,
    look_up: KeyLookUpRequest,
    catalog: &Catalog,
) -> Result<(usize, KeyLookUp), Refusal>
    ensures answer { IsAnswer (of_table command.KeyLookUp result) (bound_command catalog.now (request.KeyLookUp table.entry look_up.entry)) }
    ensures refusal { IfErr result NamesNoIndex }
    ensures fits { IfOk result (λ c. FitsCatalog catalog.now (command.KeyLookUp c.0 c.1)) }
{
    catalog.keeps_rules();
    named_key_look_up(alloc, table, look_up, catalog)
}

/// The command that a request is over this catalog. Refusals, in this order: `NoTable`, `Index`, `Kind`, `Row`, `Key`, and `Memory`. A command
/// that is answered fits the catalog. One over sessions and a look-up by numbers take no memory.
pub fn bind(alloc: Global, request: Request, catalog: &Catalog) -> Result<Command, Refusal>
    ensures answer { IsAnswer result (bound_command catalog.now request.entry) }
    ensures refusal { IfErr result NamesNoIndex }
    ensures fits { IfOk result (λ command. FitsCatalog catalog.now command) }
    ensures exact { binds_without request.entry ≡ true → result ≡ bound_command catalog.now request.entry }
{
    match request {
        Request::Change { table, change } => {
            let (table, change) = bind_change(alloc, table, change, catalog)?;
            Ok(Command::Change { table, change })
        }
        Request::NumberLookUp { table, look_up } => {
            let (table, look_up) = bind_number_look_up(table, look_up, catalog)?;
            Ok(Command::NumberLookUp { table, look_up })
        }
        Request::KeyLookUp { table, look_up } => {
            let (table, look_up) = bind_key_look_up(alloc, table, look_up, catalog)?;
            Ok(Command::KeyLookUp { table, look_up })
        }
        Request::Session(command) => Ok(Command::Session(command)),
    }
}
