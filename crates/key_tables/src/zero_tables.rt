//! Tables of their zero entries alone.
ghost use Rattle.std.specs.Prelude.{◌≡◌, ◌++◌, ◌∷◌, [], IfOk, OnOk};
ghost use Rattle.key_tables.specs.Keys.{zero_keys};

use crate::filling::Tables;
use crate::{ByTable, KeyTables};
use outside::Seeds;
use pb_wire::NoMemory;
use std::alloc::Global;
use tables::BytesTable;

// How many tables a dictionary has.
const TABLES: usize = 7;

/// Seven tables of their zero entries alone, whose keys have no bytes. It counts no step.
///
/// # Errors
///
/// Out of memory.
pub fn begin_tables<M: Seeds>(alloc: Global, seeds: &mut M) -> Result<KeyTables<M::H>, NoMemory>
    ensures { IfOk result (λ t. t ≡ zero_keys) }
{
    let items = zero_tables(alloc, seeds)?;
    Ok(KeyTables::of_zeros(ByTable::from_vec(items)))
}

// Seven tables of their zero entries alone.
fn zero_tables<M: Seeds>(alloc: Global, seeds: &mut M) -> Result<Vec<BytesTable<M::H>>, NoMemory>
    ensures { IfOk result (λ v. v.items ≡ zero_keys) }
{
    let mut items = Vec::with_capacity(alloc, TABLES)?;
    for _place in 0..TABLES {
        if let Err(stop) = add_zero_table(alloc, seeds, &mut items) {
            return Err(stop);
        }
    }
    Ok(items)
}

// Puts a table of its zero entry alone at the end.
fn add_zero_table<M: Seeds>(
    alloc: Global,
    seeds: &mut M,
    items: &mut Vec<BytesTable<M::H>>,
) -> Result<(), NoMemory>
    ensures { OnOk result (items.new.items ≡ items.old.items ++ ([] ∷ []) ∷ []) }
{
    let table = BytesTable::start(alloc, seeds.hasher()?, &[])?;
    items.push(table)?;
    Ok(())
}
