// A book printed as one of version 2.
ghost use Rattle.std.specs.Prelude.{◌≡◌, Some, None, IfOk, string_bytes};
ghost use Rattle.toml.specs.Parse.{parse_document};
ghost use Rattle.toml.specs.View.{table_view};
ghost use Rattle.book_spec.specs.BookBytes.{table_of_text, book_fault};
ghost use Rattle.book_spec.specs.Document.{table_fault};
ghost use Rattle.book_migration.specs.Migrated.{in_version_2};
ghost use Rattle.book_migration.specs.Migration.{IsMigration};

use crate::order::go_through_table;
use std::alloc::{AllocError, Global};
use toml::ser::Error;
use toml::{Table, Value};

fn table_in(alloc: Global, bytes: &[u8]) -> Result<Table, AllocError>
    requires { book_fault bytes.now ≡ None }
    ensures table { IfOk result (λ t. table_of_text bytes.now ≡ Some (table_view t)) }
    ensures faultless { IfOk result (λ t. table_fault (table_view t) ≡ None) }
{
    match toml::table_from_slice(alloc, bytes) {
        Ok(table) => Ok(table),
        Err(error) => {
            if error.is_memory() {
                Err(AllocError)
            } else {
                unreachable!()
            }
        }
    }
}

pub(crate) fn set_version(table: &mut Table)
    ensures { table_view table.new ≡ in_version_2 (table_view table.old) }
{
    if let Some(version) = table.get_mut("version") {
        *version = Value::Integer(2);
    }
}

fn printed(alloc: Global, table: &Table) -> Result<String, AllocError>
    requires { table_fault (table_view table.now) ≡ None }
    ensures { IfOk result (λ t. table_of_text (string_bytes t) ≡ Some (table_view table.now)) }
{
    go_through_table(table);
    match toml::table_to_string(alloc, table) {
        Ok(text) => Ok(text),
        Err(Error::OutOfMemory) => Err(AllocError),
        Err(Error::DateInvalid) => unreachable!(),
    }
}

/// Migrates a book without a fault: prints its document with `version` set to 2. A book of version 2 is printed again.
/// Only want of memory is an error.
pub fn migrated(alloc: Global, bytes: &[u8]) -> Result<String, AllocError>
    requires { book_fault bytes.now ≡ None }
    ensures { IfOk result (λ text. IsMigration bytes.now (string_bytes text)) }
{
    let mut table = table_in(alloc, bytes)?;
    set_version(&mut table);
    printed(alloc, &table)
}
