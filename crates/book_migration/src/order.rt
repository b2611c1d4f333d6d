// A map tells that its keys ascend where it is gone through, so a table is gone through with all that it holds.
ghost use Rattle.std.specs.Prelude.{◌≡◌, true};
ghost use Rattle.toml.specs.Data.{is_sorted, items_are_sorted, members_are_sorted};
ghost use Rattle.toml.specs.View.{view, array_view, table_view};

use toml::value::Array;
use toml::{Table, Value};

#[cycle(order)]
fn go_through(value: &Value)
    ensures sorted { is_sorted (view value.now) ≡ true }
{
    match value {
        Value::Array(array) => go_through_array(array),
        Value::Table(table) => go_through_table(table),
        _ => {}
    }
}

#[cycle(order)]
fn go_through_array(array: &Array)
    ensures sorted { items_are_sorted (array_view array.now) ≡ true }
{
    'items: for item in array {
        go_through(item);
    }
}

#[cycle(order)]
pub(crate) fn go_through_table(table: &Table)
    ensures sorted { members_are_sorted (table_view table.now) ≡ true }
{
    'members: for (_key, member) in table.iter() {
        go_through(member);
    }
}
