//! What is at a place of a document.

ghost use Rattle.std.specs.Prelude.{◌≡◌, Some, true, option_map, IfOk, IfErr};
ghost use Rattle.toml.specs.Data.{get_member};
ghost use Rattle.toml.specs.View.{view, table_view};
ghost use Rattle.site_file.specs.Place.{table_of, value_at, member_at, is_required, IsThere};
ghost use Rattle.site_file.specs.Fault.{IsWhyIn};

use crate::fault::SiteFault;
use crate::place::Place;
use toml::{Table, Value};

/// The value of a key.
fn found<'a>(table: &'a Table, name: &str) -> Option<&'a Value>
    ensures { option_map (λ v. view v.now) result ≡ get_member name.now (table_view table.now) }
{
    table.get(name)
}

/// The table of a member.
fn member_table(document: &Table, member: usize) -> Option<&Table>
    ensures { option_map (λ t. table_view t.now) result ≡ table_of (Some member) (table_view document.now) }
{
    match found(document, "member") {
        Some(members) => match members.get(member) {
            Some(value) => value.as_table(),
            None => None,
        },
        None => None,
    }
}

/// The table of this member, or with none that of the whole file.
pub fn table_in(document: &Table, member: Option<usize>) -> Option<&Table>
    ensures { option_map (λ t. table_view t.now) result ≡ table_of member (table_view document.now) }
{
    match member {
        Some(member) => member_table(document, member),
        None => Some(document),
    }
}

/// The value at a place.
pub fn value_in(document: &Table, place: Place) -> Option<&Value>
    ensures { option_map (λ v. view v.now) result ≡ value_at place (table_view document.now) }
{
    match table_in(document, place.member()) {
        Some(table) => found(table, place.name()),
        None => None,
    }
}

/// The value at a place where there has to be one.
pub fn required(document: &Table, place: Place) -> Result<&Value, SiteFault>
    requires there { IsThere (member_at place) (table_view document.now) }
    requires required { is_required place ≡ true }
    ensures ok { IfOk result (λ value. value_at place (table_view document.now) ≡ Some (view value.now)) }
    ensures err { IfErr result (IsWhyIn (table_view document.now)) }
{
    match value_in(document, place) {
        Some(value) => Ok(value),
        None => Err(SiteFault::Missing(place)),
    }
}
