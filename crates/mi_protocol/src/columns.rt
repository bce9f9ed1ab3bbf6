//! Members against columns by name. It reads no member's value.
ghost use Rattle.std.specs.Prelude.{◌≡◌, map, bytes_eq};
ghost use Rattle.std.specs.List.{list_any, list_all};
ghost use Rattle.mi_request.specs.Json.{has_only};

use mi_catalog::Column;
use mi_request::{Json, Object};

/// Whether a name is that of one of these columns.
fn is_column(columns: &[Column], name: &str) -> bool
    ensures { result ≡ list_any (λ c. bytes_eq name.now c.name) columns.now }
{
    'columns: for column in columns {
        if name == column.name.as_str() {
            return true;
        }
    }
    false
}

/// Whether each member has the name of one of these columns.
fn are_columns(columns: &[Column], members: &[(&str, Json<'_>)]) -> bool
    ensures { result ≡ list_all (λ m. list_any (λ c. bytes_eq m.0.now c.name) columns.now) members.now }
{
    'members: for member in members {
        if !is_column(columns, member.0) {
            return false;
        }
    }
    true
}

/// Whether no member has another name than these columns.
pub(crate) fn has_only_columns(object: &Object, columns: &[Column]) -> bool
    ensures { result ≡ has_only (map (λ c. c.name) columns.now) object.now }
{
    are_columns(columns, object.members())
}
