//! The text of the built-in schema. Plain data.
ghost use Rattle.std.specs.Prelude.{◌≡◌, ◌∷◌, [], Ok};
ghost use Rattle.mi_catalog.specs.Accounts.{accounts};
ghost use Rattle.mi_schema.specs.Reading.{catalog_read};

/// The text of the built-in schema.
const BUILT_IN: &str = "table = \"accounts\"

[[column]]
name = \"owner\"
type = \"text\"

[[column]]
name = \"balance\"
type = \"int\"

[[column]]
name = \"vip\"
type = \"flag\"

[[index]]
name = \"by_owner\"
kind = \"hashed\"
unique = true
key = [\"owner\"]

[[index]]
name = \"by_balance\"
kind = \"ranked\"
key = [\"balance\"]

[[index]]
name = \"by_vip\"
kind = \"hashed\"
key = [\"vip\"]

[[index]]
name = \"by_class\"
kind = \"ordered\"
key = [\"-vip\", \"balance\"]

[[index]]
name = \"line\"
kind = \"sequenced\"
";

/// The text of the built-in schema, which describes the built-in table alone.
pub fn built_in_text() -> &'static str
    ensures { catalog_read result.now ≡ Ok (record { tables = accounts ∷ []; first_revision = 0 }) }
{
    BUILT_IN
}
