//! Worked rows as text. `row NAME` begins a row, and `after NAME` says that it goes on where another ended. `with LINE` puts a
//! line before the schema of accounts, and `tables LINE` asks for the two tables, with a line behind. `1 LINE` is what
//! connection 1 asks, `1+ BYTES` what it sends without a newline; `1 closes` ends its bytes, `1 breaks off` cuts it; and
//! `= REPLY` is what is answered.

mod changes;
mod look_ups;
mod sessions;

/// All rows.
pub(super) const ROWS: [&str; 3] = [changes::CHANGES, look_ups::LOOK_UPS, sessions::SESSIONS];

/// The tables of rows that name no others.
pub(super) const ACCOUNTS: &str = "table = \"accounts\"
column = [{name = \"owner\", type = \"text\"}, {name = \"balance\", type = \"int\"}, {name = \"vip\", type = \"flag\"}]
index = [
    {name = \"by_owner\", kind = \"hashed\", unique = true, key = [\"owner\"]},
    {name = \"by_balance\", kind = \"ranked\", key = [\"balance\"]},
    {name = \"by_vip\", kind = \"hashed\", key = [\"vip\"]},
    {name = \"by_class\", kind = \"ordered\", key = [\"-vip\", \"balance\"]},
    {name = \"line\", kind = \"sequenced\"},
]
";

/// Two tables; the second holds one row, and a line may stand behind.
pub(super) const TWO: &str = "format = 2
[[table]]
name = \"a\"
column = [{name = \"k\", type = \"int\"}]
index = [{name = \"u\", kind = \"ordered\", unique = true, key = [\"k\"]}]
[[table]]
name = \"b\"
max_rows = 1
column = [{name = \"t\", type = \"text\"}]
";
