//! How many look-ups a count and a page make, however many rows there are: one. A page is stepped through from where it begins.
use super::accounts::{account, catalog};
use super::counting::{Asked, Counting};
use super::serving::{answer, served};
use mi_hub::Hub;
use mi_plain::Plain;
use mi_sessions::Sessions;
use std::alloc::Global;
use std::process::Abort;

/// A line, its reply, and the fewest and the most look-ups that it makes.
struct Row {
    line: &'static str,
    reply: &'static str,
    fewest: u64,
    most: u64,
}

/// As many accounts, all of one balance or each of its own, and lines about them.
struct Table {
    accounts: i64,
    balance: Option<i64>,
    rows: [Row; 2],
}

/// Ten thousand equal keys are counted in a ranked and in an ordered index.
const EQUALS: Table = Table {
    accounts: 10_000,
    balance: Some(7),
    rows: [
        Row {
            line: "{\"cmd\":\"count\",\"index\":\"by_balance\",\"key\":[7]}\n",
            reply: "{\"count\":10000,\"ok\":true}\n",
            fewest: 1,
            most: 1,
        },
        Row {
            line: "{\"cmd\":\"count\",\"index\":\"by_class\",\"key\":[true]}\n",
            reply: "{\"count\":10000,\"ok\":true}\n",
            fewest: 1,
            most: 1,
        },
    ],
};

/// Ten rows from the middle of four thousand, from the lower bound on and from the upper one back: one walk from where it begins.
const PAGES: Table = Table {
    accounts: 4_000,
    balance: None,
    rows: [
        Row {
            line: "{\"cmd\":\"range\",\"index\":\"by_balance\",\"limit\":10,\"lower\":{\"ge\":[2000]},\"reverse\":false,\"upper\":{\"lt\":[2500]}}\n",
            reply: concat!(
                "{\"more\":true,\"ok\":true,\"rows\":[",
                "{\"balance\":2000,\"id\":2000,\"owner\":\"o2000\",\"vip\":true},",
                "{\"balance\":2001,\"id\":2001,\"owner\":\"o2001\",\"vip\":true},",
                "{\"balance\":2002,\"id\":2002,\"owner\":\"o2002\",\"vip\":true},",
                "{\"balance\":2003,\"id\":2003,\"owner\":\"o2003\",\"vip\":true},",
                "{\"balance\":2004,\"id\":2004,\"owner\":\"o2004\",\"vip\":true},",
                "{\"balance\":2005,\"id\":2005,\"owner\":\"o2005\",\"vip\":true},",
                "{\"balance\":2006,\"id\":2006,\"owner\":\"o2006\",\"vip\":true},",
                "{\"balance\":2007,\"id\":2007,\"owner\":\"o2007\",\"vip\":true},",
                "{\"balance\":2008,\"id\":2008,\"owner\":\"o2008\",\"vip\":true},",
                "{\"balance\":2009,\"id\":2009,\"owner\":\"o2009\",\"vip\":true}]}\n",
            ),
            fewest: 1,
            most: 1,
        },
        Row {
            line: "{\"cmd\":\"range\",\"index\":\"by_balance\",\"limit\":10,\"lower\":{\"ge\":[2000]},\"reverse\":true,\"upper\":{\"lt\":[2500]}}\n",
            reply: concat!(
                "{\"more\":true,\"ok\":true,\"rows\":[",
                "{\"balance\":2499,\"id\":2499,\"owner\":\"o2499\",\"vip\":true},",
                "{\"balance\":2498,\"id\":2498,\"owner\":\"o2498\",\"vip\":true},",
                "{\"balance\":2497,\"id\":2497,\"owner\":\"o2497\",\"vip\":true},",
                "{\"balance\":2496,\"id\":2496,\"owner\":\"o2496\",\"vip\":true},",
                "{\"balance\":2495,\"id\":2495,\"owner\":\"o2495\",\"vip\":true},",
                "{\"balance\":2494,\"id\":2494,\"owner\":\"o2494\",\"vip\":true},",
                "{\"balance\":2493,\"id\":2493,\"owner\":\"o2493\",\"vip\":true},",
                "{\"balance\":2492,\"id\":2492,\"owner\":\"o2492\",\"vip\":true},",
                "{\"balance\":2491,\"id\":2491,\"owner\":\"o2491\",\"vip\":true},",
                "{\"balance\":2490,\"id\":2490,\"owner\":\"o2490\",\"vip\":true}]}\n",
            ),
            fewest: 1,
            most: 1,
        },
    ],
};

/// Adds the account of the owner `o{n}`.
fn insert<D: Sessions>(rt: &impl Abort, alloc: Global, database: &mut D, n: i64, balance: i64) {
    let owner = format!(in alloc; "o{n}").expect(rt, "memory is there");
    let row = account(rt, alloc, owner.as_str(), balance, true);
    assert!(rt; database.catalog().table_count() > 0);
    assert!(rt; database.catalog().table(0).fits_record(&row));
    assert!(rt; database.insert(alloc, 0, row, None).is_ok(), "owner {n}");
}

/// What connection 1 is answered to a line, and how many look-ups that made.
fn asked<D: Asked>(rt: &impl Abort, alloc: Global, hub: &mut Hub<D>, line: &str) -> (Vec<u8>, u64) {
    let _ = hub.database().take_asked();
    let reply = answer(rt, alloc, hub, line);
    (reply, hub.database().take_asked())
}

/// Fills a database and asks its lines.
fn check_table<D: Asked>(rt: &impl Abort, alloc: Global, database: D, table: &Table) {
    let mut database = database;
    for n in 0..table.accounts {
        insert(rt, alloc, &mut database, n, table.balance.unwrap_or(n));
    }
    let mut hub = served(rt, alloc, database);
    for row in &table.rows {
        let (reply, count) = asked(rt, alloc, &mut hub, row.line);
        assert!(rt; reply.as_slice() == row.reply.as_bytes());
        assert!(rt;
            row.fewest <= count && count <= row.most,
            "{count} look-ups"
        );
    }
}

/// The plain database is asked the lines of a table.
fn check_plain(rt: &impl Abort, alloc: Global, table: &Table) {
    let plain = Plain::new(alloc, catalog(rt, alloc)).expect(rt, "memory is there");
    check_table(rt, alloc, Counting::new(plain), table);
}

#[test]
fn equal_keys_are_counted(rt: HostRuntime) {
    check_plain(&rt, rt.alloc(), &EQUALS);
}

#[test]
fn pages_begin_in_the_middle(rt: HostRuntime) {
    check_plain(&rt, rt.alloc(), &PAGES);
}
