//! Which lines are commands over the schema of accounts, and the word by which the others are refused.
use super::asking::{check_text, split_row, word_of};
use super::replies::accounts;
use mi_catalog::Catalog;
use mi_protocol::{LineReader, bind};
use mi_value::Refusal;
use std::alloc::Global;
use std::process::Abort;

/// The word, or `ok`, and the line.
const LINES: &str = r#"json {"cmd":"undo"
form {"cmd":"fly"}
ok {"cmd":"start"}
ok {"cmd":"squash"}
ok {"cmd":"commit","revision":0}
ok {"cmd":"undo_all"}
ok {"cmd":"push"}
ok {"cmd":"revision"}
ok {"cmd":"get","id":0}
ok {"cmd":"get","table":"accounts","id":0}
table {"cmd":"get","table":"c","id":0}
ok {"cmd":"insert","row":{"owner":"ann","balance":50,"vip":false}}
ok {"cmd":"insert","row":{"owner":"ann","balance":50,"vip":false},"before":null}
ok {"cmd":"insert","row":{"owner":"ann","balance":50,"vip":false},"before":{"index":"line","id":1}}
kind {"cmd":"insert","row":{"owner":"ann","balance":50,"vip":false},"before":{"index":"by_vip","id":1}}
index {"cmd":"insert","row":{"owner":"ann","balance":50,"vip":false},"before":{"index":"none","id":1}}
form {"cmd":"insert","row":{"owner":"ann","balance":50,"vip":false},"before":7}
index {"cmd":"insert","row":{"owner":"ann","balance":50},"before":{"index":"none","id":1}}
ok {"cmd":"insert","row":{"vip":false,"owner":"ann","balance":50}}
ok {"cmd":"insert","row":{"owner":"ann","balance":1.5,"vip":false,"balance":50}}
row {"cmd":"insert","row":{"owner":"ann","balance":50,"vip":false,"balance":1.5}}
row {"cmd":"insert","row":{"owner":"ann","balance":50,"balance":50}}
row {"cmd":"insert","row":{"owner":"ann","balance":50}}
row {"cmd":"insert","row":{"owner":"ann","balance":50,"vip":false,"x":1}}
row {"cmd":"insert","row":{"owner":"ann","balance":1.5,"vip":false}}
row {"cmd":"insert","row":{"owner":"ann","balance":9223372036854775808,"vip":false}}
ok {"cmd":"replace","id":0,"row":{"owner":"a","balance":5,"vip":true}}
row {"cmd":"replace","id":0,"row":{"owner":"a","balance":5}}
form {"cmd":"replace","id":0,"row":[]}
form {"cmd":"replace","row":{"owner":"a","balance":5,"vip":true}}
table {"cmd":"replace","table":"c","id":0,"row":{}}
ok {"cmd":"modify","id":0}
ok {"cmd":"modify","id":1,"set":{"owner":"a"},"rollback":true}
ok {"cmd":"modify","id":0,"add":{"balance":1}}
ok {"cmd":"modify","id":0,"set":{"vip":true},"add":{"balance":-1}}
row {"cmd":"modify","id":0,"set":{"balance":2},"add":{"balance":1}}
row {"cmd":"modify","id":0,"set":{"none":2}}
row {"cmd":"modify","id":0,"add":{"none":2}}
row {"cmd":"modify","id":0,"set":{"balance":"2"}}
row {"cmd":"modify","id":0,"set":{"balance":null}}
row {"cmd":"modify","id":0,"add":{"owner":2}}
row {"cmd":"modify","id":0,"add":{"balance":1.5}}
form {"cmd":"modify","id":0,"set":null}
form {"cmd":"modify","id":0,"add":[]}
form {"cmd":"modify","id":0,"rollback":1}
ok {"cmd":"erase","id":0}
form {"cmd":"erase","id":0,"index":"line"}
form {"cmd":"erase"}
ok {"cmd":"erase_key","index":"by_vip","key":[true]}
ok {"cmd":"erase_key","index":"id","key":[0]}
key {"cmd":"erase_key","index":"id","key":["a"]}
ok {"cmd":"erase_key","index":"by_class","key":[true,1]}
key {"cmd":"erase_key","index":"by_class","key":[true]}
key {"cmd":"erase_key","index":"by_class","key":[true,1,2]}
key {"cmd":"erase_key","index":"by_class","key":[1,true]}
key {"cmd":"erase_key","index":"by_vip","key":[null]}
key {"cmd":"erase_key","index":"by_vip","key":[]}
index {"cmd":"erase_key","index":"none","key":[]}
kind {"cmd":"erase_key","index":"line","key":[]}
form {"cmd":"erase_key","index":"line","key":0}
ok {"cmd":"relocate","index":"line","id":0,"before":0}
ok {"cmd":"relocate","index":"line","id":0,"before":null}
ok {"cmd":"relocate","index":"line","id":0}
form {"cmd":"relocate","index":"line","id":0,"before":-1}
kind {"cmd":"relocate","index":"by_vip","id":0}
index {"cmd":"relocate","index":"none","id":0}
form {"cmd":"relocate","index":0,"id":0}
ok {"cmd":"find","index":"by_vip","key":[false]}
ok {"cmd":"find","index":"by_class","key":[false]}
ok {"cmd":"find","index":"id","key":[0]}
key {"cmd":"find","index":"id","key":[0,1]}
key {"cmd":"find","index":"by_vip","key":[]}
key {"cmd":"find","index":"by_owner","key":[1]}
kind {"cmd":"find","index":"line","key":[]}
form {"cmd":"find","index":"by_vip","key":true}
ok {"cmd":"nth","index":"by_balance","n":0}
form {"cmd":"nth","index":"by_balance","n":-1}
kind {"cmd":"nth","index":"by_class","n":0}
index {"cmd":"nth","index":"none","n":0}
ok {"cmd":"count","index":"by_balance","key":[5]}
key {"cmd":"count","index":"by_balance","key":[]}
kind {"cmd":"count","index":"line","key":[5]}
ok {"cmd":"range","index":"by_balance"}
ok {"cmd":"range","index":"by_class","lower":{"ge":[false]}}
ok {"cmd":"range","index":"by_class","lower":{"gt":[true,1]},"upper":{"lt":[false]}}
ok {"cmd":"range","index":"by_class","upper":{"le":[true]},"reverse":true}
ok {"cmd":"range","index":"by_class","lower":{"ge":[true,3]},"limit":1}
key {"cmd":"range","index":"by_class","lower":{"ge":[1]}}
key {"cmd":"range","index":"by_class","upper":{"le":[]}}
form {"cmd":"range","index":"by_class","lower":{"ge":[true],"gt":[true]}}
form {"cmd":"range","index":"by_class","lower":{}}
form {"cmd":"range","index":"by_class","lower":{"le":[true]}}
form {"cmd":"range","index":"by_class","upper":{"ge":[true]}}
form {"cmd":"range","index":"by_class","lower":null}
form {"cmd":"range","index":"by_class","lower":{"ge":true}}
form {"cmd":"range","index":"by_class","limit":0}
ok {"cmd":"range","index":"by_class","limit":1000}
form {"cmd":"range","index":"by_class","limit":1001}
form {"cmd":"range","index":"by_class","reverse":0}
kind {"cmd":"range","index":"by_vip"}
kind {"cmd":"range","index":"line"}
ok {"cmd":"list","index":"line"}
ok {"cmd":"list","index":"line","after":0,"limit":1}
form {"cmd":"list","index":"line","after":null}
kind {"cmd":"list","index":"by_balance"}
ok {"cmd":"rank","index":"by_balance","id":0}
ok {"cmd":"rank","index":"id","id":0}
kind {"cmd":"rank","index":"line","id":0}
ok {"cmd":"lower_rank","index":"by_balance","key":[5]}
kind {"cmd":"lower_rank","index":"by_class","key":[true]}
key {"cmd":"upper_rank","index":"by_balance","key":["5"]}
kind {"cmd":"upper_rank","index":"by_vip","key":[true]}
ok {"cmd":"size"}
form {"cmd":"size","x":1}
table {"cmd":"size","table":"c"}
form {"cmd":"size","table":0}
"#;

/// Why a line is refused, if it is.
fn refusal_of(alloc: Global, line: &[u8], catalog: &Catalog) -> Option<Refusal> {
    let mut lines = LineReader::new(alloc);
    match lines.parse(line) {
        Ok(request) => bind(alloc, request, catalog).err(),
        Err(refusal) => Some(refusal),
    }
}

/// Asserts the word of a row of `LINES`.
fn assert_line(rt: &impl Abort, alloc: Global, catalog: &Catalog, row: &str) {
    let (want, line) = split_row(row);
    let refusal = refusal_of(alloc, line.as_bytes(), catalog);
    check_text(rt, word_of(refusal), want, line);
}

fn assert_lines(rt: &impl Abort, alloc: Global, catalog: &Catalog) {
    for row in LINES.lines() {
        assert_line(rt, alloc, catalog, row);
    }
}

#[test]
fn lines_are_bound_or_refused(rt: HostRuntime) {
    assert_lines(&rt, rt.alloc(), &accounts(&rt, rt.alloc()));
}
