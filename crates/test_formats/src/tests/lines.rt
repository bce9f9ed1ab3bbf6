//! Worked lines, over no catalog.
use super::asking::{check_text, split_row, word_of};
use mi_request::LineReader;
use mi_value::Refusal;
use std::alloc::{AllocError, Global};
use std::process::Abort;

/// The word, or `ok`, and the line.
const LINES: &str = r#"json {"cmd":"undo"
form []
form {"cmd":"fly"}
form {"cmd":"get","id":0,"x":1}
ok { "cmd" : "undo" }
ok {"cmd":"undo"}
ok {"cmd":"start"}
form {"cmd":"start","table":"a"}
ok {"cmd":"squash"}
form {"cmd":"squash","table":"accounts"}
ok {"cmd":"commit","revision":0}
form {"cmd":"commit"}
form {"cmd":"commit","revision":-1}
form {"cmd":"commit","revision":null}
ok {"cmd":"undo_all"}
ok {"cmd":"push"}
ok {"cmd":"reserve","changes":1000000,"sessions":1024}
form {"cmd":"reserve","changes":1000001,"sessions":1}
form {"cmd":"reserve","changes":3,"sessions":1025}
form {"cmd":"reserve","changes":3}
ok {"cmd":"revision"}
form {"cmd":"revision","table":"accounts"}
ok {"cmd":"get","id":0}
form {"cmd":"get","id":-1}
ok {"cmd":"get","id":9223372036854775807}
form {"cmd":"get","id":9223372036854775808}
json {"cmd":"get","id":07}
json {"cmd":"get","id":+7}
form {"cmd":"get","id":7.0}
json {"cmd":"erase","id":}
json {"cmd":"erase","id":7}}
form {"cmd":"erase","id":18446744073709551616}
ok {"cmd":"get","table":"accounts","id":0}
ok {"cmd":"get","table":"c","id":0}
form {"cmd":"get","table":0,"id":0}
form {"cmd":"insert"}
ok {"cmd":"nth","index":"a","n":-1,"n":0}
form {"cmd":"nth","index":"a","n":0,"n":-1}
ok {"cmd":"fly","id":0,"cmd":"get"}
form {"cmd":"modify","add":{"balance":1}}
form {"cmd":"modify","id":0,"row":{}}
ok {"cmd":"modify","\u0069d":0}
form {"cmd":"modify","\u0069":0}
ok {"cmd":"nth","index":"a","n":9223372036854775807}
form {"cmd":"nth","index":"a","n":9223372036854775808}
form {"cmd":"nth","index":"a","n":-0}
json {"cmd":"nth","index":"a","n":1e400}
ok {"cmd":"nth","table":"accounts","index":"by_owner","n":0}
json {"cmd":"nth","index":"a","n":00}
ok {"cmd":"rank","index":"by_balance","id":7}
ok {"cmd":"rank","table":"accounts","index":"by_balance","id":9223372036854775807}
form {"cmd":"rank","index":"by_balance","id":9223372036854775808}
form {"cmd":"rank","index":"by_balance","id":10000000000000000000}
form {"cmd":"rank","index":"by_balance"}
form {"cmd":"rank","table":"accounts","id":7}
form {"cmd":"rank","index":"by_balance","id":7,"before":1}
json {"cmd":"rank","index":"by_balance","id":07}
json {"cmd":"rank","index":"by_balance","id":}
json {"cmd":"rank","index":"by_balance","id":7,}
json {"cmd":"rank","index":"by"balance","id":7}
ok {"cmd":"rank","index":"","id":0}
ok {"cmd":"rank","index":"By Owner","id":0}
ok {"cmd":"relocate","index":"line","id":1}
ok {"cmd":"relocate","table":"a","index":"line","id":1,"before":2}
ok {"cmd":"relocate","index":"line","id":1,"before":null}
form {"cmd":"relocate","index":"line","before":2}
json {"cmd":"relocate","index":"line","id":1,"before":02}
ok {"cmd":"erase","table":"a_1","id":7}
ok {"cmd":"size","table":"accounts"}
json {"cmd":"size","table":"accounts}
"#;

/// Why a line is refused, if it is.
fn refusal_of(alloc: Global, line: &[u8]) -> Option<Refusal> {
    LineReader::new(alloc).parse(line).err()
}

fn verdict(alloc: Global, line: &[u8]) -> &'static str {
    word_of(refusal_of(alloc, line))
}

fn brackets(alloc: Global, n: usize) -> Result<Vec<u8>, AllocError> {
    let mut line = vec![in alloc; b'['; n]?;
    line.extend_from_slice(vec![in alloc; b']'; n]?.as_slice())?;
    Ok(line)
}

/// Asserts the word of a row of `LINES`.
fn assert_line(rt: &impl Abort, alloc: Global, row: &str) {
    let (want, line) = split_row(row);
    check_text(rt, verdict(alloc, line.as_bytes()), want, line);
}

#[test]
fn lines_are_requests_or_refused(rt: HostRuntime) {
    for row in LINES.lines() {
        assert_line(&rt, rt.alloc(), row);
    }
    check_text(&rt, verdict(rt.alloc(), b"\xff"), "json", "no UTF-8");
}

/// Asserts the word of so many brackets.
fn assert_brackets(rt: &impl Abort, alloc: Global, n: usize, want: &str) {
    let line = brackets(alloc, n).expect(rt, "memory is there");
    check_text(rt, verdict(alloc, line.as_slice()), want, "brackets");
}

/// Brackets are read to a depth that is bounded: few are no command, many no JSON.
#[test]
fn brackets_have_a_limit(rt: HostRuntime) {
    assert_brackets(&rt, rt.alloc(), 100, "form");
    assert_brackets(&rt, rt.alloc(), 1000, "json");
}
