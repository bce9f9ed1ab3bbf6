//! Worked rows that are made: many records, sessions as deep as can be, lines as long as can be, and the ends of lines.
use super::forms::filled;
use super::script::Script;
use std::alloc::{AllocError, Global};

/// Has a script do what a form says, once with each number from one to before another, and `$t` for how many came before it.
fn read_each(
    script: &mut Script,
    alloc: Global,
    form: &str,
    from: u64,
    to: u64,
) -> Result<(), AllocError> {
    for n in from..to {
        let before = format!(in alloc; "{}", n.saturating_sub(from))?;
        let number = format!(in alloc; "{n}")?;
        let text = filled(alloc, form, before.as_str(), number.as_str())?;
        script.read_all(alloc, text.as_str())?;
    }
    Ok(())
}

/// Two records of one key, and a session.
const FIRST: &str = r#"1 {"cmd":"insert","row":{"owner":"a","balance":1,"vip":true}}
= {"id":0,"ok":true}
1 {"cmd":"insert","row":{"owner":"b","balance":1,"vip":true}}
= {"id":1,"ok":true}
1 {"cmd":"start"}
= {"ok":true,"revision":1}"#;

/// One more record of the key.
const INSERT: &str = r#"1 {"cmd":"insert","row":{"owner":"k$t","balance":1,"vip":true}}
= {"id":$n,"ok":true}"#;

/// How many records the key has.
const COUNT: &str = r#"1 {"cmd":"count","index":"by_vip","key":[true]}
= {"count":$n,"ok":true}"#;

/// What is asked behind them, and what is answered.
const UNDONE: &str = r#"1 {"cmd":"undo"}
= {"ok":true,"revision":0}
1 {"cmd":"insert","row":{"owner":"c","balance":1,"vip":true}}
= {"id":2,"ok":true}
1 {"cmd":"find","index":"by_vip","key":[true]}
= {"ok":true,"row":{"balance":1,"id":0,"owner":"a","vip":true}}
1 {"cmd":"erase","id":0}
= {"ok":true}
1 {"cmd":"find","index":"by_vip","key":[true]}
= {"ok":true,"row":{"balance":1,"id":1,"owner":"b","vip":true}}
1 {"cmd":"range","index":"by_balance"}
= {"more":false,"ok":true,"rows":[{"balance":1,"id":1,"owner":"b","vip":true},{"balance":1,"id":2,"owner":"c","vip":true}]}"#;

/// So many records of one key come and are undone; the key has its first two again.
pub(super) fn many_records(alloc: Global, count: u64) -> Result<Script, AllocError> {
    let mut script = Script::new(alloc, "many records are undone", "")?;
    let all = count.saturating_add(2);
    script.read_all(alloc, FIRST)?;
    read_each(&mut script, alloc, INSERT, 2, all)?;
    read_each(&mut script, alloc, COUNT, all, all.saturating_add(1))?;
    script.read_all(alloc, UNDONE)?;
    Ok(script)
}

/// One more session.
const START: &str = r#"1 {"cmd":"start"}
= {"ok":true,"revision":$n}"#;

/// One session too many.
const TOO_DEEP: &str = r#"1 {"cmd":"start"}
= {"error":"depth","ok":false}"#;

/// As many starts as can be, and one more.
pub(super) fn deep_sessions(alloc: Global) -> Result<Script, AllocError> {
    let mut script = Script::new(alloc, "as many sessions as can be", "")?;
    read_each(&mut script, alloc, START, 1, 1025)?;
    script.read_all(alloc, TOO_DEEP)?;
    Ok(script)
}

/// Bytes that are no text, or whose line ends in another way, and how a row says what they are answered.
const ODD: [(&[u8], &str); 3] = [
    (b"\n\r\n", ""),
    (b"{\"cmd\":\"size\"}\r\n", r#"= {"ok":true,"size":0}"#),
    (b"\xff\n", r#"= {"error":"json","ok":false}"#),
];

/// Lines whose length matters: `$n` stands for so many of a letter.
const LONG: [(char, usize, &str); 8] = [
    (
        ' ',
        65_522,
        "1 {\"cmd\":\"size\"}$n\n= {\"ok\":true,\"size\":0}",
    ),
    (
        ' ',
        65_523,
        "1 {\"cmd\":\"size\"}$n\n= {\"error\":\"line\",\"ok\":false}",
    ),
    (
        'a',
        1_025,
        "1 {\"cmd\":\"insert\",\"row\":{\"balance\":1,\"vip\":true,\"owner\":\"$n\"}}\n= {\"error\":\"row\",\"ok\":false}",
    ),
    (
        'a',
        1_024,
        "1 {\"cmd\":\"insert\",\"row\":{\"balance\":1,\"vip\":true,\"owner\":\"$n\"}}\n= {\"id\":0,\"ok\":true}",
    ),
    ('[', 100, "1+ $n"),
    (']', 100, "1 $n\n= {\"error\":\"form\",\"ok\":false}"),
    ('[', 1_000, "1+ $n"),
    (']', 1_000, "1 $n\n= {\"error\":\"json\",\"ok\":false}"),
];

/// So many of a letter.
fn repeated(alloc: Global, letter: char, count: usize) -> Result<String, AllocError> {
    let mut text = String::new(alloc);
    for _ in 0..count {
        text.push(letter)?;
    }
    Ok(text)
}

/// Has a script do what a form says that has so many of a letter.
fn read_long(
    script: &mut Script,
    alloc: Global,
    form: &str,
    letter: char,
    count: usize,
) -> Result<(), AllocError> {
    let letters = repeated(alloc, letter, count)?;
    let text = filled(alloc, form, "", letters.as_str())?;
    script.read_all(alloc, text.as_str())
}

/// Lines whose length matters, and what isn't a line.
pub(super) fn odd_lines(alloc: Global) -> Result<Script, AllocError> {
    let mut script = Script::new(alloc, "odd lines", "")?;
    send_odd(&mut script, alloc)?;
    for (letter, count, form) in &LONG {
        read_long(&mut script, alloc, form, *letter, *count)?;
    }
    Ok(script)
}

/// Has connection 1 send bytes that are odd.
fn send_odd(script: &mut Script, alloc: Global) -> Result<(), AllocError> {
    for (bytes, answered) in &ODD {
        script.send(alloc, 1, bytes)?;
        script.read_all(alloc, answered)?;
    }
    Ok(())
}

/// The rows that are made, one of them with so many records.
pub(super) fn long_scripts(alloc: Global, count: u64) -> Result<Vec<Script>, AllocError> {
    let mut scripts = Vec::new(alloc);
    scripts.push(many_records(alloc, count)?)?;
    scripts.push(deep_sessions(alloc)?)?;
    scripts.push(odd_lines(alloc)?)?;
    Ok(scripts)
}
