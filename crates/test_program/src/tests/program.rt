//! The program by its words: its options, schemas from files, and how it ends.
use super::serving::ended;
use mi_program::{WordsFault, read_words};
use std::alloc::{AllocError, Global};
use std::fs;
use std::net::{Ipv4Addr, TcpListener};
use std::process::Abort;
use std::test::Fail;

/// The files that the tests write and read, one for each test.
const FILE: &str = "mi_server_checked.toml";

const LONG_FILE: &str = "mi_server_long.toml";

const OTHER_FILE: &str = "mi_server_served.toml";

/// How a run ends, and what it writes on the output and on the third stream.
struct Ending {
    status: u8,
    output: &'static str,
    errors: &'static str,
}

/// One table of one column.
const ONE: &str = r#"table = "t"
column = [{name = "a", type = "int"}]
"#;

const TWO: &str = r#"format = 2
table = [
    {name = "a", column = [{name = "k", type = "int"}], index = [{name = "u", kind = "ordered", unique = true, key = ["k"]}]},
    {name = "b", first_id = 10, max_rows = 1, column = [{name = "t", type = "text"}]},
]
"#;

/// The table that is served without a schema, as a file.
const ACCOUNTS: &str = r#"table = "accounts"
column = [{name = "owner", type = "text"}, {name = "balance", type = "int"}, {name = "vip", type = "flag"}]
index = [
    {name = "by_owner", kind = "hashed", unique = true, key = ["owner"]}, {name = "by_balance", kind = "ranked", key = ["balance"]},
    {name = "by_vip", kind = "hashed", key = ["vip"]}, {name = "by_class", kind = "ordered", key = ["-vip", "balance"]},
    {name = "line", kind = "sequenced"},
]
"#;

/// What `--check` makes of a file.
const CHECKED: &[(&str, Ending)] = &[
    (
        ACCOUNTS,
        Ending {
            status: 0,
            output: "ok\n",
            errors: "",
        },
    ),
    (
        ONE,
        Ending {
            status: 0,
            output: "ok\n",
            errors: "",
        },
    ),
    (
        r#"table = "t"
column = [{name = "id", type = "float"}]
"#,
        Ending {
            status: 3,
            output: "",
            errors: "schema: name\n",
        },
    ),
];

/// The rules between options are broken.
const RULES: Ending = Ending {
    status: 2,
    output: "",
    errors: "usage: --listen and --clients go together; --check stands alone\n",
};

/// Words that name no file that is there.
const CALLED: &[(&[&str], Ending)] = &[
    (&["mi_server", "--listen", "8000"], RULES),
    (
        &["mi_server", "--check", "--listen", "8000", "--clients", "1"],
        RULES,
    ),
    (
        &["mi_server", "--check"],
        Ending {
            status: 0,
            output: "ok\n",
            errors: "",
        },
    ),
    (
        &["mi_server"],
        Ending {
            status: 0,
            output: "",
            errors: "",
        },
    ),
    (
        &["mi_server", "--check", "--schema=mi_server_none.toml"],
        Ending {
            status: 3,
            output: "",
            errors: "schema: file\n",
        },
    ),
    (
        &["mi_server", "--help"],
        Ending {
            status: 2,
            output: "",
            errors: HELP,
        },
    ),
    (
        &["mi_server", "--what", "--check"],
        Ending {
            status: 2,
            output: "",
            errors: "error: unexpected argument '--what' found\n\nUsage: mi_server [OPTIONS]\n\nFor more information, try '--help'.\n",
        },
    ),
];

/// The parser's text of `--help`.
const HELP: &str = "Usage: mi_server [OPTIONS]

Options:
      --schema <FILE>  Reads the schema from this TOML file; without it the table `accounts` is served
      --check          Reads the schema alone and prints `ok`
      --listen <PORT>  Serves connections on this port of 127.0.0.1 in place of standard input
      --clients <K>    Serves this many connections, all of which come first
  -h, --help           Print help
";

/// The text of a file, commands and their replies.
struct Served {
    schema: &'static str,
    input: &'static str,
    output: &'static str,
}

const SERVED: [Served; 3] = [
    Served {
        schema: ACCOUNTS,
        input: r#"{"cmd":"insert","row":{"owner":"a","balance":5,"vip":true}}
{"cmd":"rank","index":"by_balance","id":0}
{"cmd":"list","index":"line","limit":1}
{"cmd":"count","index":"by_class","key":[true]}"#,
        output: r#"{"id":0,"ok":true}
{"ok":true,"rank":0}
{"more":false,"ok":true,"rows":[{"balance":5,"id":0,"owner":"a","vip":true}]}
{"count":1,"ok":true}
"#,
    },
    Served {
        schema: ONE,
        input: r#"{"cmd":"insert","row":{"a":5}}
{"cmd":"get","id":0,"table":"t"}"#,
        output: r#"{"id":0,"ok":true}
{"ok":true,"row":{"a":5,"id":0}}
"#,
    },
    Served {
        schema: TWO,
        input: r#"{"cmd":"insert","table":"b","row":{"t":"x"}}
{"cmd":"insert","table":"b","row":{"t":"y"}}
"#,
        output: r#"{"id":10,"ok":true}
{"error":"full","ok":false}
"#,
    },
];

/// How a run of the program on this input ends, and what it wrote.
fn called(rt: &HostRuntime, words: &[&str], input: &str) -> (u8, Vec<u8>, Vec<u8>) {
    let mut output = Vec::new(rt.alloc());
    let (status, errors) = ended(rt, words, input.as_bytes(), &mut output);
    (status, output, errors)
}

/// What of a run of the program with these words over no input isn't as it is wanted, if anything.
fn difference(rt: &HostRuntime, words: &[&str], want: &Ending) -> Option<&'static str> {
    let (status, output, errors) = called(rt, words, "");
    if status != want.status {
        Some("the status")
    } else if output.as_slice() != want.output.as_bytes() {
        Some("the output")
    } else if errors.as_slice() != want.errors.as_bytes() {
        Some("the third stream")
    } else {
        None
    }
}

#[test]
fn schemas_are_checked(rt: HostRuntime) -> Result<(), Fail> {
    for (text, want) in CHECKED {
        fs::write(&rt, FILE, *text)?;
        let words = ["mi_server", "--check", "--schema", FILE];
        assert_eq!(rt; difference(&rt, &words, want), None, "of {text}");
    }
    fs::remove_file(&rt, FILE)?;
    Ok(())
}

#[test]
fn words_are_judged(rt: HostRuntime) {
    for (words, want) in CALLED {
        assert_eq!(rt; difference(&rt, words, want), None, "of {words:?}");
    }
}

/// A schema of one column, and newlines up to this length.
fn padded(alloc: Global, length: usize) -> Result<String, AllocError> {
    let mut text = String::from_str(alloc, ONE)?;
    for _ in text.len()..length {
        text.push('\n')?;
    }
    Ok(text)
}

#[test]
fn long_schemas_are_refused(rt: HostRuntime) -> Result<(), Fail> {
    check_long(&rt, &rt, 65_536, 0)?;
    check_long(&rt, &rt, 65_537, 3)?;
    fs::remove_file(&rt, LONG_FILE)?;
    Ok(())
}

/// The check of a schema so long ends with this status.
fn check_long(rt: &impl Abort, host: &HostRuntime, length: usize, want: u8) -> Result<(), Fail> {
    let text = padded(host.alloc(), length)?;
    fs::write(host, LONG_FILE, text.as_str())?;
    let words = ["mi_server", "--check", "--schema", LONG_FILE];
    let (status, _, _) = called(host, &words, "");
    assert!(rt; status == want, "status {status} of {length} bytes");
    Ok(())
}

#[test]
fn schemas_are_served(rt: HostRuntime) -> Result<(), Fail> {
    for served in &SERVED {
        check_served(&rt, &rt, served)?;
    }
    fs::remove_file(&rt, OTHER_FILE)?;
    Ok(())
}

/// The program with a schema answers commands as it must.
fn check_served(rt: &impl Abort, host: &HostRuntime, served: &Served) -> Result<(), Fail> {
    fs::write(host, OTHER_FILE, served.schema)?;
    let words = ["mi_server", "--schema", OTHER_FILE];
    let (status, output, _) = called(host, &words, served.input);
    assert_eq!(rt; status, 0, "status of {}", served.schema);
    assert_eq!(rt;
        output.as_slice(),
        served.output.as_bytes(),
        "of {}",
        served.schema
    );
    Ok(())
}

/// The words of a check are read.
fn check_check(rt: &impl Abort, alloc: Global) {
    match read_words(alloc, &["mi_server", "--check"]) {
        Ok(options) => {
            assert!(rt; options.schema.is_none() && options.check && options.listen.is_none());
        }
        Err(_) => assert!(rt; false, "the words are the program's"),
    }
}

/// A port and a number of clients are read.
fn check_listen(rt: &impl Abort, alloc: Global) {
    match read_words(alloc, &["mi_server", "--listen", "8000", "--clients", "2"]) {
        Ok(options) => assert_eq!(rt; options.listen, Some((8000, 2))),
        Err(_) => assert!(rt; false, "the words are the program's"),
    }
}

/// Words break the rules between options.
fn check_rules(rt: &impl Abort, alloc: Global) {
    let alone = read_words(alloc, &["mi_server", "--listen", "8000"]);
    assert!(rt; matches!(alone, Err(WordsFault::Rules)));
}

/// A port or a number of clients is none.
fn check_wrong(rt: &impl Abort, alloc: Global, port: &str, clients: &str) {
    let words = ["mi_server", "--listen", port, "--clients", clients];
    let wrong = read_words(alloc, &words);
    assert!(rt; matches!(wrong, Err(WordsFault::Parse(_))));
}

#[test]
fn words_are_read(rt: HostRuntime) {
    check_check(&rt, rt.alloc());
    check_listen(&rt, rt.alloc());
    check_rules(&rt, rt.alloc());
    check_wrong(&rt, rt.alloc(), "0", "2");
    check_wrong(&rt, rt.alloc(), "65536", "2");
    check_wrong(&rt, rt.alloc(), "8000", "0");
    check_wrong(&rt, rt.alloc(), "8000", "65");
}

/// A port on which another listens already.
#[test]
fn taken_ports_are_refused(rt: HostRuntime) -> Result<(), Fail> {
    let taken = TcpListener::bind(&rt, (Ipv4Addr::LOCALHOST, 0))?;
    let port = format!(in rt.alloc(); "{}", taken.local_addr()?.port())?;
    let words = ["mi_server", "--listen", port.as_str(), "--clients", "1"];
    let (status, _, errors) = called(&rt, &words, "");
    assert_eq!(rt; status, 4);
    assert_eq!(rt; errors.as_slice(), b"fault: listen\n".as_slice());
    Ok(())
}
