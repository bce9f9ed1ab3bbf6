//! Random command lines, the same for the same seed.
use std::alloc::{AllocError, Global};

/// Two tables with every kind of index, unique and not, keys of several parts, and parts that descend. Either has room for few
/// more rows than it mostly holds.
pub(super) const TABLES: &str = r#"format = 2

[[table]]
name = "a"
max_rows = 260
column = [{name = "k", type = "int"}, {name = "s", type = "text"}, {name = "f", type = "flag"}, {name = "n", type = "int"}]
index = [
    {name = "i0", kind = "hashed", unique = true, key = ["k", "s"]},
    {name = "i1", kind = "ranked", key = ["-s", "n"]},
    {name = "i2", kind = "hashed", key = ["f", "s"]},
    {name = "i3", kind = "sequenced"},
    {name = "i4", kind = "ordered", unique = true, key = ["f", "-k", "s", "n"]},
    {name = "i5", kind = "ordered", key = ["-k"]},
]

[[table]]
name = "b"
first_id = 7
max_rows = 160
column = [{name = "k", type = "int"}, {name = "s", type = "text"}, {name = "f", type = "flag"}, {name = "n", type = "int"}]
index = [
    {name = "i0", kind = "hashed", key = ["k", "s"]},
    {name = "i1", kind = "ranked", unique = true, key = ["-s", "k"]},
    {name = "i2", kind = "hashed", key = ["f", "s"]},
    {name = "i3", kind = "sequenced"},
    {name = "i4", kind = "ordered", key = ["f", "-k", "s", "n"]},
    {name = "i5", kind = "ordered", key = ["-k"]},
    {name = "i6", kind = "sequenced"},
]
"#;

/// Forms of lines that change or end or begin a session, and how often each is asked. `$t` stands for a table, `$i` for an id,
/// `$k`, `$s`, `$f` and `$n` for a value of a column, `$q` for a sequenced index, `$r` for a revision, `$b` for true or false.
pub(super) const CHANGES: [(u64, &str); 20] = [
    (
        60,
        r#"{"cmd":"insert","table":"$t","row":{"k":$k,"s":"$s","f":$f,"n":$n}}"#,
    ),
    (
        6,
        r#"{"cmd":"insert","table":"$t","row":{"k":$k,"s":"$s","f":$f,"n":$n},"before":{"index":"i3","id":$i}}"#,
    ),
    (
        12,
        r#"{"cmd":"replace","table":"$t","id":$i,"row":{"k":$k,"s":"$s","f":$f,"n":$n}}"#,
    ),
    (
        4,
        r#"{"cmd":"modify","table":"$t","id":$i,"set":{"k":$k},"rollback":$b}"#,
    ),
    (
        4,
        r#"{"cmd":"modify","table":"$t","id":$i,"set":{"s":"$s","f":$f},"add":{"n":$n},"rollback":$b}"#,
    ),
    (3, r#"{"cmd":"modify","table":"$t","id":$i,"add":{"n":$n}}"#),
    (
        1,
        r#"{"cmd":"modify","table":"$t","id":$i,"set":{"n":9223372036854775807}}"#,
    ),
    (1, r#"{"cmd":"modify","table":"$t","id":$i}"#),
    (7, r#"{"cmd":"erase","table":"$t","id":$i}"#),
    (
        3,
        r#"{"cmd":"erase_key","table":"$t","index":"i0","key":[$k,"$s"]}"#,
    ),
    (
        2,
        r#"{"cmd":"erase_key","table":"$t","index":"i5","key":[$k]}"#,
    ),
    (
        1,
        r#"{"cmd":"erase_key","table":"$t","index":"i2","key":[$f,"$s"]}"#,
    ),
    (
        1,
        r#"{"cmd":"erase_key","table":"$t","index":"i4","key":[$f,$k,"$s",$n]}"#,
    ),
    (
        1,
        r#"{"cmd":"erase_key","table":"$t","index":"id","key":[$i]}"#,
    ),
    (
        7,
        r#"{"cmd":"relocate","table":"$t","index":"i3","id":$i,"before":$i}"#,
    ),
    (2, r#"{"cmd":"relocate","table":"$t","index":"$q","id":$i}"#),
    (8, r#"{"cmd":"start"}"#),
    (3, r#"{"cmd":"undo"}"#),
    (4, r#"{"cmd":"squash"}"#),
    (1, r#"{"cmd":"commit","revision":$r}"#),
];

/// Forms of lines that read. `$l` stands for a limit.
pub(super) const READS: [(u64, &str); 17] = [
    (2, r#"{"cmd":"revision"}"#),
    (3, r#"{"cmd":"get","table":"$t","id":$i}"#),
    (
        2,
        r#"{"cmd":"find","table":"$t","index":"i0","key":[$k,"$s"]}"#,
    ),
    (
        2,
        r#"{"cmd":"find","table":"$t","index":"i1","key":["$s"]}"#,
    ),
    (
        2,
        r#"{"cmd":"find","table":"$t","index":"i2","key":[$f,"$s"]}"#,
    ),
    (1, r#"{"cmd":"nth","table":"$t","index":"i1","n":$l}"#),
    (
        2,
        r#"{"cmd":"count","table":"$t","index":"i2","key":[$f,"$s"]}"#,
    ),
    (
        1,
        r#"{"cmd":"count","table":"$t","index":"i4","key":[$f,$k]}"#,
    ),
    (
        1,
        r#"{"cmd":"range","table":"$t","index":"i1","lower":{"ge":["$s"]},"upper":{"lt":["$s",$n]},"limit":$l,"reverse":$b}"#,
    ),
    (
        1,
        r#"{"cmd":"range","table":"$t","index":"i4","lower":{"gt":[$f,$k]},"limit":$l,"reverse":$b}"#,
    ),
    (
        1,
        r#"{"cmd":"range","table":"$t","index":"i5","upper":{"le":[$k]},"limit":$l}"#,
    ),
    (
        1,
        r#"{"cmd":"range","table":"$t","index":"id","lower":{"ge":[$i]},"limit":$l}"#,
    ),
    (
        2,
        r#"{"cmd":"list","table":"$t","index":"$q","after":$i,"limit":$l}"#,
    ),
    (1, r#"{"cmd":"rank","table":"$t","index":"i1","id":$i}"#),
    (
        1,
        r#"{"cmd":"lower_rank","table":"$t","index":"i1","key":["$s"]}"#,
    ),
    (
        1,
        r#"{"cmd":"upper_rank","table":"$t","index":"i1","key":["$s",$n]}"#,
    ),
    (1, r#"{"cmd":"size","table":"$t"}"#),
];

/// Texts, some of them with an escape, some of several bytes.
const TEXTS: [&str; 8] = ["", "a", "ab", "b", "\\u0001", "\\\\", "\u{e9}", "\u{1f600}"];

/// Numbers of the column that is added to.
const NUMBERS: [&str; 8] = ["-9", "-1", "0", "1", "2", "3", "5", "70"];

/// Random lines, and what they are to speak of: the ids that were seen last in each table, and the last revision.
#[derive(Drop)]
pub(super) struct Random {
    state: u64,
    ids: Vec<u64>,
    others: Vec<u64>,
    is_other: bool,
    revision: u64,
}

impl Random {
    pub(super) fn new(alloc: Global, seed: u64) -> Random {
        Random {
            state: seed,
            ids: Vec::new(alloc),
            others: Vec::new(alloc),
            is_other: false,
            revision: 0,
        }
    }

    /// A number below n, by a linear congruential generator.
    pub(super) fn below(&mut self, n: u64) -> u64 {
        self.state = self
            .state
            .wrapping_mul(6_364_136_223_846_793_005)
            .wrapping_add(1_442_695_040_888_963_407);
        (self.state >> 33) % n.max(1)
    }

    /// One of these texts.
    fn one_of(&mut self, texts: &[&'static str]) -> &'static str {
        let at = self.below(texts.len() as u64) as usize;
        texts.get(at).copied().unwrap_or("")
    }

    /// One of these forms, as often as they say.
    fn form(&mut self, forms: &[(u64, &'static str)]) -> &'static str {
        let mut left = self.below(total(forms));
        for (often, form) in forms {
            match left.checked_sub(*often) {
                Some(less) => left = less,
                None => return form,
            }
        }
        ""
    }

    /// Mostly an id that was seen in the table that was named last.
    fn id(&mut self) -> u64 {
        let count = self.seen().len() as u64;
        let at = self.below(count) as usize;
        let is_seen = self.below(8) > 0;
        let other = self.below(4_000);
        match self.seen().get(at) {
            Some(id) if is_seen => *id,
            _ => other,
        }
    }

    /// The ids of the table that was named last.
    fn seen(&self) -> &[u64] {
        if self.is_other {
            self.others.as_slice()
        } else {
            self.ids.as_slice()
        }
    }

    /// Writes what a letter stands for.
    fn put(&mut self, line: &mut String, letter: u8) -> Result<(), AllocError> {
        match letter {
            b't' => line.push_str(self.table()),
            b's' => line.push_str(self.one_of(&TEXTS)),
            b'n' => line.push_str(self.one_of(&NUMBERS)),
            b'q' => line.push_str(self.one_of(&["i3", "i6"])),
            b'i' | b'k' | b'r' | b'l' => write!(line, "{}", self.number_for(letter)),
            _ => line.push_str(if self.below(2) == 0 { "true" } else { "false" }),
        }
    }

    /// Names a table.
    fn table(&mut self) -> &'static str {
        self.is_other = self.below(3) == 0;
        if self.is_other { "b" } else { "a" }
    }

    /// The number that a letter stands for.
    fn number_for(&mut self, letter: u8) -> u64 {
        match letter {
            b'i' => self.id(),
            b'k' => self.below(40),
            b'r' => self.revision.saturating_sub(self.below(6)),
            _ => self.below(20).saturating_add(1),
        }
    }

    /// A random line of these forms, and its newline.
    pub(super) fn line(
        &mut self,
        alloc: Global,
        forms: &[(u64, &'static str)],
    ) -> Result<String, AllocError> {
        let mut line = String::new(alloc);
        let mut is_letter = false;
        for byte in self.form(forms).bytes() {
            if is_letter {
                self.put(&mut line, byte)?;
                is_letter = false;
            } else if byte == b'$' {
                is_letter = true;
            } else {
                line.push(byte as char)?;
            }
        }
        line.push('\n')?;
        Ok(line)
    }

    /// Takes notice of the revision in a reply.
    pub(super) fn hear(&mut self, reply: &str) {
        if let Some(revision) = number_behind(reply, "\"revision\":") {
            self.revision = revision;
        }
    }

    /// Takes notice of the ids in a page of the first table, or of the other one.
    pub(super) fn see(
        &mut self,
        alloc: Global,
        is_other: bool,
        page: &str,
    ) -> Result<(), AllocError> {
        let seen = ids_in(alloc, page)?;
        if is_other {
            self.others = seen;
        } else {
            self.ids = seen;
        }
        Ok(())
    }
}

/// How often all of these forms are asked.
fn total(forms: &[(u64, &'static str)]) -> u64 {
    let mut all = 0u64;
    for (often, _) in forms {
        all = all.saturating_add(*often);
    }
    all
}

/// The ids of the records in a page.
fn ids_in(alloc: Global, page: &str) -> Result<Vec<u64>, AllocError> {
    let mut ids = Vec::new(alloc);
    for row in page.split("\"id\":") {
        if let Some(id) = number(row) {
            ids.push(id)?;
        }
    }
    Ok(ids)
}

/// The number that a text begins with.
fn number(text: &str) -> Option<u64> {
    text.split([',', '}']).next()?.parse().ok()
}

/// The number that stands directly behind a text.
pub(super) fn number_behind(text: &str, before: &str) -> Option<u64> {
    number(text.split_once(before)?.1)
}
