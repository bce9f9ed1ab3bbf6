//! Two forms of the database beside one another: the same random lines, and every reply compared.
use super::damage::ask_damaged_lines;
use super::databases::{Opens, Served, opened};
use super::forms::filled;
use super::random::{CHANGES, READS, Random, TABLES, number_behind};
use mi_catalog::Catalog;
use mi_hub::{Hub, Watched};
use mi_plain::Plain;
use mi_schema::read_catalog;
use serde_json::Value as Json;
use std::alloc::{AllocError, Global};
use std::process::Abort;

/// Two hubs that are asked the same, each with connection 1.
#[derive(Drop)]
pub(super) struct Both<A: Opens, B: Opens> {
    one: Hub<A>,
    other: Hub<B>,
}

/// What connection 1 is answered.
fn reply<D: Opens>(rt: &impl Abort, alloc: Global, hub: &mut Hub<D>, line: &[u8]) -> String {
    let mut writer = Watched::new(Vec::new(alloc));
    hub.feed(1, line, &mut writer)
        .expect(rt, "a line is answered");
    let written = writer.inner().to_vec(alloc).expect(rt, "memory is there");
    String::from_utf8(written).expect(rt, "a reply is text")
}

/// A line as `serde_json` writes what it reads of it. What it refuses stays as it is, and so does a line that is too long.
fn written_anew(alloc: Global, line: &[u8]) -> Result<Vec<u8>, AllocError> {
    if line.len() > 65_536 {
        return line.to_vec(alloc);
    }
    match Json::from_slice(alloc, line) {
        Ok(value) => {
            let mut text = value.to_string(alloc)?;
            text.push_str("\n")?;
            Ok(text.into_bytes())
        }
        Err(_) => line.to_vec(alloc),
    }
}

/// A hub with connection 1 over the tables of a catalog.
fn attached<D: Opens>(rt: &impl Abort, alloc: Global, catalog: &Catalog) -> Hub<D> {
    let mut hub = opened(alloc, catalog).expect(rt, "memory is there");
    hub.attach(1).expect(rt, "a connection is attached");
    hub
}

/// A number as text.
fn digits(rt: &impl Abort, alloc: Global, number: u64) -> String {
    format!(in alloc; "{number}").expect(rt, "memory is there")
}

impl<A: Opens, B: Opens> Both<A, B> {
    fn open(rt: &impl Abort, alloc: Global) -> Both<A, B> {
        let catalog = read_catalog(alloc, TABLES.as_bytes()).expect(rt, "a catalog is read");
        Both {
            one: attached(rt, alloc, &catalog),
            other: attached(rt, alloc, &catalog),
        }
    }

    /// What both are answered to a line.
    pub(super) fn ask(&mut self, rt: &impl Abort, alloc: Global, line: &str) -> String {
        self.ask_bytes(rt, alloc, line.as_bytes())
    }

    /// The same for a line that may be no text. The first is asked it written anew, so all that means the same is answered alike.
    pub(super) fn ask_bytes(&mut self, rt: &impl Abort, alloc: Global, line: &[u8]) -> String {
        let anew = written_anew(alloc, line).expect(rt, "memory is there");
        let got = reply(rt, alloc, &mut self.one, anew.as_slice());
        let want = reply(rt, alloc, &mut self.other, line);
        assert_eq!(rt; got.as_str(), want.as_str(), "to {line:?}");
        got
    }

    /// Has the ids of both tables seen.
    pub(super) fn look(&mut self, rt: &impl Abort, alloc: Global, random: &mut Random) {
        for table in ["a", "b"] {
            let page = self.ask_form(rt, alloc, IDS, table, "");
            random
                .see(alloc, table == "b", page.as_str())
                .expect(rt, "memory is there");
        }
    }

    /// Asks a random line of these forms.
    fn ask_random(
        &mut self,
        rt: &impl Abort,
        alloc: Global,
        random: &mut Random,
        forms: &[(u64, &'static str)],
    ) -> String {
        let line = random.line(alloc, forms).expect(rt, "memory is there");
        self.ask(rt, alloc, line.as_str())
    }

    /// Asks so many random lines that change, start or end, and reads between them.
    fn run(&mut self, rt: &impl Abort, alloc: Global, seed: u64, steps: u64) {
        let mut random = Random::new(alloc, seed);
        for step in 0..steps {
            if step % 100 == 0 {
                self.look(rt, alloc, &mut random);
            }
            if random.below(3) == 0 {
                let _ = self.ask_random(rt, alloc, &mut random, &READS);
            }
            let reply = self.ask_random(rt, alloc, &mut random, &CHANGES);
            random.hear(reply.as_str());
        }
    }

    /// Asks for every view of both tables: each index from both ends, the record of each rank, its ranks, and each hashed key.
    fn view(&mut self, rt: &impl Abort, alloc: Global) {
        for table in ["a", "b"] {
            self.ask_forms(rt, alloc, &LISTS, table, "");
            self.view_ranks(rt, alloc, table);
            self.view_keys(rt, alloc, table);
        }
    }

    /// Both answer random lines alike, and show the same at the end, with sessions open and after undo_all; then the next ids
    /// are the same too.
    fn compare(&mut self, rt: &impl Abort, alloc: Global, seed: u64) {
        self.run(rt, alloc, seed, STEPS);
        self.view(rt, alloc);
        let _ = self.ask(rt, alloc, "{\"cmd\":\"undo_all\"}\n");
        self.view(rt, alloc);
        for table in ["a", "b"] {
            self.ask_forms(rt, alloc, &INSERT, table, "99");
        }
    }

    /// Both answer damaged lines alike, and show the same at the end.
    fn compare_damaged(&mut self, rt: &impl Abort, alloc: Global, seed: u64) {
        ask_damaged_lines(rt, alloc, self, seed, STEPS);
        self.view(rt, alloc);
    }

    /// Asks a line of a form of a table, with a value.
    fn ask_form(
        &mut self,
        rt: &impl Abort,
        alloc: Global,
        form: &str,
        table: &str,
        value: &str,
    ) -> String {
        let line = filled(alloc, form, table, value).expect(rt, "memory is there");
        self.ask(rt, alloc, line.as_str())
    }

    /// Asks lines of these forms of a table, with a value.
    fn ask_forms(
        &mut self,
        rt: &impl Abort,
        alloc: Global,
        forms: &[&str],
        table: &str,
        value: &str,
    ) {
        for form in forms {
            let _ = self.ask_form(rt, alloc, form, table, value);
        }
    }

    /// Asks for the record of each rank, and about it.
    fn view_ranks(&mut self, rt: &impl Abort, alloc: Global, table: &str) {
        for n in 0..300u64 {
            let place = digits(rt, alloc, n);
            let reply = self.ask_form(rt, alloc, NTH, table, place.as_str());
            if !self.ask_each(rt, alloc, table, reply.as_str(), &OF_RECORD) {
                break;
            }
        }
    }

    /// Asks for the records of each hashed key.
    fn view_keys(&mut self, rt: &impl Abort, alloc: Global, table: &str) {
        for key in &KEYS {
            self.view_key(rt, alloc, table, key);
        }
    }

    /// Asks lines about the record that a reply shows, if it does; answers whether it does.
    fn ask_each(
        &mut self,
        rt: &impl Abort,
        alloc: Global,
        table: &str,
        reply: &str,
        forms: &[&str],
    ) -> bool {
        let Some(id) = number_behind(reply, "\"id\":") else {
            return false;
        };
        let id = digits(rt, alloc, id);
        self.ask_forms(rt, alloc, forms, table, id.as_str());
        true
    }

    /// In a session that is undone, erases the first record of a hashed key until it has none, so that the order of its records shows.
    fn view_key(&mut self, rt: &impl Abort, alloc: Global, table: &str, key: &str) {
        let find = filled(alloc, FIND, table, key).expect(rt, "memory is there");
        let _ = self.ask(rt, alloc, "{\"cmd\":\"start\"}\n");
        for _ in 0..300 {
            let reply = self.ask(rt, alloc, find.as_str());
            if !self.ask_each(rt, alloc, table, reply.as_str(), &ERASE) {
                break;
            }
        }
        let _ = self.ask(rt, alloc, "{\"cmd\":\"undo\"}\n");
    }
}

/// The ids of all records of a table.
const IDS: &str = r#"{"cmd":"range","table":"$t","index":"id"}"#;

const NTH: &str = r#"{"cmd":"nth","table":"$t","index":"i1","n":$i}"#;

const FIND: &str = r#"{"cmd":"find","table":"$t","index":"i2","key":[$i]}"#;

const ERASE: [&str; 1] = [r#"{"cmd":"erase","table":"$t","id":$i}"#];

const OF_RECORD: [&str; 4] = [
    r#"{"cmd":"get","table":"$t","id":$i}"#,
    r#"{"cmd":"rank","table":"$t","index":"id","id":$i}"#,
    r#"{"cmd":"rank","table":"$t","index":"i1","id":$i}"#,
    r#"{"cmd":"list","table":"$t","index":"i3","after":$i,"limit":2}"#,
];

const LISTS: [&str; 12] = [
    r#"{"cmd":"revision"}"#,
    r#"{"cmd":"size","table":"$t"}"#,
    IDS,
    r#"{"cmd":"range","table":"$t","index":"i1"}"#,
    r#"{"cmd":"range","table":"$t","index":"i4"}"#,
    r#"{"cmd":"range","table":"$t","index":"i5"}"#,
    r#"{"cmd":"range","table":"$t","index":"id","reverse":true}"#,
    r#"{"cmd":"range","table":"$t","index":"i1","reverse":true}"#,
    r#"{"cmd":"range","table":"$t","index":"i4","reverse":true}"#,
    r#"{"cmd":"range","table":"$t","index":"i5","reverse":true}"#,
    r#"{"cmd":"list","table":"$t","index":"i3"}"#,
    r#"{"cmd":"list","table":"$t","index":"i6"}"#,
];

/// The keys of the hashed index whose keys have many records, written in JSON.
const KEYS: [&str; 16] = [
    r#"false,"""#,
    r#"true,"""#,
    r#"false,"a""#,
    r#"true,"a""#,
    r#"false,"ab""#,
    r#"true,"ab""#,
    r#"false,"b""#,
    r#"true,"b""#,
    r#"false,"\u0001""#,
    r#"true,"\u0001""#,
    r#"false,"\\""#,
    r#"true,"\\""#,
    r#"false,"\u00e9""#,
    r#"true,"\u00e9""#,
    r#"false,"\ud83d\ude00""#,
    r#"true,"\ud83d\ude00""#,
];

/// A record of keys that no other has.
const INSERT: [&str; 1] = [
    r#"{"cmd":"insert","table":"$t","row":{"k":$i,"s":"new","f":true,"n":0}}"#,
];

/// As many random lines as both forms are asked by a seed.
const STEPS: u64 = 20_000;

/// Which lines both forms are asked.
#[derive(Clone, Copy)]
pub(super) enum Lines {
    Whole,
    Damaged,
}

/// Two forms answer lines of a seed alike.
fn check_both<A: Opens, B: Opens>(rt: &impl Abort, alloc: Global, lines: Lines, seed: u64) {
    let mut both = Both::<A, B>::open(rt, alloc);
    match lines {
        Lines::Whole => both.compare(rt, alloc, seed),
        Lines::Damaged => both.compare_damaged(rt, alloc, seed),
    }
}

/// The plain form and the one that is served answer lines of a seed alike.
pub(super) fn check_beside(rt: &impl Abort, alloc: Global, lines: Lines, seed: u64) {
    check_both::<Plain, Served>(rt, alloc, lines, seed);
}

#[test]
fn both_forms_answer_alike(rt: HostRuntime) {
    check_beside(&rt, rt.alloc(), Lines::Whole, 1);
}

#[test]
fn both_forms_answer_alike_by_a_second_seed(rt: HostRuntime) {
    check_beside(&rt, rt.alloc(), Lines::Whole, 2);
}

#[test]
fn both_forms_answer_alike_by_a_third_seed(rt: HostRuntime) {
    check_beside(&rt, rt.alloc(), Lines::Whole, 3);
}

#[test]
fn both_forms_answer_alike_by_a_fourth_seed(rt: HostRuntime) {
    check_beside(&rt, rt.alloc(), Lines::Whole, 4);
}

#[test]
fn both_forms_answer_alike_by_a_fifth_seed(rt: HostRuntime) {
    check_beside(&rt, rt.alloc(), Lines::Whole, 5);
}
