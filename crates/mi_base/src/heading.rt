//! The heading of a base, and the numbers in front of a table's rows, as values of JSON and back. It reads and writes no stream.
ghost use Rattle.std.specs.Prelude.{◌≡◌, IfOk, option_map, option_and_then};
ghost use Rattle.serde_json.specs.Find.{get, as_number, as_u64, as_str};
ghost use Rattle.serde_json.specs.View.{view};
ghost use Rattle.mi_base.specs.Base.{digits_data};

use serde_json::{Value, json};
use std::alloc::{AllocError, Global};

/// What the first line of a base says: behind which line of which segment it stands.
#[derive(Debug, Drop)]
pub struct Heading {
    /// The schema's fingerprint: 64 hexadecimal digits.
    pub schema: String,
    /// The database's revision there.
    pub revision: u64,
    /// The number of the segment, from 1.
    pub segment: u64,
    /// How many lines of the segment are in the base, without its header.
    pub line: u64,
    /// The SHA-256 of the segment's header without its newline: 64 hexadecimal digits.
    pub sum: String,
}

/// The numbers of a table: its counters, and how many rows it has.
#[derive(Clone, Copy)]
pub(crate) struct Head {
    pub(crate) arrivals: u64,
    pub(crate) next: u64,
    pub(crate) rows: u64,
}

/// The number that a member is, if it is there.
fn number_in(value: &Value, name: &str) -> Option<u64>
    ensures { result ≡ option_and_then as_u64 (option_and_then as_number (get name.now (view value.now))) }
{
    value.get(name)?.as_u64()
}

/// The text that a member is, if it is there.
fn text_in<'a>(value: &'a Value, name: &str) -> Option<&'a str>
    ensures { option_map (λ s. s.now) result ≡ option_and_then as_str (get name.now (view value.now)) }
{
    value.get(name)?.as_str()
}

impl Heading {
    ghost use Rattle.std.specs.Prelude.{◌≡◌, IfOk, IfSome, IsSome};
    ghost use Rattle.serde_json.specs.View.{view};
    ghost use Rattle.mi_base.specs.Base.{heading_data};

    /// The heading as JSON.
    #[tactic(auto, unfolding(crate::specs::Base::heading_data))]
    pub(crate) fn to_value(&self, alloc: Global) -> Result<Value, AllocError>
        ensures { IfOk result (λ v. view v ≡ heading_data self.now) }
    {
        json!(in alloc; {
            "base": 1,
            "line": self.line,
            "revision": self.revision,
            "schema": self.schema.as_str(),
            "segment": self.segment,
            "sum": self.sum.as_str()
        })
    }

    /// The heading that a value is, if its members are there.
    #[tactic(auto, unfolding(crate::specs::Base::heading_data))]
    pub(crate) fn of(alloc: Global, value: &Value) -> Result<Option<Heading>, AllocError>
        ensures { IfOk result (λ found. (h : Heading) → view value.now ≡ heading_data h → IsSome found × IfSome found (λ g. heading_data g ≡ heading_data h)) }
    {
        let (Some(schema), Some(sum)) = (text_in(value, "schema"), text_in(value, "sum")) else {
            return Ok(None);
        };
        let (Some(revision), Some(segment), Some(line)) = (
            number_in(value, "revision"),
            number_in(value, "segment"),
            number_in(value, "line"),
        ) else {
            return Ok(None);
        };
        Ok(Some(Heading {
            schema: String::from_str(alloc, schema)?,
            revision,
            segment,
            line,
            sum: String::from_str(alloc, sum)?,
        }))
    }
}

impl Head {
    ghost use Rattle.std.specs.Prelude.{◌≡◌, IfOk, Some, ℕ, List};
    ghost use Rattle.serde_json.specs.View.{view};
    ghost use Rattle.mi_base.specs.Base.{head_data};

    /// The line in front of the rows of the table of this name, as JSON.
    #[tactic(auto, unfolding(crate::specs::Base::head_data))]
    pub(crate) fn to_value(self, alloc: Global, name: &str) -> Result<Value, AllocError>
        ensures { IfOk result (λ v. view v ≡ head_data name.now self) }
    {
        json!(in alloc; {
            "arrivals": self.arrivals,
            "next": self.next,
            "rows": self.rows,
            "table": name
        })
    }

    /// The numbers that a value has, if they are there.
    #[tactic(auto, unfolding(crate::specs::Base::head_data))]
    pub(crate) fn of(value: &Value) -> Option<Head>
        ensures { (name : List ℕ) (h : Head) → view value.now ≡ head_data name h → result ≡ Some h }
    {
        Some(Head {
            arrivals: number_in(value, "arrivals")?,
            next: number_in(value, "next")?,
            rows: number_in(value, "rows")?,
        })
    }
}

/// The digest of what stands in front, as JSON.
#[tactic(auto, unfolding(crate::specs::Base::digits_data))]
pub(crate) fn digest_value(alloc: Global, digest: &[u8; 32]) -> Result<Value, AllocError>
    ensures { IfOk result (λ v. view v ≡ digits_data digest.now) }
{
    let digits = hex::encode(alloc, digest.as_slice())?;
    json!(in alloc; {"sha256": digits.as_str()})
}
