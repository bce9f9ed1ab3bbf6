//! A JSON array, seen by contracts as its items. It lends them, and copies none.
use mi_tokens::Json;
use std::marker::Model;

/// A JSON array, seen as what its items mean.
#[derive(Drop)]
pub struct Array<'a> {
    items: &'a [Json<'a>],
}

impl<'a> Model for Array<'a> {
    ghost use Rattle.serde_json.specs.Data.{Items};
    ghost use Rattle.mi_tokens.specs.Meaning.{items_meaning};
    ghost use Rattle.mi_request.specs.ObjectCode.{items_code};

    ghost Value = { Items };

    ghost coded = { items_code };

    ghost view = { λ a. items_meaning a.items.now };
}

impl<'a> Array<'a> {
    ghost use Rattle.std.specs.Prelude.{◌≡◌};
    ghost use Rattle.mi_tokens.specs.Meaning.{items_meaning};

    /// The array of these items.
    #[inline(always)]
    pub(crate) fn new(items: &'a [Json<'a>]) -> Array<'a>
        ensures { result ≡ items_meaning items.now }
    {
        Array { items }
    }

    /// Its items in order.
    #[inline(always)]
    pub fn items(&self) -> &'a [Json<'a>]
        ensures { items_meaning result.now ≡ self.now }
    {
        self.items
    }
}
