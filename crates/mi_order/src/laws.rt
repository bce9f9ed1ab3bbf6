//! Laws of orders, tags and hashes: each is the contract of a function that does nothing.
ghost use Rattle.mi_order.specs.Orders.{OrdersAreLawful, KeyingsAreLawful};
ghost use Rattle.mi_order.specs.Tags.{TagsOrderKeys, ExactTagsAreKeys, TagsOrderProbes, ExactTagsAreProbes};

/// Of two records the one with the smaller tag is less, by every key that begins with the tag's part.
pub fn tags_order_keys()
    ensures { TagsOrderKeys }
{}

/// Two records of one exact tag are equal by a key of its part alone.
pub fn exact_tags_are_keys()
    ensures { ExactTagsAreKeys }
{}

/// A key is greater than the records of a smaller tag than its own, and less than those of a greater one.
pub fn tags_order_probes()
    ensures { TagsOrderProbes }
{}

/// A value is the key of the records of its own tag, where that is exact.
pub fn exact_tags_are_probes()
    ensures { ExactTagsAreProbes }
{}

/// The orders of sorted indexes are total, their tags stand in the order of the keys, and what a probe answers rises
/// along them.
pub fn orders_are_lawful()
    ensures { OrdersAreLawful }
{}

/// To have one key in a hashed index is an equivalence, and equal keys and their probes have one hash.
pub fn keyings_are_lawful()
    ensures { KeyingsAreLawful }
{}
