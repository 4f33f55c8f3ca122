//! The items of an array, each of one form.

ghost use Rattle.std.specs.Prelude.{◌≡◌, Bool, map, IfOk};
ghost use Rattle.std.specs.List.{list_all};
ghost use Rattle.toml.specs.Data.{Data};
ghost use Rattle.toml.specs.View.{view, items_view};
ghost use Rattle.design_table.specs.Forms.{list_of_items};

use std::alloc::{AllocError, Global};
use toml::Value;

/// A form of items, and what a value spells as one.
pub trait Item<'a>: Drop {
    /// What an item stands for.
    ghost Parsed: { Type 0 };

    /// What an item is seen as.
    ghost seen: { Self → Parsed };

    /// The form of a value.
    ghost has_form: { Data → Bool };

    /// What a value spells.
    ghost parsed: { Data → Parsed };

    /// Whether a value has the form.
    fn is_item(value: &Value) -> bool
        ensures { result ≡ has_form (view value.now) };

    /// The item that a value spells.
    fn item(alloc: Global, value: &'a Value) -> Result<Self, AllocError>
        ensures { IfOk result (λ item. seen item ≡ parsed (view value.now)) };
}

/// Whether each value of an array has the form.
pub fn are_items<'a, T: Item<'a>>(values: &[Value]) -> bool
    ensures { result ≡ list_all T.has_form (list_of_items (items_view values.now)) }
{
    for value in values {
        let is_item = T::is_item(value);
        if !is_item {
            return false;
        }
    }
    true
}

/// The items that the values of an array spell, in order.
pub fn items_of<'a, T: Item<'a>>(alloc: Global, values: &'a [Value]) -> Result<Vec<T>, AllocError>
    ensures { IfOk result (λ v. map T.seen v.items ≡ map T.parsed (list_of_items (items_view values.now))) }
{
    let mut items = Vec::new(alloc);
    for value in values {
        items.push(T::item(alloc, value)?)?;
    }
    Ok(items)
}
