//! Symbols and gauge entries as a file names them.

ghost use Rattle.std.specs.Prelude.{◌≡◌, option_map, codes, string_bytes};
ghost use Rattle.std.specs.List.{list_all};
ghost use Rattle.std.specs.BTreeMap.{keys};
ghost use Rattle.serde_json.specs.View.{view, items_view};
ghost use Rattle.ring_file.specs.Files.{is_text, list_of, f_symbol_of, r_symbol_of, symbol_of, has_only, is_entry_name, entry_of};
ghost use Rattle.ring_file.specs.Named.{named_symbol, written_entry};

use serde_json::{Map, Value};

/// An F or an R with labels of any size.
#[derive(Clone, Copy)]
pub(crate) enum Named {
    F {
        a: u64,
        b: u64,
        c: u64,
        d: u64,
        e: u64,
        f: u64,
    },
    R {
        a: u64,
        b: u64,
        c: u64,
    },
}

/// A gauge entry of the file: its symbol, and the text of its value.
#[derive(Clone, Copy)]
pub(crate) struct NamedEntry<'a> {
    pub(crate) symbol: Named,
    pub(crate) value: &'a str,
}

fn is_text(value: &Value, text: &str) -> bool
    ensures { result ≡ is_text text.now (view value.now) }
{
    match value.as_str() {
        Some(found) => found == text,
        None => false,
    }
}

fn f_symbol(parts: &[Value]) -> Option<Named>
    ensures { option_map named_symbol result ≡ f_symbol_of (list_of (items_view parts.now)) }
{
    match parts {
        [kind, a, b, c, d, e, f] if is_text(kind, "F") => Some(Named::F {
            a: a.as_u64()?,
            b: b.as_u64()?,
            c: c.as_u64()?,
            d: d.as_u64()?,
            e: e.as_u64()?,
            f: f.as_u64()?,
        }),
        _ => None,
    }
}

fn r_symbol(parts: &[Value]) -> Option<Named>
    ensures { option_map named_symbol result ≡ r_symbol_of (list_of (items_view parts.now)) }
{
    match parts {
        [kind, a, b, c] if is_text(kind, "R") => Some(Named::R {
            a: a.as_u64()?,
            b: b.as_u64()?,
            c: c.as_u64()?,
        }),
        _ => None,
    }
}

fn symbol(value: &Value) -> Option<Named>
    ensures { option_map named_symbol result ≡ symbol_of (view value.now) }
{
    let parts = value.as_array()?;
    match f_symbol(parts) {
        Some(named) => Some(named),
        None => r_symbol(parts),
    }
}

fn is_entry_name(name: &str) -> bool
    ensures { result ≡ is_entry_name name.now }
{
    name == "symbol" || name == "value"
}

fn are_entry_names(members: &Map<String, Value>) -> bool
    ensures { result ≡ list_all (λ k. is_entry_name (string_bytes k)) (keys members.now) }
{
    members.keys().all(|name| is_entry_name(name.as_str()))
}

fn has_entry_names(value: &Value) -> bool
    ensures { result ≡ has_only is_entry_name (view value.now) }
{
    match value.as_object() {
        Some(members) => are_entry_names(members),
        None => false,
    }
}

/// The gauge entry that a value of the file is, where it has the form of one.
pub(crate) fn named_entry(value: &Value) -> Option<NamedEntry<'_>>
    ensures { option_map written_entry result ≡ entry_of (view value.now) }
{
    if !has_entry_names(value) {
        return None;
    }
    let symbol = symbol(value.get("symbol")?)?;
    let value = value.get("value")?.as_str()?;
    Some(NamedEntry { symbol, value })
}
