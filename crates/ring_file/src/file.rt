//! The form of a problem file.

ghost use Rattle.std.specs.Prelude.{◌≡◌, MatchResult, option_map, string_bytes};
ghost use Rattle.std.specs.List.{list_all};
ghost use Rattle.std.specs.BTreeMap.{keys};
ghost use Rattle.serde_json.specs.View.{view, items_view};
ghost use Rattle.ring_file.specs.Files.{labels_of, triple_of, triple_of_list, list_of, products_in, gauge_in, has_name_form, has_only, is_file_name, checks, product_checks, entry_checks, IsShapeFault, IsFile};
ghost use Rattle.ring_file.specs.Named.{AreProducts, AreEntries, file_of};

use crate::problem::{Place, ProblemFault};
use crate::symbols::{NamedEntry, named_entry};
use fusion_ring::Triple;
use serde_json::{Map, Value};
use std::alloc::Global;

/// What a problem file states, before any of it is looked into.
#[derive(Drop)]
pub(crate) struct Outline<'a> {
    pub(crate) labels: u64,
    pub(crate) products: Vec<Triple>,
    pub(crate) gauge: Vec<NamedEntry<'a>>,
}

fn labels(value: &Value) -> Option<u64>
    ensures { result ≡ labels_of (view value.now) }
{
    value.get("labels").and_then(Value::as_u64)
}

fn triple_of_items(parts: &[Value]) -> Option<Triple>
    ensures { result ≡ triple_of_list (list_of (items_view parts.now)) }
{
    match parts {
        [a, b, c] => Some(Triple {
            a: a.as_u64()?,
            b: b.as_u64()?,
            c: c.as_u64()?,
        }),
        _ => None,
    }
}

fn triple(value: &Value) -> Option<Triple>
    ensures { result ≡ triple_of (view value.now) }
{
    let parts = value.as_array()?;
    triple_of_items(parts)
}

/// The products, or the first item that is none.
fn products(alloc: Global, items: &[Value]) -> Result<Vec<Triple>, ProblemFault>
    ensures { MatchResult result (λ v. AreProducts (list_of (items_view items.now)) v.items) (IsShapeFault (product_checks 0 (list_of (items_view items.now)))) }
{
    let mut products = Vec::new(alloc);
    'items: for item in items {
        match triple(item) {
            Some(triple) => products.push(triple)?,
            None => return Err(ProblemFault::Shape(Place::Product(products.len() as u64))),
        }
    }
    Ok(products)
}

/// The gauge entries, or the first item that is none.
fn entries<'a>(alloc: Global, items: &'a [Value]) -> Result<Vec<NamedEntry<'a>>, ProblemFault>
    ensures { MatchResult result (λ v. AreEntries (list_of (items_view items.now)) v.items) (IsShapeFault (entry_checks 0 (list_of (items_view items.now)))) }
{
    let mut entries = Vec::new(alloc);
    'items: for item in items {
        match named_entry(item) {
            Some(entry) => entries.push(entry)?,
            None => return Err(ProblemFault::Shape(Place::GaugeEntry(entries.len() as u64))),
        }
    }
    Ok(entries)
}

fn product_items(value: &Value) -> Option<&[Value]>
    ensures { option_map (λ s. list_of (items_view s.now)) result ≡ products_in (view value.now) }
{
    let items = value.get("products")?.as_array()?;
    Some(items)
}

fn gauge_items(value: &Value) -> Option<&[Value]>
    ensures { option_map (λ s. list_of (items_view s.now)) result ≡ gauge_in (view value.now) }
{
    match value.get("gauge") {
        None => Some(&[]),
        Some(gauge) => {
            let items = gauge.as_array()?;
            Some(items)
        }
    }
}

fn has_name_form(value: &Value) -> bool
    ensures { result ≡ has_name_form (view value.now) }
{
    match value.get("name") {
        None => true,
        Some(name) => name.is_string(),
    }
}

fn is_file_name(name: &str) -> bool
    ensures { result ≡ is_file_name name.now }
{
    name == "labels" || name == "products" || name == "gauge" || name == "name"
}

fn are_file_names(members: &Map<String, Value>) -> bool
    ensures { result ≡ list_all (λ k. is_file_name (string_bytes k)) (keys members.now) }
{
    members.keys().all(|name| is_file_name(name.as_str()))
}

fn has_file_names(value: &Value) -> bool
    ensures { result ≡ has_only is_file_name (view value.now) }
{
    match value.as_object() {
        Some(members) => are_file_names(members),
        None => false,
    }
}

/// What the file states, or the first place that has not its form.
pub(crate) fn read_outline(alloc: Global, value: &Value) -> Result<Outline<'_>, ProblemFault>
    ensures { MatchResult result (λ o. IsFile (view value.now) (file_of o)) (IsShapeFault (checks (view value.now))) }
{
    if !value.is_object() {
        return Err(ProblemFault::Shape(Place::Top));
    }
    let Some(labels) = labels(value) else {
        return Err(ProblemFault::Shape(Place::Labels));
    };
    let Some(items) = product_items(value) else {
        return Err(ProblemFault::Shape(Place::Products));
    };
    let products = match products(alloc, items) {
        Ok(products) => products,
        Err(fault) => return Err(fault),
    };
    let Some(items) = gauge_items(value) else {
        return Err(ProblemFault::Shape(Place::Gauge));
    };
    let gauge = match entries(alloc, items) {
        Ok(gauge) => gauge,
        Err(fault) => return Err(fault),
    };
    if !has_name_form(value) {
        return Err(ProblemFault::Shape(Place::Name));
    }
    if !has_file_names(value) {
        return Err(ProblemFault::Shape(Place::Member));
    }
    Ok(Outline {
        labels,
        products,
        gauge,
    })
}
