//! Query: a clause sees the pairs of names and values that a query has, decoded and in order.

ghost use Rattle.std.specs.Prelude.{◌≡◌, map, option_map, IfOk};
ghost use Rattle.law_http.specs.Queries as spec;

use desk_base::Memory;
use std::alloc::Global;
use std::marker::Model;

/// A name and its value.
#[derive(Debug, Drop)]
struct Pair {
    name: String,
    value: String,
}

/// The pairs of a query, in the form of `application/x-www-form-urlencoded` (URL Standard, section 5).
#[derive(Debug, Drop)]
pub struct Query {
    pairs: Vec<Pair>,
}

impl Model for Query {
    ghost use Rattle.std.specs.Prelude.{ℕ, List, map};
    ghost use Rattle.law_http.specs.Queries.{pair_view};

    ghost Value = { List (List ℕ × List ℕ) };

    ghost view = { λ q. map pair_view q.pairs.items };
}

fn pairs_of(alloc: Global, text: &str) -> Result<Vec<Pair>, Memory>
    ensures { IfOk result (λ pairs. map spec.pair_view pairs.items ≡ spec.query_pairs text.now) }
{
    let mut pairs = Vec::new(alloc);
    for pair in form_urlencoded::parse(alloc, text.as_bytes()) {
        let (name, value) = pair?;
        pairs.push(Pair {
            name: name.into_owned(alloc)?,
            value: value.into_owned(alloc)?,
        })?;
    }
    Ok(pairs)
}

// How often a name is there.
fn count_of(pairs: &[Pair], name: &str) -> usize
    ensures { result ≡ spec.count_of name.now (map spec.pair_view pairs.now) }
{
    let mut count = 0;
    for pair in pairs {
        if pair.name.as_str() == name {
            count += 1;
        }
    }
    count
}

fn is_among(names: &[&str], name: &str) -> bool
    ensures { result ≡ spec.is_among (map (λ n. n.now) names.now) name.now }
{
    for other in names {
        if *other == name {
            return true;
        }
    }
    false
}

// Whether each name is among these.
fn has_no_other(pairs: &[Pair], names: &[&str]) -> bool
    ensures { result ≡ spec.has_no_other (map (λ n. n.now) names.now) (map spec.pair_view pairs.now) }
{
    for pair in pairs {
        if !is_among(names, pair.name.as_str()) {
            return false;
        }
    }
    true
}

// Whether none of these names is there twice.
fn has_none_twice(pairs: &[Pair], names: &[&str]) -> bool
    ensures { result ≡ spec.has_none_twice (map (λ n. n.now) names.now) (map spec.pair_view pairs.now) }
{
    for name in names {
        if count_of(pairs, name) > 1 {
            return false;
        }
    }
    true
}

fn first_value<'p>(pairs: &'p [Pair], name: &str) -> Option<&'p str>
    ensures { option_map (λ v. v.now) result ≡ spec.value_of name.now (map spec.pair_view pairs.now) }
{
    for pair in pairs {
        if pair.name.as_str() == name {
            return Some(pair.value.as_str());
        }
    }
    None
}

impl Query {
    /// The pairs that a query spells. A value that is not UTF-8 has replacement characters.
    pub fn from_text(alloc: Global, text: &str) -> Result<Query, Memory>
        ensures { IfOk result (λ query. query ≡ spec.query_pairs text.now) }
    {
        Ok(Query {
            pairs: pairs_of(alloc, text)?,
        })
    }

    /// Whether each of its names is among these, and none of them is there twice.
    pub fn has_keys(&self, names: &[&str]) -> bool
        ensures { result ≡ spec.has_keys (map (λ n. n.now) names.now) self.now }
    {
        has_no_other(&self.pairs, names) && has_none_twice(&self.pairs, names)
    }

    /// The value of the first pair of this name.
    pub fn value(&self, name: &str) -> Option<&str>
        ensures { option_map (λ v. v.now) result ≡ spec.value_of name.now self.now }
    {
        first_value(&self.pairs, name)
    }
}
