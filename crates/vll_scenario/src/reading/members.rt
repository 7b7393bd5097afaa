//! The members of a JSON object: whether it has those that it has to have, and their values.
ghost use Rattle.std.specs.Prelude.{◌≡◌, List, IfOk, IfErr, map};
ghost use Rattle.std.specs.List.{list_any};
ghost use Rattle.std.specs.Str.{bytes_eq};
ghost use Rattle.serde_json.specs.Data.{null};
ghost use Rattle.serde_json.specs.View.{members_view, view};
ghost use Rattle.vll_scenario.specs.Syntax.{has_all, has_exactly, has_members, has_only, member_at};
ghost use Rattle.vll_scenario.specs.declared.reading.tree.Misread.TheVariants as Misread;

use crate::reading::tree::Misread;
use serde_json::{Map, Value};

/// Whether a value is an object with these members and no others.
pub fn has_exactly(value: &Value, names: &[&str]) -> bool
    ensures { result ≡ has_exactly (map (λ s. s.now) names.now) (view value.now) }
{
    has_members(value, names, names)
}

/// Whether a value is an object that has all members in `must`, and none outside `may`.
pub fn has_members<'n>(value: &Value, must: &[&'n str], may: &[&'n str]) -> bool
    ensures { result ≡ has_members (map (λ s. s.now) must.now) (map (λ s. s.now) may.now) (view value.now) }
{
    match value {
        Value::Object(members) => has_all(members, must) && has_only(members, may),
        _ => false,
    }
}

fn has_all(members: &Map<String, Value>, names: &[&str]) -> bool
    ensures { result ≡ has_all (map (λ s. s.now) names.now) (members_view members.now.entries) }
{
    names.iter().all(|name| members.contains_key(*name))
}

fn has_only(members: &Map<String, Value>, names: &[&str]) -> bool
    ensures { result ≡ has_only (map (λ s. s.now) names.now) (members_view members.now.entries) }
{
    members.keys().all(|key| is_one_of(key.as_str(), names))
}

fn is_one_of(name: &str, names: &[&str]) -> bool
    ensures { result ≡ list_any (bytes_eq name.now) (map (λ s. s.now) names.now) }
{
    names.iter().any(|other| name == *other)
}

// The value of a member. An absent member is faulty, as `null` is.
pub fn member<'v>(value: &'v Value, name: &str) -> Result<&'v Value, Misread>
    ensures ok { IfOk result (λ v. member_at name.now (view value.now) ≡ view v.now) }
    ensures err { IfErr result (λ e. (e ≡ Misread.Faulty) × (member_at name.now (view value.now) ≡ null)) }
{
    value.get(name).ok_or(Misread::Faulty)
}
