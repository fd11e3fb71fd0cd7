//! The members of an object of JSON.
ghost use Rattle.std.specs.Prelude.{◌≡◌, ◌↔◌, IsTrue, map, option_map, Some};
ghost use Rattle.serde_json.specs.Find.{as_object};
ghost use Rattle.serde_json.specs.View.{view, members_view};
ghost use Rattle.dsa_tokens.specs.Spelled.{member_names, whole, ReadsAt};

use serde_json::{Map, Value};

/// Whether the value is an object with members of these names in this order, and no other member.
pub(crate) fn has_names(value: &Value, names: &[&str]) -> bool
    ensures { IsTrue result ↔ (option_map member_names
        (as_object (view value.now)) ≡ Some (map (λ name. name.now) names.now)) }
{
    match value.as_object() {
        Some(members) => are_named(members, names),
        None => false,
    }
}

/// Whether the members have these names, in this order, and no other.
fn are_named(members: &Map<String, Value>, names: &[&str]) -> bool
    ensures { IsTrue result ↔
        (member_names (members_view members.now.entries) ≡ map (λ name. name.now) names.now) }
{
    let mut keys = members.keys();
    for name in names {
        let Some(key) = keys.next() else {
            return false;
        };
        if key.as_str() != *name {
            return false;
        }
    }
    keys.next().is_none()
}

/// The whole number at a name.
pub(crate) fn number_at(value: &Value, name: &str) -> Option<u64>
    ensures { ReadsAt name.now whole (λ n. n) (view value.now) result }
{
    match value.get(name) {
        Some(found) => found.as_u64(),
        None => None,
    }
}
