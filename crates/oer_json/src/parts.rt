//! Objects and arrays.
ghost use Rattle.std.specs.Prelude.{◌≡◌};
ghost use Rattle.serde_json.specs.View.{items_view, members_view, view};
ghost use Rattle.oer_model.specs.FitTest.{may_be_absent};
ghost use Rattle.oer_values.specs.ShapeView.{need_of};
ghost use Rattle.oer_values.specs.ValueView.{value_of, values_of};
ghost use Rattle.oer_json.specs.Answer.{IsSameOrMemory};
ghost use Rattle.oer_json.specs.Take.{items_in, members_in, one_member, sized};

use crate::fault::JsonFault;
use oer_types::{Need, Size, Value};
use serde_json::{Map, Value as Json};

/// The members of an object.
pub(crate) fn members_in(json: &Json) -> Result<&Map<String, Json>, JsonFault>
    ensures { IsSameOrMemory (λ m. members_view m.now.entries) result (members_in (view json.now)) }
{
    match json.as_object() {
        Some(members) => Ok(members),
        None => Err(JsonFault::Kind),
    }
}

/// The items of an array.
pub(crate) fn items_in(json: &Json) -> Result<&[Json], JsonFault>
    ensures { IsSameOrMemory (λ v. items_view v.now) result (items_in (view json.now)) }
{
    match json.as_array() {
        Some(items) => Ok(items),
        None => Err(JsonFault::Kind),
    }
}

/// The one member of an object.
#[tactic(auto, unfolding(crate::specs::Take::one_member))]
pub(crate) fn one_member(json: &Json) -> Result<(&str, &Json), JsonFault>
    ensures { IsSameOrMemory (λ p. (p.0.now, view p.1.now)) result (one_member (view json.now)) }
{
    let members = members_in(json)?;
    if members.len() != 1 {
        return Err(JsonFault::Kind);
    }
    match members.first_key_value() {
        Some((key, json)) => Ok((key.as_str(), json)),
        None => unreachable!(),
    }
}

/// The values, if the size allows so many.
pub(crate) fn sized(size: Size, values: Vec<Value>) -> Result<Value, JsonFault>
    ensures { IsSameOrMemory value_of result (sized size (values_of values.items)) }
{
    if !size.allows(values.len() as u128) {
        return Err(JsonFault::Misfit);
    }
    Ok(Value::List(values))
}

/// Whether the component may be absent.
pub(crate) fn may_be_absent(need: &Need) -> bool
    ensures { result ≡ may_be_absent (need_of need.now) }
{
    !matches!(need, Need::Must)
}
