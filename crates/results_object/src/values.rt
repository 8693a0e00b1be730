//! Texts, numbers and lists as values of JSON.
ghost use Rattle.std.specs.Prelude.{◌≡◌, map};
ghost use Rattle.line_text.specs.Decimals.{tenths_text};
ghost use Rattle.serde_json.specs.Data.{array};
ghost use Rattle.serde_json.specs.View.{view, items_of};
ghost use Rattle.results_object.specs.Values.{IsValue, text_data, count_data, number_data, percent_data};

use line_text::{hundredths_text, tenths_text};
use serde_json::Value;
use std::alloc::{AllocError, Global};

/// A text, or null where it would be empty.
pub fn text_value(alloc: Global, text: &str) -> Result<Value, AllocError>
    ensures { IsValue (text_data text.now) result }
{
    if text.is_empty() {
        return Ok(Value::Null);
    }
    Value::try_from_str(alloc, text)
}

/// A number that is not negative.
pub fn count_value(count: u8) -> Value
    ensures { view result ≡ count_data count }
{
    Value::from(count)
}

/// A number, or null.
pub fn number_value(number: Option<i32>) -> Value
    ensures { view result ≡ number_data number }
{
    match number {
        Some(found) => Value::from(found),
        None => Value::Null,
    }
}

/// A number of tenths with one decimal, as a text.
pub fn tenths_value(alloc: Global, tenths: u32) -> Result<Value, AllocError>
    ensures { IsValue (text_data (tenths_text tenths)) result }
{
    text_value(alloc, tenths_text(u64::from(tenths)).as_str())
}

/// A share in hundredths of a per cent as a percentage, or null.
pub fn percent_value(alloc: Global, hundredths: Option<u32>) -> Result<Value, AllocError>
    ensures { IsValue (percent_data hundredths) result }
{
    match hundredths {
        Some(found) => Value::try_from_str(alloc, hundredths_text(found).as_str()),
        None => Ok(Value::Null),
    }
}

/// A list.
pub fn list_value(list: Vec<Value>) -> Value
    ensures { view result ≡ array (items_of (map view list.items)) }
{
    Value::Array(list)
}
