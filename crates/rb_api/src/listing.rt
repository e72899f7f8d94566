//! Lists of what is shown, as JSON.
ghost use Rattle.rb_reply.specs.Listing.{list_data};
ghost use Rattle.serde_json.specs.Data.{Data};
ghost use Rattle.serde_json.specs.View.{view};
ghost use Rattle.std.specs.Prelude.{◌≡◌, IfOk};

use rb_causes::NoMemory;
use serde_json::Value;
use std::alloc::Global;

/// What is shown as a JSON value of its own.
pub(crate) trait Shows {
    /// The value that stands for it.
    ghost as_json: { Self → Data };

    fn value(&self, alloc: Global) -> Result<Value, NoMemory>
        ensures { IfOk result (λ value. view value ≡ as_json self.now) };
}

/// All of these, in their order.
pub(crate) fn list_value<T: Shows>(alloc: Global, items: &[T]) -> Result<Value, NoMemory>
    ensures { IfOk result (λ value. view value ≡ list_data T.as_json items.now) }
{
    let mut values = Vec::new(alloc);
    for item in items {
        values.push(item.value(alloc)?)?;
    }
    Ok(Value::Array(values))
}
