//! The whole body.
ghost use Rattle.rb_body.specs.Bodies.{said_of, run_body, value_in, Reads};
ghost use Rattle.serde_json.specs.View.{view};
ghost use Rattle.std.specs.Prelude.{◌≡◌, IfOk, Some, None, Err};

use crate::members::{is_absent, options_at, string_at};
use crate::parts::{BodyErr, RunBody};
use serde_json::Value;
use std::alloc::Global;

/// The value that bytes stand for: they are a text, and JSON is read in it.
fn value_in(alloc: Global, bytes: &[u8]) -> Result<Value, BodyErr>
    ensures ok { IfOk result (λ value. value_in bytes.now ≡ Some (view value)) }
    ensures bad { result ≡ Err BodyErr.BadBody → value_in bytes.now ≡ None }
{
    match Value::from_slice(alloc, bytes) {
        Ok(value) => Ok(value),
        Err(error) => {
            if error.is_memory() {
                Err(BodyErr::NoMemory)
            } else {
                Err(BodyErr::BadBody)
            }
        }
    }
}

/// What an object says. A run is not asked for in another's name, nor for later; other keys are
/// passed over.
fn said_by(alloc: Global, object: &Value) -> Result<RunBody, BodyErr>
    ensures { Reads (said_of (view object.now)) result }
{
    if !is_absent(object, "asUser") || !is_absent(object, "runAtTime") {
        return Err(BodyErr::BadBody);
    }
    let options = options_at(alloc, object)?;
    let args = string_at(alloc, object, "argString")?;
    let filter = string_at(alloc, object, "filter")?;
    Ok(RunBody {
        options,
        args,
        filter,
    })
}

/// What a body says: nothing where it is empty, and else it has to be an object.
pub fn run_body(alloc: Global, bytes: &[u8]) -> Result<RunBody, BodyErr>
    ensures { Reads (run_body bytes.now) result }
{
    if bytes.is_empty() {
        return Ok(RunBody {
            options: None,
            args: None,
            filter: None,
        });
    }
    let value = value_in(alloc, bytes)?;
    if value.is_object() {
        said_by(alloc, &value)
    } else {
        Err(BodyErr::BadBody)
    }
}
