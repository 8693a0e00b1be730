//! An object of JSON that is being made.
ghost use Rattle.std.specs.Prelude.{◌≡◌, IfOk};
ghost use Rattle.serde_json.specs.Data.{Data, Members, object, no_members, put};
ghost use Rattle.serde_json.specs.View.{members_view};
ghost use Rattle.results_object.specs.Values.{IsValue};
ghost use Rattle.results_object.specs.Builder.{HasMembers};

use serde_json::{Map, Value};
use std::alloc::{AllocError, Global};

/// An object that is being made, or memory that was refused meanwhile.
#[derive(Drop)]
pub struct ObjectBuilder {
    /// Where memory is taken.
    pub alloc: Global,
    /// The members so far.
    pub members: Result<Map<String, Value>, AllocError>,
}

impl ObjectBuilder {
    /// It has no members.
    pub fn new(alloc: Global) -> Self
        ensures { HasMembers no_members result }
    {
        ObjectBuilder {
            alloc,
            members: Ok(Map::new(alloc)),
        }
    }

    /// It has this member too.
    pub fn with(self, name: &str, value: Result<Value, AllocError>) -> Self
        ensures { (members : Members) (wanted : Data) → HasMembers members self → IsValue wanted value
            → HasMembers (put name.now wanted members) result }
    {
        let alloc = self.alloc;
        let members = match self.members {
            Ok(members) => with_member(alloc, members, name, value),
            Err(refused) => Err(refused),
        };
        ObjectBuilder { alloc, members }
    }

    /// It is made.
    pub fn build(self) -> Result<Value, AllocError>
        ensures { (members : Members) → HasMembers members self → IsValue (object members) result }
    {
        Ok(Value::Object(self.members?))
    }
}

/// Members with this one too.
fn with_member(
    alloc: Global,
    members: Map<String, Value>,
    name: &str,
    value: Result<Value, AllocError>,
) -> Result<Map<String, Value>, AllocError>
    ensures { (wanted : Data) → IsValue wanted value
        → IfOk result (λ made. members_view made.entries ≡ put name.now wanted (members_view members.entries)) }
{
    let value = value?;
    let mut made = members;
    serde_json::put(&mut made, alloc, name, value)?;
    Ok(made)
}
