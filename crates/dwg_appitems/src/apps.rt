//! The application data of objects.

ghost use Rattle.std.specs.Prelude.{◌≡◌};
ghost use Rattle.dwg_appitems.specs.AppFindings.{apps_of, apps_of_common};
ghost use Rattle.dwg_object.specs.Objects.{value_of};

use dwg_common::AppData;
use dwg_object::{Common, Object};

/// The application data of a common part.
fn apps_of_common(common: &Common) -> &[AppData]
    ensures { result.now ≡ apps_of_common common.now }
{
    match common {
        Common::Entity(common) => common.app.as_slice(),
        Common::Object(common) => common.app.as_slice(),
    }
}

/// The application data of an object, none of a Raw one.
pub fn apps_of<'o>(object: &'o Object<'_>) -> &'o [AppData]
    ensures { result.now ≡ apps_of (value_of object.now) }
{
    match object {
        Object::Typed(typed) => apps_of_common(&typed.common),
        Object::Plain(plain) => apps_of_common(&plain.common),
        Object::Raw(_) => &[],
    }
}
