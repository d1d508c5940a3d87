//! How many bytes globals take.
ghost use Rattle.std.specs.Prelude.{◌≡◌, ◌<◌, ◌≤◌, ◌*◌, ◌^◌, map, length};
ghost use Rattle.std.specs.List.{All, sum_by};
ghost use Rattle.tx_code.specs.Objects.{object_view};
ghost use Rattle.tx_code.specs.WellFormed.{IsObject};
ghost use Rattle.link_faults.specs.Faults.{size_of_globals};
ghost use Rattle.link_faults.specs.Sizes.{placed_size, size_in, name_count};

use tx_code::{ObjGlobal, Object};

/// What a global takes: a multiple of 8, or nothing where it is not defined.
fn size_of(global: &ObjGlobal) -> u64
    ensures value { result ≡ placed_size global.now }
    ensures bound { result ≤ 2 ^ 32 }
{
    if global.defined == 1 {
        (u64::from(global.size) + 7) / 8 * 8
    } else {
        0
    }
}

/// What the globals of an object take.
fn size_of_all(globals: &[ObjGlobal]) -> u64
    requires { length globals.now < 2 ^ 32 }
    ensures value { result ≡ sum_by placed_size globals.now }
    ensures bound { result ≤ length globals.now * 2 ^ 32 }
{
    let mut size = 0;
    for global in globals {
        size += size_of(global);
    }
    size
}

fn size_in_object(object: &Object) -> u64
    requires { IsObject (object_view object.now) }
    ensures value { result ≡ size_in object.now }
    ensures bound { result ≤ name_count object.now * 2 ^ 32 }
{
    size_of_all(&object.globals)
}

fn size_in_all(objects: &[Object]) -> u64
    requires objects { All (λ o. IsObject (object_view o)) objects.now }
    requires names { sum_by name_count objects.now < 4294967295 }
    ensures { result ≡ sum_by size_in objects.now }
{
    let mut size = 0;
    for object in objects {
        size += size_in_object(object);
    }
    size
}

/// What the globals of all objects take.
pub fn globals_size(objects: &[Object]) -> u64
    requires objects { All (λ o. IsObject (object_view o)) objects.now }
    requires names { sum_by name_count objects.now < 4294967295 }
    ensures { result ≡ size_of_globals (map object_view objects.now) }
{
    size_in_all(objects)
}
