// What the entry is, and its parameters.

ghost use Rattle.std.specs.Prelude.{◌≡◌, ◌≤◌};
ghost use Rattle.vk_one_image.specs.Tables.{kind_of, params_of, vectors};

use vk_kinds::{Kind, Param, Params};
use vk_object::EntryKind;

/// Scalar code in one lane, a variant under a mask in more.
pub fn kind_of(lanes: u16) -> EntryKind
    ensures { result ≡ kind_of lanes }
{
    if lanes == 1 {
        EntryKind::Scalar
    } else {
        EntryKind::M
    }
}

/// The parameters of the entry, where it is a variant.
pub fn params_of(lanes: u16, count: u16) -> Params
    requires { count ≤ 64 }
    ensures { result.items ≡ params_of lanes count }
{
    if lanes == 1 {
        Params::new()
    } else {
        vectors(count)
    }
}

// So many parameters with words of their own in each lane.
fn vectors(count: u16) -> Params
    requires { count ≤ 64 }
    ensures { result.items ≡ vectors count }
{
    let mut params = Params::new();
    for _ in 0..count {
        params.push(Param {
            kind: Kind::Vector,
            align: None,
        });
    }
    params
}
