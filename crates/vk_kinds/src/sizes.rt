// The sizes by which the vector function ABIs count lanes.

ghost use Rattle.std.specs.Prelude.{◌≡◌, ◌+◌, ◌≤◌, ◌++◌, length, IsTrue};
ghost use Rattle.arrayvec.specs.ArrayVec.{array_vec_len};
ghost use Rattle.vk_kinds.specs.Sizes.{all_sizes, bytes_of, cdt, characteristic, first_vector, greatest_of, head_types, is_size, lane_size, lane_sizes, least_of, nds, result_sizes, signature_tree, size_of, wds};

use crate::heads::{CType, Head};
use crate::kinds::{Kind, Param, Signature};
use arrayvec::ArrayVec;
use vk_types::{Ty, size};

/// The lane sizes of a function, of its parameters and its result.
type Sizes = ArrayVec<u32, 65>;

const POINTER_SIZE: u32 = 8;

fn bytes_of(t: Ty) -> u32
    ensures value { result ≡ bytes_of t }
    ensures size { IsTrue (is_size result) }
{
    size(t)
}

fn size_of(ty: CType) -> u32
    ensures value { result ≡ size_of ty }
    ensures size { IsTrue (is_size result) }
{
    match ty {
        CType::Void => bytes_of(Ty::I32),
        CType::Int(t) => bytes_of(t),
        CType::Ptr { .. } => POINTER_SIZE,
    }
}

/// The type of the first parameter that is neither uniform nor linear.
fn first_vector(types: &[CType], params: &[Param]) -> CType
    ensures { result ≡ first_vector types.now params.now }
{
    let [ty, types @ ..] = types else {
        return CType::Int(Ty::I32);
    };
    let [param, params @ ..] = params else {
        return CType::Int(Ty::I32);
    };
    if param.kind == Kind::Vector {
        *ty
    } else {
        first_vector(types, params)
    }
}

/// The characteristic data type.
fn characteristic(h: &Head, s: &Signature) -> CType
    ensures { result ≡ characteristic h.now.result h.now.params.items s.now.params.items }
{
    match h.result {
        CType::Void => first_vector(h.params.as_slice(), s.params.as_slice()),
        CType::Int(_) => h.result,
        CType::Ptr { .. } => h.result,
    }
}

fn lane_size(ty: CType, kind: Kind) -> u32
    ensures value { result ≡ lane_size ty kind }
    ensures size { IsTrue (is_size result) }
{
    match ty {
        CType::Ptr { to, .. } if kind != Kind::Vector => bytes_of(to),
        CType::Ptr { .. } => POINTER_SIZE,
        CType::Int(_) => size_of(ty),
        CType::Void => size_of(ty),
    }
}

/// Adds the lane sizes of the parameters.
fn push_sizes(sizes: &mut Sizes, types: &[CType], params: &[Param])
    requires { array_vec_len sizes.old + length types.now ≤ 65 }
    ensures items { sizes.new.items ≡ sizes.old.items ++ lane_sizes types.now params.now }
    ensures len { array_vec_len sizes.new ≤ array_vec_len sizes.old + length types.now }
{
    let [ty, types @ ..] = types else {
        return;
    };
    let [param, params @ ..] = params else {
        return;
    };
    sizes.push(lane_size(*ty, param.kind));
    push_sizes(sizes, types, params);
}

/// The lane sizes of the parameters and of the result.
fn all_sizes(h: &Head, s: &Signature) -> Sizes
    ensures { result.items ≡ all_sizes (head_types h.now) (signature_tree s.now) }
{
    let mut sizes = Sizes::new();
    push_sizes(&mut sizes, h.params.as_slice(), s.params.as_slice());
    match h.result {
        CType::Void => {}
        CType::Int(t) => sizes.push(bytes_of(t)),
        CType::Ptr { .. } => sizes.push(POINTER_SIZE),
    }
    sizes
}

/// The least of some sizes.
fn least_of(sizes: &[u32]) -> u32
    ensures { result ≡ least_of sizes.now }
{
    match sizes {
        [] => bytes_of(Ty::I32),
        [size] => *size,
        [size, rest @ ..] => least_of(rest).min(*size),
    }
}

/// The greatest of some sizes.
fn greatest_of(sizes: &[u32]) -> u32
    ensures { result ≡ greatest_of sizes.now }
{
    match sizes {
        [] => bytes_of(Ty::I32),
        [size] => *size,
        [size, rest @ ..] => greatest_of(rest).max(*size),
    }
}

/// The size in bytes of the characteristic data type: the result's type; of a function without a result that of the first
/// parameter that is neither uniform nor linear; `int` where there is none.
///
/// It is 1, 2, 4 or 8. `s` has one parameter for each of `h`. See "Characteristic data type" in the x86-64 GNU Vector Function ABI.
#[tactic(auto, unfolding(crate::specs::Sizes::cdt))]
pub fn cdt(h: &Head, s: &Signature) -> u32
    requires { length h.now.params.items ≡ length s.now.params.items }
    ensures value { result ≡ cdt (head_types h.now) (signature_tree s.now) }
    ensures size { IsTrue (is_size result) }
{
    size_of(characteristic(h, s))
}

/// The narrowest data size in bytes: the least lane size of the parameters and of the result, 4 where there is none.
///
/// A parameter's lane size is the size of what a uniform or linear pointer points to, else its own. It is 1, 2, 4 or 8.
/// `s` has one parameter for each of `h`. See "Narrowest Data Size" in the Vector Function ABI for AArch64.
#[tactic(auto, unfolding(crate::specs::Sizes::nds))]
pub fn nds(h: &Head, s: &Signature) -> u32
    requires { length h.now.params.items ≡ length s.now.params.items }
    ensures value { result ≡ nds (head_types h.now) (signature_tree s.now) }
    ensures size { IsTrue (is_size result) }
{
    least_of(all_sizes(h, s).as_slice())
}

/// The widest data size in bytes: the greatest lane size of the parameters and of the result, 4 where there is none.
///
/// It is 1, 2, 4 or 8. `s` has one parameter for each of `h`. See "Widest Data Size" in the Vector Function ABI for AArch64.
#[tactic(auto, unfolding(crate::specs::Sizes::wds))]
pub fn wds(h: &Head, s: &Signature) -> u32
    requires { length h.now.params.items ≡ length s.now.params.items }
    ensures value { result ≡ wds (head_types h.now) (signature_tree s.now) }
    ensures size { IsTrue (is_size result) }
{
    greatest_of(all_sizes(h, s).as_slice())
}
