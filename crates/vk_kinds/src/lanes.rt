// How many lanes the variants of a function have.

ghost use Rattle.std.specs.Prelude.{◌≡◌, ◌≢◌, ℕ, ◌+◌, ◌*◌, ◌/◌, ◌≤◌, ◌↔◌, ◌++◌, length, IsTrue, IsNone};
ghost use Rattle.arrayvec.specs.ArrayVec.{array_vec_len};
ghost use Rattle.vk_kinds.specs.declared.kinds.Isa.TheVariants.{S};
ghost use Rattle.vk_kinds.specs.declared.kinds.Len.TheVariants.{Fixed, Scalable};
ghost use Rattle.vk_kinds.specs.Sizes.{head_types, signature_tree, is_size, wds};
ghost use Rattle.vk_kinds.specs.Lengths.{has_sve_width, is_vector_length, lanes_at, lengths, variants_at, variants_with};

use crate::heads::Head;
use crate::kinds::{Branch, Isa, Len, Length, Lengths, Signature, Target};
use crate::sizes::{cdt, nds, wds};

/// Adds the variants with a letter and a length.
fn push_masks(lengths: &mut Lengths, isa: Isa, len: Len, branch: Branch)
    requires { array_vec_len lengths.old + 2 ≤ 16 }
    ensures items { lengths.new.items ≡ lengths.old.items ++ variants_with isa branch len }
    ensures len { array_vec_len lengths.new ≤ array_vec_len lengths.old + 2 }
{
    if isa != Isa::S && branch != Branch::Inside {
        lengths.push(Length {
            isa,
            masked: false,
            len,
        });
    }
    if isa == Isa::S || branch != Branch::Outside {
        lengths.push(Length {
            isa,
            masked: true,
            len,
        });
    }
}

/// As many values of a size as a register of so many bytes holds.
fn lanes_in(register: u16, size: u32) -> Len
    requires { IsTrue (is_size size) }
    ensures { result ≡ Len.Fixed (register / size) }
{
    Len::Fixed((u32::from(register) / size) as u16)
}

/// Adds the variants with a letter.
fn push_variants(lengths: &mut Lengths, isa: Isa, h: &Head, s: &Signature)
    requires count { length h.now.params.items ≡ length s.now.params.items }
    requires room { array_vec_len lengths.old + 4 ≤ 16 }
    ensures items { lengths.new.items ≡ lengths.old.items ++ variants_at (head_types h.now) (signature_tree s.now) isa }
    ensures len { array_vec_len lengths.new ≤ array_vec_len lengths.old + 4 }
{
    if let Some(lanes) = s.simdlen {
        push_masks(lengths, isa, Len::Fixed(lanes), s.branch);
        return;
    }
    match isa {
        Isa::B | Isa::C => push_masks(lengths, isa, lanes_in(16, cdt(h, s)), s.branch),
        Isa::D => push_masks(lengths, isa, lanes_in(32, cdt(h, s)), s.branch),
        Isa::E => push_masks(lengths, isa, lanes_in(64, cdt(h, s)), s.branch),
        Isa::N => {
            let size = nds(h, s);
            if size < 8 {
                push_masks(lengths, isa, lanes_in(8, size), s.branch);
            }
            push_masks(lengths, isa, lanes_in(16, size), s.branch);
        }
        Isa::S => push_masks(lengths, isa, Len::Scalable, s.branch),
    }
}

/// The variants that a directive gives a function, in the order of their names: by letter, length and mask.
///
/// A `simdlen` stands for all lengths of a letter. Without it the letters `b`, `c`, `d` and `e` of x86-64 have as many lanes as
/// registers of 16, 16, 32 and 64 bytes hold values of the characteristic data type. Advanced SIMD has 8 and 16, 4 and 8, 2 and 4
/// lanes, or 2, for a narrowest data size of 1, 2, 4 or 8, and SVE a scalable length. `inbranch` leaves the variants with a mask,
/// `notinbranch` those without one; SVE has a mask always. `s` has one parameter for each of `h`. See "Vector Function Name
/// Mangling" in the x86-64 GNU Vector Function ABI, and the Vector Function ABI for AArch64 on Advanced SIMD and SVE.
#[tactic(auto, unfolding(crate::specs::Lengths::lengths))]
pub fn lengths(t: Target, h: &Head, s: &Signature) -> Lengths
    requires { length h.now.params.items ≡ length s.now.params.items }
    ensures { result.items ≡ lengths t (head_types h.now) (signature_tree s.now) }
{
    let mut lengths = Lengths::new();
    match t {
        Target::X86 => {
            push_variants(&mut lengths, Isa::B, h, s);
            push_variants(&mut lengths, Isa::C, h, s);
            push_variants(&mut lengths, Isa::D, h, s);
            push_variants(&mut lengths, Isa::E, h, s);
        }
        Target::Arm => {
            push_variants(&mut lengths, Isa::N, h, s);
            push_variants(&mut lengths, Isa::S, h, s);
        }
    }
    lengths
}

/// How many lanes a variant has where vectors have `vl` bits, for a function of this widest data size: `None` where the variant
/// can't be used there, which is exactly where it is one of SVE with a fixed length whose lanes of that size have not `vl` bits.
///
/// `wds` is 1, 2, 4 or 8. A length is scalable only with the letter `s`, for which `vl` is 128, 256, 512, 1024 or 2048; for other
/// letters `vl` says nothing. See the Vector Function ABI for AArch64 on SVE.
pub fn lanes_at(isa: Isa, len: Len, wds: u32, vl: u32) -> Option<u16>
    requires scalable { len ≡ Scalable → isa ≡ S }
    requires size { IsTrue (is_size wds) }
    requires width { isa ≡ S → IsTrue (is_vector_length vl) }
    ensures value { result ≡ lanes_at isa len wds vl }
    ensures none { IsNone result ↔ ((n : ℕ) × (isa ≡ S) × (len ≡ Fixed n) × (n * wds * 8 ≢ vl)) }
{
    match (isa, len) {
        (Isa::S, Len::Fixed(lanes)) => fixed_at(lanes, wds, vl),
        (Isa::S, Len::Scalable) => Some((vl / (8 * wds)) as u16),
        (_, Len::Fixed(lanes)) => Some(lanes),
        (_, Len::Scalable) => None,
    }
}

/// The lanes, where they have `vl` bits.
fn fixed_at(lanes: u16, wds: u32, vl: u32) -> Option<u16>
    requires { IsTrue (is_size wds) }
    ensures { result ≡ lanes_at S (Fixed lanes) wds vl }
{
    if u32::from(lanes) * wds * 8 == vl {
        Some(lanes)
    } else {
        None
    }
}

/// Whether the lanes of a directive's `simdlen` fit SVE: those of the widest data size have 128 to 2048 bits. Without a `simdlen`
/// they do. `s` has one parameter for each of `h`. See the Vector Function ABI for AArch64 on `simdlen` and SVE.
pub fn has_sve_width(h: &Head, s: &Signature) -> bool
    requires { length h.now.params.items ≡ length s.now.params.items }
    ensures { result ≡ has_sve_width s.now.simdlen (wds (head_types h.now) (signature_tree s.now)) }
{
    match s.simdlen {
        Some(lanes) => (128..=2048).contains(&(u32::from(lanes) * wds(h, s) * 8)),
        None => true,
    }
}
