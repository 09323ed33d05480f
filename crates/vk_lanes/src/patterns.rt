// Operators on 64-bit patterns, on one lane and on eight.

ghost use Rattle.std.specs.Prelude.{◌≡◌, ◌<◌, ◌==◌, ◌-◌, ◌^◌, ℕ, cond, length, map, nat_le, nat_lt, not};
ghost use Rattle.std.specs.Simd.Lanes.{zip2};
ghost use lib.Lanes.{Each1};
ghost use Rattle.vk_types.specs.Numbers.{width_of};
ghost use Rattle.vk_lanes.specs.Inner.Patterns.{bias_of, biased, count_of, extended, half_of, lanewise1_of, lanewise_of, pattern};

use std::simd::prelude::*;
use vk_types::{Op1, Op2, Ty};

/// What is computed of two patterns without a division: an operator, the extension of the first one, or the first one as it is.
#[derive(Clone, Copy)]
pub enum Lanewise {
    Add,
    Sub,
    Mul,
    And,
    Or,
    Xor,
    Shl,
    Shr,
    Eq,
    Ne,
    Lt,
    Le,
    Neg,
    Not,
    Extend,
    Copy,
}

impl Lanewise {
    /// How a binary operator is computed; none for quotients and remainders.
    pub fn binary(op: Op2) -> Option<Lanewise>
        ensures { result ≡ lanewise_of op }
    {
        match op {
            Op2::Add => Some(Lanewise::Add),
            Op2::Sub => Some(Lanewise::Sub),
            Op2::Mul => Some(Lanewise::Mul),
            Op2::Div | Op2::Rem => None,
            Op2::And => Some(Lanewise::And),
            Op2::Or => Some(Lanewise::Or),
            Op2::Xor => Some(Lanewise::Xor),
            Op2::Shl => Some(Lanewise::Shl),
            Op2::Shr => Some(Lanewise::Shr),
            Op2::Eq => Some(Lanewise::Eq),
            Op2::Ne => Some(Lanewise::Ne),
            Op2::Lt => Some(Lanewise::Lt),
            Op2::Le => Some(Lanewise::Le),
        }
    }

    /// How a unary operator is computed of the first pattern.
    pub fn unary(op: Op1) -> Lanewise
        ensures { result ≡ lanewise1_of op }
    {
        match op {
            Op1::Neg => Lanewise::Neg,
            Op1::Not => Lanewise::Not,
        }
    }
}

// Half of the patterns of a signed type.
fn half(t: Ty) -> u64
    ensures { result ≡ half_of t }
{
    match t {
        Ty::I8 => 1 << 7,
        Ty::I16 => 1 << 15,
        Ty::I32 => 1 << 31,
        Ty::I64 => 1 << 63,
        Ty::U8 | Ty::U16 | Ty::U32 | Ty::U64 => 0,
    }
}

// The bits of a type.
fn ones(t: Ty) -> u64
    ensures { result ≡ 2 ^ width_of t - 1 }
{
    match t {
        Ty::I8 | Ty::U8 => 0xff,
        Ty::I16 | Ty::U16 => 0xffff,
        Ty::I32 | Ty::U32 => 0xffff_ffff,
        Ty::I64 | Ty::U64 => u64::MAX,
    }
}

// What gives the patterns of a type the order of their numbers when it is added.
fn bias(t: Ty) -> u64
    ensures { result ≡ bias_of t }
{
    match t {
        Ty::I8 | Ty::I16 | Ty::I32 | Ty::I64 => 1 << 63,
        Ty::U8 | Ty::U16 | Ty::U32 | Ty::U64 => 0,
    }
}

// The bits of a shift's count.
fn counts(t: Ty) -> u64
    ensures { result ≡ width_of t - 1 }
{
    match t {
        Ty::I8 | Ty::U8 => 7,
        Ty::I16 | Ty::U16 => 15,
        Ty::I32 | Ty::U32 => 31,
        Ty::I64 | Ty::U64 => 63,
    }
}

#[inline]
fn extend(t: Ty, p: u64) -> u64
    ensures { result ≡ extended t p }
{
    (p.wrapping_add(half(t)) & ones(t)).wrapping_sub(half(t))
}

#[inline]
fn extend8(t: Ty, p: u64x8) -> u64x8
    requires { length p ≡ 8 }
    ensures { result ≡ map (extended t) p }
{
    let half = u64x8::splat(half(t));
    ((p + half) & u64x8::splat(ones(t))) - half
}

fn biased8(t: Ty, p: u64x8) -> u64x8
    requires { length p ≡ 8 }
    ensures { result ≡ map (biased t) p }
{
    p + u64x8::splat(bias(t))
}

// How far each lane is shifted.
fn counts8(t: Ty, y: u64x8) -> u64x8
    requires { length y ≡ 8 }
    ensures value { result ≡ map (count_of t) y }
    ensures below { Each1 (λ (k : ℕ). k < 64) result }
{
    y & u64x8::splat(counts(t))
}

// 1 in the lanes where a comparison holds, else 0.
fn equal8(x: u64x8, y: u64x8) -> u64x8
    requires left { length x ≡ 8 }
    requires right { length y ≡ 8 }
    ensures { result ≡ zip2 (λ x y. cond (x == y) 1 0) x y }
{
    x.simd_eq(y).select(u64x8::splat(1), u64x8::splat(0))
}

fn unequal8(x: u64x8, y: u64x8) -> u64x8
    requires left { length x ≡ 8 }
    requires right { length y ≡ 8 }
    ensures { result ≡ zip2 (λ x y. cond (not (x == y)) 1 0) x y }
{
    x.simd_ne(y).select(u64x8::splat(1), u64x8::splat(0))
}

fn less8(x: u64x8, y: u64x8) -> u64x8
    requires left { length x ≡ 8 }
    requires right { length y ≡ 8 }
    ensures { result ≡ zip2 (λ x y. cond (nat_lt x y) 1 0) x y }
{
    x.simd_lt(y).select(u64x8::splat(1), u64x8::splat(0))
}

fn at_most8(x: u64x8, y: u64x8) -> u64x8
    requires left { length x ≡ 8 }
    requires right { length y ≡ 8 }
    ensures { result ≡ zip2 (λ x y. cond (nat_le x y) 1 0) x y }
{
    x.simd_le(y).select(u64x8::splat(1), u64x8::splat(0))
}

/// One lane.
#[inline]
pub fn computed(op: Lanewise, t: Ty, x: u64, y: u64) -> u64
    ensures { result ≡ pattern op t x y }
{
    match op {
        Lanewise::Add => extend(t, x.wrapping_add(y)),
        Lanewise::Sub => extend(t, x.wrapping_sub(y)),
        Lanewise::Mul => extend(t, x.wrapping_mul(y)),
        Lanewise::And => extend(t, x & y),
        Lanewise::Or => extend(t, x | y),
        Lanewise::Xor => extend(t, x ^ y),
        Lanewise::Shl => extend(t, x << (y & counts(t))),
        Lanewise::Shr => {
            let count = y & counts(t);
            (x.wrapping_add(bias(t)) >> count).wrapping_sub(bias(t) >> count)
        }
        Lanewise::Eq => u64::from(x == y),
        Lanewise::Ne => u64::from(x != y),
        Lanewise::Lt => u64::from(x.wrapping_add(bias(t)) < y.wrapping_add(bias(t))),
        Lanewise::Le => u64::from(x.wrapping_add(bias(t)) <= y.wrapping_add(bias(t))),
        Lanewise::Neg => extend(t, 0u64.wrapping_sub(x)),
        Lanewise::Not => extend(t, !x),
        Lanewise::Extend => extend(t, x),
        Lanewise::Copy => x,
    }
}

/// Eight lanes.
#[inline]
#[tactic(auto, using(crate::proofs::Vectors::vectors))]
pub fn computed8(op: Lanewise, t: Ty, x: u64x8, y: u64x8) -> u64x8
    requires left { length x ≡ 8 }
    requires right { length y ≡ 8 }
    ensures { result ≡ zip2 (pattern op t) x y }
{
    match op {
        Lanewise::Add => extend8(t, x + y),
        Lanewise::Sub => extend8(t, x - y),
        Lanewise::Mul => extend8(t, x * y),
        Lanewise::And => extend8(t, x & y),
        Lanewise::Or => extend8(t, x | y),
        Lanewise::Xor => extend8(t, x ^ y),
        Lanewise::Shl => extend8(t, x << counts8(t, y)),
        Lanewise::Shr => shifted_right8(t, x, y),
        Lanewise::Eq => equal8(x, y),
        Lanewise::Ne => unequal8(x, y),
        Lanewise::Lt => less8(biased8(t, x), biased8(t, y)),
        Lanewise::Le => at_most8(biased8(t, x), biased8(t, y)),
        Lanewise::Neg => extend8(t, u64x8::splat(0) - x),
        Lanewise::Not => extend8(t, !x),
        Lanewise::Extend => extend8(t, x),
        Lanewise::Copy => x,
    }
}

fn shifted_right8(t: Ty, x: u64x8, y: u64x8) -> u64x8
    requires left { length x ≡ 8 }
    requires right { length y ≡ 8 }
    ensures { result ≡ zip2 (pattern Lanewise.Shr t) x y }
{
    let count = counts8(t, y);
    (biased8(t, x) >> count) - (u64x8::splat(bias(t)) >> count)
}
