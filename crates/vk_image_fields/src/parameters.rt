// The parameters of an entry among each other.

ghost use Rattle.std.specs.Prelude.{◌≡◌, map, slice_get};
ghost use Rattle.std.specs.List.{list_all};
ghost use Rattle.vk_kinds.specs.declared.kinds.Param.{Param};
ghost use Rattle.vk_code.specs.Tests.{holds};
ghost use Rattle.vk_object.specs.Parameters.{are_kinds, is_kind, is_param, is_uniform};
ghost use Rattle.vk_code_format.specs.Parameters.{kind_of, param_of};

use vk_code_format::{ParamKind, ParamRow};
use vk_object_fields::parameters::{align_fits, value_fits};

/// Whether the parameters that the rows stand for are in range; a step argument is a uniform one of them.
pub fn are_kinds(rows: &[ParamRow]) -> bool
    ensures { result ≡ are_kinds (map param_of rows.now) }
{
    are_kinds_among(rows, rows)
}

fn are_kinds_among(all: &[ParamRow], rows: &[ParamRow]) -> bool
    ensures { result ≡ list_all (λ r. is_param (map param_of all.now) (param_of r)) rows.now }
{
    rows.iter().all(|row| is_param(all, *row))
}

fn is_param(rows: &[ParamRow], row: ParamRow) -> bool
    ensures { result ≡ is_param (map param_of rows.now) (param_of row) }
{
    is_kind(rows, row.kind, row.value) && align_fits(None, row.align)
}

// Whether it is vector, uniform or linear, by a step in range.
fn is_kind(rows: &[ParamRow], kind: ParamKind, value: u32) -> bool
    ensures { result ≡ is_kind (map param_of rows.now) (kind_of kind value) }
{
    match kind {
        ParamKind::Vector | ParamKind::Uniform => true,
        ParamKind::By => value_fits(None, ParamKind::By, value),
        ParamKind::Along => is_uniform_at(rows, value),
    }
}

// Whether a parameter has this number, and is uniform.
fn is_uniform_at(rows: &[ParamRow], number: u32) -> bool
    ensures { result ≡ holds (λ (p : Param). is_uniform p.kind) (slice_get (map param_of rows.now) number) }
{
    match rows.get(number as usize) {
        Some(row) => is_uniform(*row),
        None => false,
    }
}

fn is_uniform(row: ParamRow) -> bool
    ensures { result ≡ is_uniform (param_of row).kind }
{
    match row.kind {
        ParamKind::Uniform => true,
        ParamKind::Vector | ParamKind::By | ParamKind::Along => false,
    }
}
