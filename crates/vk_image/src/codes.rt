// The codes of an image.

ghost use Rattle.std.specs.Prelude.{◌≡◌, map, IfOk};
ghost use Rattle.std.specs.List.{list_all};
ghost use Rattle.vk_code.specs.Listing.{listing_of, simd_site_of};
ghost use Rattle.vk_code.specs.Tests.{all_good};
ghost use Rattle.vk_code.specs.Valid.{environment_of, verdicts};
ghost use Rattle.vk_object.specs.Images.{has_body, is_code, names_of, object_of};
ghost use Rattle.vk_object.specs.Tables.{array_list_of, tables_of};

use std::alloc::{AllocError, Global};
use vk_code::{Body, Code, Env, LoopSite, ObjectHead, validate};
use vk_object::{ArrayRow, ImageTables};

/// Whether each code is valid among what it may name.
pub(crate) fn are_codes(alloc: Global, tables: &ImageTables) -> Result<bool, AllocError>
    ensures { IfOk result (λ are. are ≡ list_all (is_code (tables_of tables.now)) (tables_of tables.now).codes) }
{
    let env = names_of(alloc, tables)?;
    Ok(are_codes_among(tables, &env, &tables.codes))
}

// What code may name: the arrays.
fn names_of(alloc: Global, tables: &ImageTables) -> Result<Env, AllocError>
    ensures { IfOk result (λ env. environment_of env ≡ names_of (tables_of tables.now)) }
{
    Ok(Env {
        image: true,
        functions: Vec::new(alloc),
        objects: objects_of(alloc, &tables.arrays)?,
    })
}

fn objects_of(alloc: Global, arrays: &[ArrayRow]) -> Result<Vec<ObjectHead>, AllocError>
    ensures { IfOk result (λ objects. objects.items ≡ map (λ a. object_of (array_list_of a)) arrays.now) }
{
    let mut objects = Vec::new(alloc);
    for array in arrays {
        objects.push(object_of(array))?;
    }
    Ok(objects)
}

fn object_of(array: &ArrayRow) -> ObjectHead
    ensures { result ≡ object_of (array_list_of array.now) }
{
    ObjectHead {
        ty: array.ty,
        fixed: array.fixed,
    }
}

fn are_codes_among(tables: &ImageTables, env: &Env, codes: &[Code]) -> bool
    requires { environment_of env.now ≡ names_of (tables_of tables.now) }
    ensures { result ≡ list_all (λ c. is_code (tables_of tables.now) (listing_of c)) codes.now }
{
    codes.iter().all(|code| is_code(tables, env, code))
}

// Whether the code is valid, and its loops name codes.
fn is_code(tables: &ImageTables, env: &Env, code: &Code) -> bool
    requires { environment_of env.now ≡ names_of (tables_of tables.now) }
    ensures { result ≡ is_code (tables_of tables.now) (listing_of code.now) }
{
    have_bodies(tables, &code.loops) && is_valid(code, env)
}

fn is_valid(code: &Code, env: &Env) -> bool
    ensures { result ≡ all_good (verdicts (environment_of env.now) (listing_of code.now)) }
{
    validate(code, env).is_ok()
}

// Whether the body of each loop is the number of a code.
fn have_bodies(tables: &ImageTables, sites: &[LoopSite]) -> bool
    ensures { result ≡ list_all (λ l. has_body (tables_of tables.now) (simd_site_of l)) sites.now }
{
    sites.iter().all(|site| has_body(tables, site))
}

fn has_body(tables: &ImageTables, site: &LoopSite) -> bool
    ensures { result ≡ has_body (tables_of tables.now) (simd_site_of site.now) }
{
    match &site.body {
        Body::Own(_) => false,
        Body::Number(number) => (*number as usize) < tables.codes.len(),
    }
}
