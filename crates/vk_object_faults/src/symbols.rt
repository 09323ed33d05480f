// How often each symbol is used.

ghost use Rattle.std.specs.Prelude.{◌≡◌, ◌<◌, ◌^◌, ℕ, ◌+◌, ◌==◌, cond, count_by, length, slice_index, IfOk};
ghost use Rattle.vk_code_format.specs.Fields.{first_along};
ghost use Rattle.vk_code_rows.specs.Sums.{capped};
ghost use Rattle.vk_object_format.specs.Object.{symbol_length, symbols_at};
ghost use Rattle.vk_object_faults.specs.Inner.Told.{place_told, unused, uses_of};

use std::alloc::Global;
use vk_format::Items;
use vk_memory::Memory;
use vk_object_format::{RawData, RawFunction, RawObject};

/// Where the first symbol begins.
pub(crate) const SYMBOLS_AT: u64 = 16;

// A symbol is used once more. Numbers that name none are no uses.
fn use_symbol(uses: &mut [u64], symbol: u32)
    ensures { (n : ℕ) → n < length uses.old → slice_index uses.new n ≡ capped (slice_index uses.old n + cond (symbol == n) 1 0) }
{
    let at = symbol as usize;
    if at < uses.len() {
        uses[at] = uses[at].saturating_add(1);
    }
}

fn use_in_objects(uses: &mut [u64], objects: &[RawData])
    requires words { (n : ℕ) → n < length uses.old → slice_index uses.old n < 2 ^ 64 }
    ensures { (n : ℕ) → n < length uses.old → slice_index uses.new n ≡ capped (slice_index uses.old n + count_by (λ d. d.symbol == n) objects.now) }
{
    for at in 0..objects.len() {
        use_symbol(uses, objects[at].symbol);
    }
}

fn use_in_functions(uses: &mut [u64], functions: &[RawFunction])
    requires words { (n : ℕ) → n < length uses.old → slice_index uses.old n < 2 ^ 64 }
    ensures { (n : ℕ) → n < length uses.old → slice_index uses.new n ≡ capped (slice_index uses.old n + count_by (λ f. f.symbol == n) functions.now) }
{
    for at in 0..functions.len() {
        use_symbol(uses, functions[at].symbol);
    }
}

/// How many records use each symbol.
pub(crate) fn symbol_uses(alloc: Global, object: &RawObject) -> Result<Vec<u64>, Memory>
    ensures { IfOk result (λ uses. (n : ℕ) → n < length object.now.symbols → slice_index uses.items n ≡ capped (uses_of object.now n)) }
{
    let mut uses = vec![in alloc; 0; object.symbols.len()]?;
    use_in_objects(&mut uses, object.objects.as_slice());
    use_in_functions(&mut uses, object.functions.as_slice());
    Ok(uses)
}

/// Where the first symbol begins that is not used once.
pub(crate) fn unused_symbol(symbols: &[Items<u8>], uses: &[u64]) -> Option<u64>
    ensures { result ≡ place_told (first_along symbol_length (unused uses.now) 0 symbols_at symbols.now) }
{
    let mut place = SYMBOLS_AT;
    for at in 0..symbols.len() {
        if !is_once(uses, at) {
            return Some(place);
        }
        place = place
            .saturating_add(2)
            .saturating_add(symbols[at].len() as u64);
    }
    None
}

fn is_once(uses: &[u64], at: usize) -> bool
    ensures { result ≡ (slice_index uses.now at == 1) }
{
    at < uses.len() && uses[at] == 1
}
