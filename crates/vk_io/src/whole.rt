//! Reading a whole file.
ghost use Rattle.std.specs.Prelude.{◌≡◌, ℕ, ◌+◌, ◌-◌, ◌<◌, ◌≤◌, [], ◌∷◌, IsTrue, IsErrOf, IfOk, OnOk, Some, length, vec_len};
ghost use Rattle.vk_io.specs.Counts.{Rose};
ghost use Rattle.vk_io.specs.Store.{Reads};
ghost use Rattle.vk_io.specs.Whole.{whole_of, IsFront, IsTooLong};

use crate::outside::Outside;
use crate::store::Store;
use std::alloc::{AllocError, AllocFailed, Global};

/// How many bytes a call of the store is asked for at most.
const PIECE: usize = 65536;

/// Why a whole file was not read.
#[derive(Clone, Copy, Debug, PartialEq, Eq)]
pub enum WholeFail {
    /// The store failed.
    Fault,
    /// The file is longer than the limit.
    Size,
    /// There was no memory left.
    Memory,
}

impl From<Outside> for WholeFail {
    ghost from_gives = { λ outside e. e ≡ whole_of outside };

    fn from(outside: Outside) -> WholeFail {
        match outside {
            Outside::Failed => WholeFail::Fault,
            Outside::Memory => WholeFail::Memory,
        }
    }
}

impl From<AllocError> for WholeFail {
    ghost use Rattle.vk_io.specs.declared.whole.WholeFail.{WholeFail};

    ghost from_gives = { λ _ e. e ≡ WholeFail.Memory };

    fn from(_error: AllocError) -> WholeFail {
        WholeFail::Memory
    }
}

/// Reads one more piece of the file to the end of `all`, which then has at most one byte past the
/// limit, and answers how many bytes came: 0 at the file's end.
fn read_more<S: Store>(
    store: &mut S,
    name: &str,
    limit: u64,
    piece: &mut [u8],
    all: &mut Vec<u8>,
) -> Result<usize, WholeFail>
    requires room { vec_len all.old ≤ limit }
    requires piece { 0 < length piece.old }
    ensures more { IfOk result (λ n. vec_len all.new ≡ vec_len all.old + n) }
    ensures within { vec_len all.new ≤ limit + 1 }
    ensures front { IsTrue (S.state store.old).tells → IsFront ((S.state store.old).file name.now) all.old.items →
        OnOk result (IsFront ((S.state store.old).file name.now) all.new.items) }
    ensures end { IsTrue (S.state store.old).tells → IsFront ((S.state store.old).file name.now) all.old.items →
        IfOk result (λ n. n ≡ 0 → (S.state store.old).file name.now ≡ Some all.new.items) }

    ensures failed { IsErrOf result WholeFail.Fault → Rose ((S.state store.old).reads name.now) ((S.state store.new).reads name.now) }
    ensures size { IsErrOf result WholeFail.Size → ⊥ }
    ensures stays { Reads (name.now ∷ []) (S.state store.old) (S.state store.new) }
{
    let room = (limit - all.len() as u64)
        .saturating_add(1)
        .min(piece.len() as u64);
    let part = &mut piece[..room as usize];
    let count = store.fill(name, all.len() as u64, part)?;
    all.extend_from_slice(&part[..count])?;
    Ok(count)
}

/// Reads the whole file of a name, piece by piece.
///
/// It answers `Fault` where the store failed, and then the name's read count rose, `Size` where
/// the file has more than `limit` bytes, and `Memory` for want of memory. It reads at most one
/// byte past the limit.
pub fn read_whole<S: Store>(
    alloc: Global,
    store: &mut S,
    name: &str,
    limit: u64,
) -> Result<Vec<u8>, WholeFail>
    ensures found { IsTrue (S.state store.old).tells → IfOk result (λ bytes. (S.state store.old).file name.now ≡ Some bytes.items) }
    ensures size { IsTrue (S.state store.old).tells → IsErrOf result WholeFail.Size → IsTooLong ((S.state store.old).file name.now) limit }
    ensures fits { IfOk result (λ bytes. length bytes.items ≤ limit) }
    ensures failed { IsErrOf result WholeFail.Fault → Rose ((S.state store.old).reads name.now) ((S.state store.new).reads name.now) }
    ensures stays { Reads (name.now ∷ []) (S.state store.old) (S.state store.new) }
{
    let mut piece = vec![in alloc; 0u8; PIECE]?;
    let mut all = Vec::new(alloc);
    loop {
        if all.len() as u64 > limit {
            return Err(WholeFail::Size);
        }
        if read_more(store, name, limit, &mut piece, &mut all)? == 0 {
            return Ok(all);
        }
    }
}
