// The words of the arguments, from their texts.

ghost use Rattle.std.specs.Prelude.{◌≡◌, ℕ, ◌<◌, ◌≤◌, ◌^◌, List, length, map, IfOk, IfErr, IsErrOf};
ghost use Rattle.vk_kinds.specs.declared.heads.CType.{CType as CTypeOf};
ghost use Rattle.vk_meaning.specs.World.{Array};
ghost use Rattle.vk_arguments.specs.Arguments.{IsLeastPair, IsWrongAt};
ghost use Rattle.vk_arguments.specs.Inner.Rows.{AreRows, AreValues, IsRow, IsWrongIn};
ghost use Rattle.vk_arguments.specs.Texts.{IsFaultOfValues, value_of_lane, values_of};

use crate::values::Values;
use std::alloc::{AllocError, AllocFailed, Global};
use vk_kinds::CType;
use vk_types::Word;

/// Why there are no words.
#[derive(Clone, Copy, PartialEq, Eq, Debug)]
pub enum NoWords {
    /// The least pair of a parameter and a lane at which an argument is missing, extra or wrong.
    Wrong { parameter: u32, lane: u32 },
    /// There was no memory left.
    Memory,
}

impl From<AllocError> for NoWords {
    ghost use Rattle.vk_arguments.specs.declared.rows.NoWords.{NoWords};

    ghost from_gives = { λ _ e. e ≡ NoWords.Memory };

    fn from(_error: AllocError) -> NoWords {
        NoWords::Memory
    }
}

impl<T: Drop> From<AllocFailed<T>> for NoWords {
    ghost use Rattle.vk_arguments.specs.declared.rows.NoWords.{NoWords};

    ghost from_gives = { λ _ e. e ≡ NoWords.Memory };

    fn from(_error: AllocFailed<T>) -> NoWords {
        NoWords::Memory
    }
}

/// The words of the arguments that these texts give parameters of these types, one parameter after another, each a word for each
/// lane.
///
/// A text is one value, which then stands in every lane, or one for each lane separated by commas. It answers `Wrong` with the least
/// pair of a parameter and a lane at which a text is missing (lane 0), extra (lane 0) or wrong, or has a value too few or too many
/// (the lane of the first).
pub fn words_of<V: Values>(
    alloc: Global,
    values: &V,
    types: &[CType],
    texts: &[&str],
    lanes: usize,
) -> Result<Vec<Word>, NoWords>
    requires parameters { length types.now < 2 ^ 32 }
    requires lanes { lanes ≤ 256 }
    ensures rows { IfOk result (λ words. AreRows (V.meaning values.now) (V.arrays values.now) lanes (length types.now) types.now (map (λ s. s.now) texts.now) words.items) }
    ensures right { IfOk result (λ _. (p lane : ℕ) → IsWrongAt (V.meaning values.now) lanes types.now (map (λ s. s.now) texts.now) p lane → ⊥) }
    ensures wrong { (p lane : ℕ) → IsErrOf result (NoWords.Wrong p lane) →
        IsLeastPair (IsWrongAt (V.meaning values.now) lanes types.now (map (λ s. s.now) texts.now)) p lane }
{
    let both = texts.len().min(types.len());
    let words = rows_of(alloc, values, types, texts, both, lanes)?;
    if texts.len() != types.len() {
        return Err(NoWords::Wrong {
            parameter: both as u32,
            lane: 0,
        });
    }
    Ok(words)
}

// The rows of the first texts, one behind another.
fn rows_of<V: Values>(
    alloc: Global,
    values: &V,
    types: &[CType],
    texts: &[&str],
    count: usize,
    lanes: usize,
) -> Result<Vec<Word>, NoWords>
    requires typed { count ≤ length types.now }
    requires given { count ≤ length texts.now }
    requires parameters { length types.now < 2 ^ 32 }
    requires lanes { lanes ≤ 256 }
    ensures rows { IfOk result (λ words. AreRows (V.meaning values.now) (V.arrays values.now) lanes count types.now (map (λ s. s.now) texts.now) words.items) }
    ensures wrong { (p lane : ℕ) → IsErrOf result (NoWords.Wrong p lane) →
        IsLeastPair (IsWrongIn (V.meaning values.now) lanes count types.now (map (λ s. s.now) texts.now)) p lane }
{
    let mut words = Vec::new(alloc);
    for parameter in 0..count {
        let ty = types[parameter];
        let found = values_of_text(alloc, values, ty, texts[parameter])?;
        match row_of(alloc, &found, lanes)? {
            Ok(row) => words.extend_from_slice(&row)?,
            Err(lane) => {
                return Err(NoWords::Wrong {
                    parameter: parameter as u32,
                    lane: lane as u32,
                });
            }
        }
    }
    Ok(words)
}

// The row of one value for every lane, or of one value a lane; else the first lane without one, or the first lane too many.
fn row_of(
    alloc: Global,
    values: &[Option<Word>],
    lanes: usize,
) -> Result<Result<Vec<Word>, usize>, AllocError>
    ensures row { (arrays : List Array) (t : CTypeOf) → AreValues arrays t values.now →
        IfOk result (λ end. IfOk end (λ row. IsRow arrays lanes t values.now row.items)) }
    ensures fault { IfOk result (λ end. IfErr end (λ lane. IsFaultOfValues lanes values.now lane)) }
    ensures least { IfOk result (λ end. IfErr end (λ lane. (other : ℕ) → IsFaultOfValues lanes values.now other → lane ≤ other)) }
    ensures few { IfOk result (λ end. IfErr end (λ lane. lane ≤ lanes)) }
{
    let mut row = Vec::new(alloc);
    for lane in 0..lanes {
        match value_in_lane(values, lane) {
            Some(word) => row.push(word)?,
            None => return Ok(Err(lane)),
        }
    }
    if values.len() > lanes {
        return Ok(Err(lanes));
    }
    Ok(Ok(row))
}

// The value of a lane: the only one, or the lane's own.
fn value_in_lane(values: &[Option<Word>], lane: usize) -> Option<Word>
    ensures { result ≡ value_of_lane values.now lane }
{
    match values {
        [value] => *value,
        _ => values.get(lane).copied().flatten(),
    }
}

// The values of one text.
fn values_of_text<V: Values>(
    alloc: Global,
    values: &V,
    ty: CType,
    text: &str,
) -> Result<Vec<Option<Word>>, AllocError>
    ensures values { IfOk result (λ found. found.items ≡ values_of (V.meaning values.now) ty text.now) }
    ensures typed { IfOk result (λ found. AreValues (V.arrays values.now) ty found.items) }
{
    let mut found = Vec::new(alloc);
    let mut rest = text;
    while let Some((part, after)) = rest.split_once(',') {
        found.push(values.word(ty, part))?;
        rest = after;
    }
    found.push(values.word(ty, rest))?;
    Ok(found)
}
