// Lists of names.
ghost use Rattle.std.specs.Prelude.{◌≡◌, ℕ, ◌<◌, List, [], ◌∷◌, ◌++◌, All, length, map, take, slice_get, Some, IfOk, OnOk, OnErr};
ghost use Rattle.vk_kinds.specs.Sizes.{head_types, signature_tree};
ghost use Rattle.vk_names.specs.Spelling.{IsName, IsScalar, name_text};
ghost use Rattle.vk_variants.specs.Directives.{IsNamed, directive_names, function_names, name_with};

use arrayvec::ArrayVec;
use std::alloc::Global;
use std::marker::Model;
use vk_kinds::{Head, Length, Param, Params, Signature, Target, lengths};
use vk_memory::Memory;
use vk_names::{NameHead, write_name};

/// A list of names, each its bytes.
#[derive(Drop)]
pub struct NameList {
    alloc: Global,
    names: Vec<Vec<u8>>,
}

impl Model for NameList {
    ghost Value = { List (List ℕ) };

    ghost view = { λ list. map (λ name. name.items) list.names.items };
}

impl NameList {
    /// The empty list.
    pub fn new(alloc: Global) -> NameList
        ensures { result ≡ [] }
    {
        NameList {
            alloc,
            names: Vec::new(alloc),
        }
    }

    /// The number of names.
    pub fn len(&self) -> usize
        ensures { result ≡ length self.now }
    {
        self.names.len()
    }

    /// The name at this place, from 0.
    pub fn text(&self, i: usize) -> &[u8]
        requires { i < length self.now }
        ensures { slice_get self.now i ≡ Some result.now }
    {
        self.names[i].as_slice()
    }

    /// Adds the text of one name.
    fn push(&mut self, scalar: &[u8], params: &Params, front: Length) -> Result<(), Memory>
        requires { IsName (name_with scalar.now params.now.items front) }
        ensures ok { OnOk result (self.new ≡ self.old ++ name_text (name_with scalar.now params.now.items front) ∷ []) }
        ensures err { OnErr result (self.new ≡ self.old) }
    {
        let mut copy = Params::new();
        let _fits = copy.try_extend_from_slice(params.as_slice());
        let head = NameHead {
            isa: front.isa,
            masked: front.masked,
            len: front.len,
            params: copy,
        };
        let mut text = ArrayVec::new();
        write_name(&head, scalar, &mut text);
        let mut name = Vec::new(self.alloc);
        name.extend_from_slice(text.as_slice())?;
        self.names.push(name)?;
        Ok(())
    }

    /// Keeps the first names alone.
    fn cut(&mut self, len: usize)
        ensures { self.new ≡ take len self.old }
    {
        self.names.truncate(len);
    }

    /// Adds the names that a directive gives a function: one for each of its variants, by letter, length and mask.
    ///
    /// `s` has one parameter for each of `h`, and what it says is within the ranges of names. For want of memory the list stays
    /// as it was. The names are those of the vector function ABIs of x86-64 ("Vector Function Name Mangling") and of AArch64.
    pub fn add(
        &mut self,
        target: Target,
        scalar: &[u8],
        h: &Head,
        s: &Signature,
    ) -> Result<(), Memory>
        requires count { length h.now.params.items ≡ length s.now.params.items }
        requires in_range { IsNamed (signature_tree s.now) }
        requires scalar { IsScalar scalar.now }
        ensures ok { OnOk result (self.new ≡ self.old ++ directive_names target scalar.now (head_types h.now) (signature_tree s.now)) }
        ensures err { OnErr result (self.new ≡ self.old) }
    {
        let before = self.len();
        let variants = lengths(target, h, s);
        let fronts = variants.as_slice();
        for front in fronts {
            if self.push(scalar, &s.params, *front).is_err() {
                self.cut(before);
                return Err(Memory);
            }
        }
        Ok(())
    }
}

/// The names that the directives of a function give it, in their order, each as `NameList::add` says.
///
/// Each of `signatures` has one parameter for each of `h`, and what it says is within the ranges of names.
pub fn function_names(
    alloc: Global,
    target: Target,
    scalar: &[u8],
    h: &Head,
    signatures: &[Signature],
) -> Result<NameList, Memory>
    requires count { All (λ s. length h.now.params.items ≡ length s.params.items) signatures.now }
    requires in_range { All (λ s. IsNamed (signature_tree s)) signatures.now }
    requires scalar { IsScalar scalar.now }
    ensures { IfOk result (λ list. list ≡ function_names target scalar.now (head_types h.now) (map signature_tree signatures.now)) }
{
    let mut list = NameList::new(alloc);
    for s in signatures {
        list.add(target, scalar, h, s)?;
    }
    Ok(list)
}
