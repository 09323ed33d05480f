//! What holds of the sizes and of the variants of a directive.
ghost use Rattle.std.specs.Prelude.{◌≡◌, ◌≢◌, ◌≤◌, All, AllPairs, IsTrue};
ghost use Rattle.vk_kinds.specs.Lengths.{lengths};
ghost use Rattle.vk_kinds.specs.Sizes.{HeadTypes, SignatureTree, all_sizes, cdt, is_size, nds, wds};
ghost use Rattle.vk_kinds.specs.declared.kinds.Target.{Target};

/// The size of a characteristic data type, a narrowest and a widest data size are 1, 2, 4 or 8 bytes.
pub fn sizes()
    ensures cdt { (h : HeadTypes) (s : SignatureTree) → IsTrue (is_size (cdt h s)) }
    ensures nds { (h : HeadTypes) (s : SignatureTree) → IsTrue (is_size (nds h s)) }
    ensures wds { (h : HeadTypes) (s : SignatureTree) → IsTrue (is_size (wds h s)) }
{}

/// No lane size is below the narrowest or above the widest data size.
pub fn narrowest_and_widest()
    ensures narrowest { (h : HeadTypes) (s : SignatureTree) → All (λ n. nds h s ≤ n) (all_sizes h s) }
    ensures widest { (h : HeadTypes) (s : SignatureTree) → All (λ n. n ≤ wds h s) (all_sizes h s) }
{}

/// No two variants of a directive are the same.
pub fn different_variants()
    ensures { (t : Target) (h : HeadTypes) (s : SignatureTree) → AllPairs (λ x y. x ≢ y) (lengths t h s) }
{}
