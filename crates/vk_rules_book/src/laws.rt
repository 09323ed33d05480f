// What the first of all faults is, as a law.

ghost use Rattle.std.specs.Prelude.{◌≡◌, [], Some, None};
ghost use Rattle.vk_rules_book.specs.declared.faults.Fault.{Fault};
ghost use Rattle.vk_rules_book.specs.Faults.{first_among};
ghost use Rattle.vk_rules_book.specs.Rules.{IsFirst, Subject, faults_of};

/// The fault that is left when one fault after another is compared is the first of all, and where none is left, no rule is broken.
pub fn first_is_left()
    ensures first { (unit : Subject) (f : Fault) → first_among None (faults_of unit) ≡ Some f → IsFirst unit f }
    ensures none { (unit : Subject) → first_among None (faults_of unit) ≡ None → faults_of unit ≡ [] }
{}
