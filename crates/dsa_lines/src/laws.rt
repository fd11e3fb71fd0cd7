//! Laws of lines and of texts.

ghost use Rattle.std.specs.Prelude.{◌≡◌, ◌≢◌, List, map, ℕ};
ghost use Rattle.std.specs.List.{AllByRecursion, flat_map};
ghost use Rattle.dsa_operations.specs.declared.operation.Operation.{Operation};
ghost use Rattle.dsa_operations.specs.OperationFields.{OperationFields, AreListedFields, all_spelled, fields_spelling, operation_fields};
ghost use Rattle.dsa_operations.specs.Operations.{spelling_of};
ghost use Rattle.dsa_lines.specs.Grammar.{Spells};
ghost use Rattle.dsa_lines.specs.Text.{line_text};
ghost use Rattle.dsa_lines.specs.Texts.{TextSpells};
ghost use Rattle.dsa_lines.specs.Barriers.{CanonicalTextSpells, OneMarkEach, OneMarkedSpelling};

/// A line spells one set of fields at most, and lines that spell fields of the same bytes spell the
/// same fields.
#[tactic(auto, using(crate::proofs::OneLine::same_bytes))]
pub fn spells_one()
    ensures line { (text : List ℕ) (f g : OperationFields) → Spells text f → Spells text g → f ≡ g }
    ensures bytes { (text other : List ℕ) (f g : OperationFields) →
        Spells text f → Spells other g → fields_spelling f ≡ fields_spelling g → f ≡ g }
{}

/// Fields that a line spells and that have an operation's bytes are that operation's fields.
#[tactic(auto, using(crate::proofs::OneLine::spelled_operation))]
pub fn one_line_one_operation()
    ensures { (text : List ℕ) (f : OperationFields) (o : Operation) →
        Spells text f → fields_spelling f ≡ spelling_of o → f ≡ operation_fields o }
{}

/// A text that spells fields has no newline.
#[tactic(auto, using(crate::proofs::OneLine::spelled_line))]
pub fn one_line_no_newline()
    ensures { (text : List ℕ) (f : OperationFields) →
        Spells text f → AllByRecursion (λ byte. byte ≢ 10) text }
{}

/// The canonical line of listed fields spells them.
#[tactic(auto, using(crate::proofs::RoundTrip::line_spells))]
pub fn canonical_line_spells()
    ensures { (f : OperationFields) → AreListedFields f → Spells (line_text f) f }
{}

/// A text spells one list of fields at most, and texts that spell fields of the same bytes spell the
/// same fields.
#[tactic(auto, using(crate::proofs::OneText::same_bytes))]
pub fn text_spells_one()
    ensures text { (text : List ℕ) (fs gs : List OperationFields) →
        TextSpells text fs → TextSpells text gs → fs ≡ gs }
    ensures bytes { (text other : List ℕ) (fs gs : List OperationFields) →
        TextSpells text fs → TextSpells other gs →
        all_spelled fs ≡ all_spelled gs → fs ≡ gs }
{}

/// Fields that a text spells and that have the bytes of operations are those of these operations.
#[tactic(auto, using(crate::proofs::OneText::spells_list))]
pub fn one_text_one_list()
    ensures { (text : List ℕ) (fs : List OperationFields) (os : List Operation) →
        TextSpells text fs → all_spelled fs ≡ flat_map spelling_of os →
        fs ≡ map operation_fields os }
{}

/// The canonical text of listed fields, with a mark for each or with none, spells them and the barriers that were
/// marked.
pub fn canonical_text_spells()
    ensures { CanonicalTextSpells }
{}

/// A text that spells operations has a mark for each.
#[tactic(auto, using(crate::proofs::Marks::one_mark_each))]
pub fn one_mark_each()
    ensures { OneMarkEach }
{}

/// The bytes of operations and their marks are those of no others.
#[tactic(auto, using(crate::proofs::Marks::one_marked_spelling))]
pub fn one_marked_spelling()
    ensures { OneMarkedSpelling }
{}
