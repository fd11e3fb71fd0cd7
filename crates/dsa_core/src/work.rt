//! Pieces that engines can work.

ghost use Rattle.std.specs.Prelude.{◌≡◌, ◌↔◌, ℕ, ◌+◌, ◌<◌, IsTrue, map};
ghost use Rattle.dsa_image.specs.Memory.{Holds};
ghost use Rattle.dsa_core.specs.Machine.{HoldsPiece};
ghost use Rattle.dsa_core.specs.Work.{IsWork, Work};

use dsa_descriptor::Record;
use dsa_image::Image;

/// A piece that engines can work: line by line over an image, and each line also from a copy of what it reads.
pub trait Workable: Copy {
    /// What contracts see of a piece.
    type Shown;

    /// What the lines of a piece have found so far.
    type Partial: Copy;

    /// What a line reads and knows, kept so that the line can be worked elsewhere.
    type Inputs: Drop;

    /// What a line gives.
    type Outputs: Drop;

    /// How such pieces are done, and what they leave.
    ghost work: { Work Self Self.Shown Self.Partial Self.Inputs Self.Outputs };

    /// The partial answer before the first line.
    fn start() -> Self::Partial
        ensures { result ≡ work.machine.start };

    /// How many lines the piece has.
    fn line_count(&self) -> u64
        ensures { result ≡ work.machine.lines (work.shown self.now) };

    /// Whether the lists of pieces are equal.
    fn are_same(a: &[Self], b: &[Self]) -> bool
        ensures { IsTrue result ↔ (map work.shown a.now ≡ map work.shown b.now) };

    /// Does the line at a place of the piece's lines.
    fn do_line(&self, image: &mut Image, line: u64, partial: &mut Self::Partial)
        requires inside { HoldsPiece work.machine image.old (work.shown self.now) }
        requires place { line < work.machine.lines (work.shown self.now) }
        ensures memory { image.new ≡
            (work.machine.line (work.shown self.now) line image.old partial.old).memory }
        ensures answer { partial.new ≡
            (work.machine.line (work.shown self.now) line image.old partial.old).answer };

    /// The inputs of the line at a place of the piece's lines.
    fn gather(&self, image: &Image, line: u64, partial: &Self::Partial) -> Self::Inputs
        requires inside { HoldsPiece work.machine image.now (work.shown self.now) }
        requires place { line < work.machine.lines (work.shown self.now) }
        ensures piece { work.piece result ≡ work.shown self.now }
        ensures place { work.place result ≡ line }
        ensures partial { work.partial result ≡ partial.now }
        ensures read { work.reads image.now result };

    /// Puts the inputs of the line at a place of the piece's lines in the place of others.
    fn gather_into(
        &self,
        image: &Image,
        line: u64,
        partial: &Self::Partial,
        inputs: &mut Self::Inputs,
    )
        requires inside { HoldsPiece work.machine image.now (work.shown self.now) }
        requires place { line < work.machine.lines (work.shown self.now) }
        ensures piece { work.piece inputs.new ≡ work.shown self.now }
        ensures place { work.place inputs.new ≡ line }
        ensures partial { work.partial inputs.new ≡ partial.now }
        ensures read { work.reads image.now inputs.new };

    /// Whether the inputs are those of this line of the piece, after this partial answer.
    fn is_of_line(&self, inputs: &Self::Inputs, line: u64, partial: &Self::Partial) -> bool
        ensures { IsTrue result ↔ ((work.piece inputs.now ≡ work.shown self.now) ×
            (work.place inputs.now ≡ line) × (work.partial inputs.now ≡ partial.now)) };

    /// How many lines of the piece are done after that of the inputs.
    fn lines_after(inputs: &Self::Inputs) -> u64
        ensures { result ≡ work.place inputs.now + 1 };

    /// Whether the line of the inputs reads the same here.
    fn still_reads(image: &Image, inputs: &Self::Inputs) -> bool
        requires { HoldsPiece work.machine image.now (work.piece inputs.now) }
        ensures { IsTrue result ↔ work.reads image.now inputs.now };

    /// Outputs to be overwritten.
    fn no_outputs() -> Self::Outputs;

    /// Puts the outputs of the line, from only its inputs, in the place of others.
    fn compute(inputs: &Self::Inputs, outputs: &mut Self::Outputs)
        ensures { work.gives inputs.now outputs.new };

    /// Does what the outputs say, and returns their partial answer.
    fn store(image: &mut Image, outputs: &Self::Outputs) -> Self::Partial
        requires { (a : ℕ) → work.targets outputs.now a → Holds image.old a }
        ensures memory { image.new ≡ (work.stored outputs.now image.old).memory }
        ensures answer { result ≡ (work.stored outputs.now image.old).answer };

    /// Writes the completion record that the partial answer gives, and returns what it says.
    fn finish(&self, image: &mut Image, partial: &Self::Partial) -> Record
        requires { HoldsPiece work.machine image.old (work.shown self.now) }
        ensures memory { image.new ≡
            (work.machine.finish (work.shown self.now) image.old partial.now).memory }
        ensures record { result ≡ work.record_from (work.shown self.now) partial.now };

    /// The parts of the work fit each other.
    fn work_fits()
        ensures { IsWork work };
}
