// What the writer answers. What each case tells, in the paper's numbers and values, stands in specs/.
ghost use Rattle.std.specs.Prelude.{◌≡◌};
ghost use Rattle.words.specs.Meaning.{numbered_told};
ghost use Rattle.line_writer.specs.Answers.{written_told};

use words::Refusal;

// The same as a number.
pub fn bytes_number(written: Result<usize, Refusal>) -> Result<u64, Refusal>
    ensures { numbered_told result ≡ written_told written }
{
    written.map(|n| n as u64)
}
