// The words of a refusal, by its number.
ghost use Rattle.std.specs.Prelude.{◌≡◌};
ghost use Rattle.line_writer.specs.Answers.{written_told};
ghost use Rattle.line_refusal.specs.Words.{refusal_words_of, refusal_words_bytes};

use line_writer::order_lines::write_text;
use words::Refusal;

// The words of the refusal with this number, written at the front of a buffer. (C asks by the number, and any number has words.)
pub fn refusal_words(number: u8, buf: &mut [u8]) -> Result<usize, Refusal>
    ensures answer { written_told result ≡ refusal_words_of number buf.old }
    ensures bytes { buf.new ≡ refusal_words_bytes number buf.old }
{
    match number {
        0 => write_text(b"accepted", buf),
        1 => write_text(b"ports or length not 2 to 20", buf),
        2 => write_text(b"does not fit the buffer", buf),
        3 => write_text(b"entry outside the panel's ports", buf),
        4 => write_text(b"entry equal to an earlier one", buf),
        5 => write_text(b"entry equal to its own jack", buf),
        6 => write_text(b"rank not below the count", buf),
        7 => write_text(b"not the key that belongs here", buf),
        8 => write_text(b"number badly written or too large", buf),
        9 => write_text(b"legs not 1 to 16", buf),
        10 => write_text(b"run too long", buf),
        11 => write_text(b"text ended early or went on", buf),
        12 => write_text(b"report of a mark that does not stand", buf),
        13 => write_text(b"request while a mark stands", buf),
        14 => write_text(b"report kind above 2", buf),
        15 => write_text(b"state unfit", buf),
        16 => write_text(b"error reported when 65,535 are counted", buf),
        17 => write_text(b"jack or port off the panel, or order out of shape", buf),
        _ => write_text(b"no refusal has this number", buf),
    }
}
