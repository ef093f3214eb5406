// The calls for C on order lines: written and read (include/jidrofex.h).
#![tactic(auto)]

ghost use Rattle.std.specs.Prelude.{◌≡◌};
ghost use Rattle.listing.specs.Limits.{most_ports, largest64};
ghost use Rattle.line_format.specs.Calls.{write_of, write_bytes};
ghost use Rattle.line_format.specs.Reading.{read_of};
ghost use Rattle.face_values.specs.Answers.{number_told, words_told, one_number};
ghost use Rattle.face_values.specs.Lines.{line_in};
ghost use Rattle.face_laws.specs.Values.{line_and_place};

use face_values::answers::{ANSWER_WORDS, give_numbered, refuse};
use face_values::lines::{LINE_WORDS, give_line, line_in};
use line_reader::order_lines::read_line;
use line_writer::answers::bytes_number;
use line_writer::order_lines::write_line;

// A line written at the front of the buffer.
pub fn jidrofex_write_line(
    line: &[u64; LINE_WORDS],
    buffer: &mut [u8],
    answer: &mut [u64; ANSWER_WORDS],
) -> u8
    ensures number { result ≡ number_told (write_of most_ports (line_in line.now) buffer.old) }
    ensures words { answer.new ≡ words_told one_number (write_of most_ports (line_in line.now) buffer.old) }
    ensures bytes { buffer.new ≡ write_bytes most_ports (line_in line.now) buffer.old }
{
    give_numbered(bytes_number(write_line(line_in(line), buffer)), answer)
}

// The line that starts at a place of the text.
pub fn jidrofex_read_line(text: &[u8], place: usize, answer: &mut [u64; ANSWER_WORDS]) -> u8
    ensures number { result ≡ number_told (read_of largest64 most_ports text.now place) }
    ensures words { answer.new ≡ words_told line_and_place (read_of largest64 most_ports text.now place) }
{
    match read_line(text, place) {
        Err(f) => refuse(f, answer),
        Ok((line, next)) => give_line(line, next as u64, answer),
    }
}
