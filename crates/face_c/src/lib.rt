// The library for C, include/jidrofex.h: each call under the name, the signature and the clauses of the function that it calls, and nothing else. What a static
// library exports no Rattle crate can use, so the calls themselves stand in the crates below.
#![tactic(auto)]

ghost use Rattle.std.specs.Prelude.{◌≡◌, false, get_or, length, true};
ghost use Rattle.listing.specs.Limits.{largest64, most_ports};
ghost use Rattle.promise.specs.Campaign.{report, report_on, request};
ghost use Rattle.pattern_check.specs.Calls.{check_as};
ghost use Rattle.patterns.specs.Calls.{beside_bytes, beside_of, count_of, rank_of, step_of, unrank_bytes, unrank_of};
ghost use Rattle.dictionary_laws.specs.Calls.{dictionary_next_bytes, dictionary_next_of, dictionary_number_of, dictionary_pattern_bytes, dictionary_pattern_of, number_to_rank_of, rank_to_number_of};
ghost use Rattle.panel.specs.Calls.{carry_bytes, carry_of, jack_of, port_of};
ghost use Rattle.line_format.specs.Calls.{write_bytes, write_of};
ghost use Rattle.line_format.specs.Reading.{read_of};
ghost use Rattle.line_refusal.specs.Words.{refusal_words_bytes, refusal_words_of};
ghost use Rattle.line_sentence.specs.Sentences.{refusal_sentence_bytes, refusal_sentence_of};
ghost use Rattle.plan_named.specs.Calls.{named_numbers, named_of};
ghost use Rattle.face_values.specs.Answers.{nothing, number_told, one_number, version_told, words_told};
ghost use Rattle.face_values.specs.Lines.{line_in, move_words};
ghost use Rattle.face_laws.specs.Calls.{begin_told, begin_words, called_told, called_words, orders_bytes, orders_told, orders_words, rehearse_told, rehearse_words, request_bytes, resume_told, resume_words, status_in};
ghost use Rattle.face_laws.specs.Values.{bytes_and_end, line_and_place, names_words, order_and_bytes, where_words};

use face_values::answers::ANSWER_WORDS;
use face_values::lines::LINE_WORDS;

// ---- face_words

// The version of the library.
#[unsafe(no_mangle)]
pub extern "C" fn jidrofex_version(answer: &mut [u64; ANSWER_WORDS]) -> u8
    ensures number { result ≡ number_told version_told }
    ensures words { answer.new ≡ words_told one_number version_told }
{
    face_words::jidrofex_version(answer)
}

// The words of a refusal, by its number, at the front of the buffer.
#[unsafe(no_mangle)]
pub extern "C" fn jidrofex_refusal_words(
    number: u8,
    buffer: &mut [u8],
    answer: &mut [u64; ANSWER_WORDS],
) -> u8
    ensures number { result ≡ number_told (refusal_words_of number buffer.old) }
    ensures words { answer.new ≡ words_told one_number (refusal_words_of number buffer.old) }
    ensures bytes { buffer.new ≡ refusal_words_bytes number buffer.old }
{
    face_words::jidrofex_refusal_words(number, buffer, answer)
}

// A refusal as a sentence, from its number and the first two words of its answer, at the front of the buffer.
#[unsafe(no_mangle)]
pub extern "C" fn jidrofex_refusal_sentence(
    number: u8,
    refused: &[u64; ANSWER_WORDS],
    buffer: &mut [u8],
    answer: &mut [u64; ANSWER_WORDS],
) -> u8
    ensures number { result ≡ number_told (refusal_sentence_of number (get_or refused.now 0 0) (get_or refused.now 1 0) buffer.old) }
    ensures words { answer.new ≡ words_told one_number (refusal_sentence_of number (get_or refused.now 0 0) (get_or refused.now 1 0) buffer.old) }
    ensures bytes { buffer.new ≡ refusal_sentence_bytes number (get_or refused.now 0 0) (get_or refused.now 1 0) buffer.old }
{
    face_words::jidrofex_refusal_sentence(number, refused, buffer, answer)
}

// ---- face_patterns

// Whether it is a pattern.
#[unsafe(no_mangle)]
pub extern "C" fn jidrofex_check(pattern: &[u8], answer: &mut [u64; ANSWER_WORDS]) -> u8
    ensures number { result ≡ number_told (check_as true most_ports pattern.now) }
    ensures words { answer.new ≡ words_told nothing (check_as true most_ports pattern.now) }
{
    face_patterns::jidrofex_check(pattern, answer)
}

// Whether it is a panel.
#[unsafe(no_mangle)]
pub extern "C" fn jidrofex_check_panel(panel: &[u8], answer: &mut [u64; ANSWER_WORDS]) -> u8
    ensures number { result ≡ number_told (check_as false most_ports panel.now) }
    ensures words { answer.new ≡ words_told nothing (check_as false most_ports panel.now) }
{
    face_patterns::jidrofex_check_panel(panel, answer)
}

// How many patterns there are.
#[unsafe(no_mangle)]
pub extern "C" fn jidrofex_count(ports: u8, answer: &mut [u64; ANSWER_WORDS]) -> u8
    ensures number { result ≡ number_told (count_of most_ports ports) }
    ensures words { answer.new ≡ words_told one_number (count_of most_ports ports) }
{
    face_patterns::jidrofex_count(ports, answer)
}

// The rank of a pattern.
#[unsafe(no_mangle)]
pub extern "C" fn jidrofex_rank(pattern: &[u8], answer: &mut [u64; ANSWER_WORDS]) -> u8
    ensures number { result ≡ number_told (rank_of most_ports pattern.now) }
    ensures words { answer.new ≡ words_told one_number (rank_of most_ports pattern.now) }
{
    face_patterns::jidrofex_rank(pattern, answer)
}

// The pattern of a rank, written over the bytes of `pattern`.
#[unsafe(no_mangle)]
pub extern "C" fn jidrofex_unrank(
    rank: u64,
    pattern: &mut [u8],
    answer: &mut [u64; ANSWER_WORDS],
) -> u8
    ensures number { result ≡ number_told (unrank_of most_ports rank pattern.old) }
    ensures words { answer.new ≡ words_told nothing (unrank_of most_ports rank pattern.old) }
    ensures bytes { pattern.new ≡ unrank_bytes most_ports rank pattern.old }
{
    face_patterns::jidrofex_unrank(rank, pattern, answer)
}

// The pattern becomes the next one round the circuit.
#[unsafe(no_mangle)]
pub extern "C" fn jidrofex_next(pattern: &mut [u8], answer: &mut [u64; ANSWER_WORDS]) -> u8
    ensures number { result ≡ number_told (beside_of most_ports false pattern.old) }
    ensures words { answer.new ≡ words_told move_words (beside_of most_ports false pattern.old) }
    ensures bytes { pattern.new ≡ beside_bytes most_ports false pattern.old }
{
    face_patterns::jidrofex_next(pattern, answer)
}

// The pattern becomes the previous one round the circuit.
#[unsafe(no_mangle)]
pub extern "C" fn jidrofex_previous(pattern: &mut [u8], answer: &mut [u64; ANSWER_WORDS]) -> u8
    ensures number { result ≡ number_told (beside_of most_ports true pattern.old) }
    ensures words { answer.new ≡ words_told move_words (beside_of most_ports true pattern.old) }
    ensures bytes { pattern.new ≡ beside_bytes most_ports true pattern.old }
{
    face_patterns::jidrofex_previous(pattern, answer)
}

// The rank k further round the circuit.
#[unsafe(no_mangle)]
pub extern "C" fn jidrofex_step(
    ports: u8,
    rank: u64,
    k: i64,
    answer: &mut [u64; ANSWER_WORDS],
) -> u8
    ensures number { result ≡ number_told (step_of most_ports ports rank k) }
    ensures words { answer.new ≡ words_told one_number (step_of most_ports ports rank k) }
{
    face_patterns::jidrofex_step(ports, rank, k, answer)
}

// ---- face_dictionary

// The dictionary number of a pattern.
#[unsafe(no_mangle)]
pub extern "C" fn jidrofex_dictionary_number(pattern: &[u8], answer: &mut [u64; ANSWER_WORDS]) -> u8
    ensures number { result ≡ number_told (dictionary_number_of most_ports pattern.now) }
    ensures words { answer.new ≡ words_told one_number (dictionary_number_of most_ports pattern.now) }
{
    face_dictionary::jidrofex_dictionary_number(pattern, answer)
}

// The pattern of a dictionary number, written over the bytes of `pattern`.
#[unsafe(no_mangle)]
pub extern "C" fn jidrofex_dictionary_pattern(
    number: u64,
    pattern: &mut [u8],
    answer: &mut [u64; ANSWER_WORDS],
) -> u8
    ensures number { result ≡ number_told (dictionary_pattern_of most_ports number pattern.old) }
    ensures words { answer.new ≡ words_told nothing (dictionary_pattern_of most_ports number pattern.old) }
    ensures bytes { pattern.new ≡ dictionary_pattern_bytes most_ports number pattern.old }
{
    face_dictionary::jidrofex_dictionary_pattern(number, pattern, answer)
}

// The pattern becomes the next one in dictionary order.
#[unsafe(no_mangle)]
pub extern "C" fn jidrofex_dictionary_next(
    pattern: &mut [u8],
    answer: &mut [u64; ANSWER_WORDS],
) -> u8
    ensures number { result ≡ number_told (dictionary_next_of most_ports pattern.old) }
    ensures words { answer.new ≡ words_told nothing (dictionary_next_of most_ports pattern.old) }
    ensures bytes { pattern.new ≡ dictionary_next_bytes most_ports pattern.old }
{
    face_dictionary::jidrofex_dictionary_next(pattern, answer)
}

// From a dictionary number to the rank of the same pattern.
#[unsafe(no_mangle)]
pub extern "C" fn jidrofex_number_to_rank(
    ports: u8,
    number: u64,
    answer: &mut [u64; ANSWER_WORDS],
) -> u8
    ensures number { result ≡ number_told (number_to_rank_of most_ports ports number) }
    ensures words { answer.new ≡ words_told one_number (number_to_rank_of most_ports ports number) }
{
    face_dictionary::jidrofex_number_to_rank(ports, number, answer)
}

// From a rank to the dictionary number of the same pattern.
#[unsafe(no_mangle)]
pub extern "C" fn jidrofex_rank_to_number(
    ports: u8,
    rank: u64,
    answer: &mut [u64; ANSWER_WORDS],
) -> u8
    ensures number { result ≡ number_told (rank_to_number_of most_ports ports rank) }
    ensures words { answer.new ≡ words_told one_number (rank_to_number_of most_ports ports rank) }
{
    face_dictionary::jidrofex_rank_to_number(ports, rank, answer)
}

// ---- face_panel

// The port at a jack.
#[unsafe(no_mangle)]
pub extern "C" fn jidrofex_port_at(panel: &[u8], jack: u8, answer: &mut [u64; ANSWER_WORDS]) -> u8
    ensures number { result ≡ number_told (port_of most_ports panel.now jack) }
    ensures words { answer.new ≡ words_told one_number (port_of most_ports panel.now jack) }
{
    face_panel::jidrofex_port_at(panel, jack, answer)
}

// The jack that holds a port.
#[unsafe(no_mangle)]
pub extern "C" fn jidrofex_jack_of(panel: &[u8], port: u8, answer: &mut [u64; ANSWER_WORDS]) -> u8
    ensures number { result ≡ number_told (jack_of most_ports panel.now port) }
    ensures words { answer.new ≡ words_told one_number (jack_of most_ports panel.now port) }
{
    face_panel::jidrofex_jack_of(panel, port, answer)
}

// A line carried out on the panel.
#[unsafe(no_mangle)]
pub extern "C" fn jidrofex_carry(
    panel: &mut [u8],
    line: &[u64; LINE_WORDS],
    answer: &mut [u64; ANSWER_WORDS],
) -> u8
    ensures number { result ≡ number_told (carry_of most_ports (line_in line.now) panel.old) }
    ensures words { answer.new ≡ words_told nothing (carry_of most_ports (line_in line.now) panel.old) }
    ensures bytes { panel.new ≡ carry_bytes most_ports (line_in line.now) panel.old }
{
    face_panel::jidrofex_carry(panel, line, answer)
}

// ---- face_lines

// A line written at the front of the buffer.
#[unsafe(no_mangle)]
pub extern "C" fn jidrofex_write_line(
    line: &[u64; LINE_WORDS],
    buffer: &mut [u8],
    answer: &mut [u64; ANSWER_WORDS],
) -> u8
    ensures number { result ≡ number_told (write_of most_ports (line_in line.now) buffer.old) }
    ensures words { answer.new ≡ words_told one_number (write_of most_ports (line_in line.now) buffer.old) }
    ensures bytes { buffer.new ≡ write_bytes most_ports (line_in line.now) buffer.old }
{
    face_lines::jidrofex_write_line(line, buffer, answer)
}

// The line that starts at a place of the text.
#[unsafe(no_mangle)]
pub extern "C" fn jidrofex_read_line(
    text: &[u8],
    place: usize,
    answer: &mut [u64; ANSWER_WORDS],
) -> u8
    ensures number { result ≡ number_told (read_of largest64 most_ports text.now place) }
    ensures words { answer.new ≡ words_told line_and_place (read_of largest64 most_ports text.now place) }
{
    face_lines::jidrofex_read_line(text, place, answer)
}

// ---- face_plans

// The ranks that a plan names, each once, and its gaps at the front of the slice.
#[unsafe(no_mangle)]
pub extern "C" fn jidrofex_named(
    text: &[u8],
    gaps: &mut [u64],
    answer: &mut [u64; ANSWER_WORDS],
) -> u8
    ensures number { result ≡ number_told (named_of text.now gaps.old) }
    ensures words { answer.new ≡ words_told names_words (named_of text.now gaps.old) }
    ensures left { gaps.new ≡ named_numbers text.now gaps.old }
{
    face_plans::jidrofex_named(text, gaps, answer)
}

// ---- face_campaign

// The first state of the plan that the text is.
#[unsafe(no_mangle)]
pub extern "C" fn jidrofex_begin(
    text: &[u8],
    state: &mut [u64],
    answer: &mut [u64; ANSWER_WORDS],
) -> u8
    ensures number { result ≡ number_told (begin_told text.now state.old) }
    ensures words { answer.new ≡ words_told nothing (begin_told text.now state.old) }
    ensures left { state.new ≡ begin_words text.now state.old }
{
    face_campaign::jidrofex_begin(text, state, answer)
}

// The next order, its line at the front of the buffer.
#[unsafe(no_mangle)]
pub extern "C" fn jidrofex_request(
    state: &mut [u64],
    buffer: &mut [u8],
    answer: &mut [u64; ANSWER_WORDS],
) -> u8
    ensures number { result ≡ number_told (called_told (request (length buffer.old)) state.old) }
    ensures words { answer.new ≡ words_told order_and_bytes (called_told (request (length buffer.old)) state.old) }
    ensures left { state.new ≡ called_words (request (length buffer.old)) state.old }
    ensures bytes { buffer.new ≡ request_bytes state.old buffer.old }
{
    face_campaign::jidrofex_request(state, buffer, answer)
}

// What the bench says of the standing mark.
#[unsafe(no_mangle)]
pub extern "C" fn jidrofex_report(
    state: &mut [u64],
    kind: u8,
    answer: &mut [u64; ANSWER_WORDS],
) -> u8
    ensures number { result ≡ number_told (called_told (report kind) state.old) }
    ensures words { answer.new ≡ words_told nothing (called_told (report kind) state.old) }
    ensures left { state.new ≡ called_words (report kind) state.old }
{
    face_campaign::jidrofex_report(state, kind, answer)
}

// What the bench says of the mark with this number.
#[unsafe(no_mangle)]
pub extern "C" fn jidrofex_report_mark(
    state: &mut [u64],
    mark: u64,
    kind: u8,
    answer: &mut [u64; ANSWER_WORDS],
) -> u8
    ensures number { result ≡ number_told (called_told (report_on mark kind) state.old) }
    ensures words { answer.new ≡ words_told nothing (called_told (report_on mark kind) state.old) }
    ensures left { state.new ≡ called_words (report_on mark kind) state.old }
{
    face_campaign::jidrofex_report_mark(state, mark, kind, answer)
}

// Where a campaign is.
#[unsafe(no_mangle)]
pub extern "C" fn jidrofex_status(state: &[u64], answer: &mut [u64; ANSWER_WORDS]) -> u8
    ensures number { result ≡ number_told (status_in state.now) }
    ensures words { answer.new ≡ words_told where_words (status_in state.now) }
{
    face_campaign::jidrofex_status(state, answer)
}

// The rehearsal of the plan that the text is.
#[unsafe(no_mangle)]
pub extern "C" fn jidrofex_rehearse(
    text: &[u8],
    rehearsal: &mut [u64],
    answer: &mut [u64; ANSWER_WORDS],
) -> u8
    ensures number { result ≡ number_told (rehearse_told text.now rehearsal.old) }
    ensures words { answer.new ≡ words_told nothing (rehearse_told text.now rehearsal.old) }
    ensures left { rehearsal.new ≡ rehearse_words text.now rehearsal.old }
{
    face_campaign::jidrofex_rehearse(text, rehearsal, answer)
}

// The state with the panel as it was read back and its seats begun anew, to go on from after a power cut.
#[unsafe(no_mangle)]
pub extern "C" fn jidrofex_resume(
    state: &mut [u64],
    panel: &[u8],
    answer: &mut [u64; ANSWER_WORDS],
) -> u8
    ensures number { result ≡ number_told (resume_told panel.now state.old) }
    ensures words { answer.new ≡ words_told nothing (resume_told panel.now state.old) }
    ensures left { state.new ≡ resume_words panel.now state.old }
{
    face_campaign::jidrofex_resume(state, panel, answer)
}

// As many whole lines as fit the buffer, every mark taken as run.
#[unsafe(no_mangle)]
pub extern "C" fn jidrofex_orders(
    rehearsal: &mut [u64],
    buffer: &mut [u8],
    answer: &mut [u64; ANSWER_WORDS],
) -> u8
    ensures number { result ≡ number_told (orders_told (length buffer.old) rehearsal.old) }
    ensures words { answer.new ≡ words_told bytes_and_end (orders_told (length buffer.old) rehearsal.old) }
    ensures left { rehearsal.new ≡ orders_words (length buffer.old) rehearsal.old }
    ensures bytes { buffer.new ≡ orders_bytes rehearsal.old buffer.old }
{
    face_campaign::jidrofex_orders(rehearsal, buffer, answer)
}
