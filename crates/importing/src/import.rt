// Records imported: the word of each into a lent vector.
ghost use Rattle.std.specs.Prelude.{◌≡◌, map, ◌*◌, length};
ghost use Rattle.slash.specs.Steps.{or_zero};
ghost use Rattle.slash.specs.Answers.{WhenDone};
ghost use Rattle.vectors.specs.Each.{vector_after, stop_only, EachPlace};
ghost use Rattle.vectors.specs.Checks.{checks};
ghost use Rattle.importing.specs.Records.{record_word, BestRecord};
ghost use Rattle.importing.specs.Imports.{first_records, records_in, import_each};
ghost use Rattle.importing.specs.Steps.{check_record};

use crate::record::{read_record, word_of};
use crate::stop;
use slash::Stop;

// How many bytes a record has.
const RECORD: usize = 12;

// The first stop of the records.
fn check_records(records: &[u8]) -> Result<(), Stop>
    ensures { result ≡ checks check_record 0 (records_in records.now) }
{
    for (i, record) in records.chunks_exact(RECORD).enumerate() {
        if let Err(s) = read_record(record) {
            return Err(Stop {
                number: s.number,
                place: i as u64,
            });
        }
    }
    Ok(())
}

// The records have been checked, so that none gives 0 for a stop.
fn store_words(records: &[u8], words: &mut [u64])
    requires { 12 * length words.old ≡ length records.now }
    ensures { words.new ≡ map (λ x. or_zero (record_word x)) (first_records (length words.old) records.now) }
{
    for (i, word) in words.iter_mut().enumerate() {
        *word = word_of(&records[RECORD * i..]);
    }
}

// The word of each record. All records are checked before any word is stored.
pub fn import_records(records: &[u8], words: &mut [u64]) -> Result<(), Stop>
    ensures answered { result ≡ stop_only (import_each records.now words.old) }
    ensures stored { words.new ≡ vector_after (import_each records.now words.old) words.old }
    ensures best { WhenDone result (λ _. EachPlace BestRecord (records_in records.now) words.new) }
{
    if records.len() % RECORD != 0 {
        return Err(Stop::plain(stop::BYTES));
    }
    if records.len() / RECORD != words.len() {
        return Err(Stop::plain(Stop::LENGTH));
    }
    check_records(records)?;
    store_words(records, words);
    Ok(())
}
