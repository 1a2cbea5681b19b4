// Records of the scoring package.

#![tactic(auto, unfolding(crate::specs::Status::status, vectors::specs::Each::stop_only))]

ghost use Rattle.std.specs.Prelude.{◌≡◌};
ghost use Rattle.slash.specs.Answers.{WhenDone};
ghost use Rattle.vectors.specs.Each.{vector_after, EachPlace};
ghost use Rattle.importing.specs.Records.{BestRecord};
ghost use Rattle.importing.specs.Imports.{records_in, import_each};
ghost use Rattle.lekhnaom.specs.Status.{status};

use crate::status::status;

// The word of each record, of timings or a ratio, in fixed k = 15. Stops 16, 3; 17, 18 at a record.
#[unsafe(no_mangle)]
pub extern "C" fn slash_timings(records: &[u8], words: &mut [u64]) -> u64
    ensures returned { result ≡ status (import_each records.now words.old) }
    ensures stored { words.new ≡ vector_after (import_each records.now words.old) words.old }
    ensures best { WhenDone (import_each records.now words.old) (λ _. EachPlace BestRecord (records_in records.now) words.new) }
{
    status(importing::import_records(records, words))
}
