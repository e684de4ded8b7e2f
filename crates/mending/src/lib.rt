// Recovery: the recovered record is made on a copy, and stored where it differs from the cut one.
#![tactic(auto)]

ghost use Rattle.std.specs.Prelude.{◌≡◌};
ghost use Rattle.record.specs.Outcome.{outcome};
ghost use Rattle.recovery.specs.Recover.{recover_spec};

use group::{Answer, Refusal};
use record::layout::{Record, change_record};
use recovered::mended;
use store::Pen;
use whole::{is_whole, words_whole};

// Recovers a record of 52 words, with at most so many stores. One that the steps do not make whole is refused before the first store.
fn recover_words(rec: &mut Record, stores: u64) -> Result<Answer, Refusal>
    ensures { outcome rec.new result ≡ recover_spec rec.old stores }
{
    let to = mended(rec);
    if !words_whole(&to) {
        return Err(Refusal::Record);
    }
    match change_record(rec, Pen::Left(stores), &to) {
        Pen::Left(_) => Ok(Answer::Recovered),
        Pen::Cut => Ok(Answer::Cut),
    }
}

// Recovers a cut record, with at most so many stores. A whole one is left as it is.
pub fn recover(rec: &mut [u64], stores: u64) -> Result<Answer, Refusal>
    ensures { outcome rec.new result ≡ recover_spec rec.old stores }
{
    if is_whole(rec) {
        return Ok(Answer::Recovered);
    }
    let Some(words) = rec.as_mut_array() else {
        return Err(Refusal::Record);
    };
    recover_words(words, stores)
}
