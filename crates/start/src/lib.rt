// Start: the call that makes the record of a head, whatever stood there.
#![tactic(auto)]

ghost use Rattle.std.specs.Prelude.{◌≡◌};
ghost use Rattle.record.specs.Outcome.{outcome};
ghost use Rattle.record.specs.Start.{taken_least, can_start, start_spec};

use group::{Answer, Group, Refusal};
use record::layout::Record;

// Q as start takes it: for 0 the default.
#[tactic(auto, unfolding(record::specs::Start::taken_least))]
fn taken_least(least: u8) -> u8
    ensures { result ≡ taken_least least }
{
    if least == 0 { 1 } else { least }
}

#[tactic(auto, unfolding(record::specs::Start::can_start))]
fn can_start(head: u8, group: Group) -> bool
    ensures { result ≡ can_start head group.core group.least }
{
    head <= Group::LAST && group.is_group()
}

// Makes the record of a head that starts, whatever stood there.
pub fn start(rec: &mut [u64], head: u8, core: u16, least: u8) -> Result<Answer, Refusal>
    ensures { outcome rec.new result ≡ start_spec rec.old head core least }
{
    let group = Group {
        core,
        least: taken_least(least),
    };
    if !can_start(head, group) {
        return Err(Refusal::Group);
    }
    let Some(words): Option<&mut Record> = rec.as_mut_array() else {
        return Err(Refusal::Record);
    };
    *words = group.fresh(head);
    Ok(Answer::Started)
}
