// The calls for C and Rust to link: plain numbers, lent slices and structs by value. Each hands its arguments on and its answer back as a small number.
#![tactic(auto)]

pub mod calls;
pub mod reading;

ghost use Rattle.std.specs.Prelude.{◌≡◌, cond};
ghost use Rattle.group.specs.Quorum.{quorum_test};
ghost use Rattle.record.specs.Start.{start_spec};
ghost use Rattle.record.specs.Whole.{whole};
ghost use Rattle.recovery.specs.Recover.{recover_spec};
ghost use Rattle.codes.specs.Codes.{code as code_of, verdict_code};

use codes::{code, verdict_code};
use group::Group;

#[unsafe(no_mangle)]
pub extern "C" fn head_quorum(core: u16, least: u8, s: u16, t: u16) -> u8
    ensures { result ≡ verdict_code (quorum_test core least s t) }
{
    let group = Group { core, least };
    verdict_code(group.quorum(s, t))
}

#[unsafe(no_mangle)]
pub extern "C" fn head_start(words: &mut [u64], head: u8, core: u16, least: u8) -> u8
    ensures { (result ≡ code_of (start_spec words.old head core least).answer) × (words.new ≡ (start_spec words.old head core least).rec) }
{
    code(start::start(words, head, core, least))
}

#[unsafe(no_mangle)]
pub extern "C" fn head_recover(words: &mut [u64], stores: u64) -> u8
    ensures { (result ≡ code_of (recover_spec words.old stores).answer) × (words.new ≡ (recover_spec words.old stores).rec) }
{
    code(mending::recover(words, stores))
}

// 1 for a whole record, 0 for any other words.
#[unsafe(no_mangle)]
pub extern "C" fn head_whole(words: &[u64]) -> u8
    ensures { result ≡ cond (whole words.now) 1 0 }
{
    u8::from(whole::is_whole(words))
}
