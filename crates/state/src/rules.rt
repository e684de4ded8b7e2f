// Line rules 4 to 7, with the sender as own head.
ghost use Rattle.std.specs.List.{list_all, enumerate_from};
ghost use Rattle.std.specs.Prelude.{◌≡◌, ℕ, fold, true, Bool, cond, ◌&&◌, ◌≤◌, ◌<◌, get_or, leb, eqb, length};
ghost use Rattle.loops.specs.Below.{all_below};
ghost use Rattle.group.specs.Heads.{has};
ghost use Rattle.group.specs.Words.{num, formed_ok};
ghost use Rattle.group.specs.Words.{sound as sound_of};
ghost use Rattle.state.specs.Rules.{place_ok, prior, keeps_rules, number_of_rule, rule_number};
ghost use Rattle.state.specs.Rules.{rule4 as rule4_of, rule5 as rule5_of, rule6 as rule6_of, rule7 as rule7_of, broken as broken_of};

use crate::State;
use group::Group;
use group::words::{
    formed_fits, formed_ok, has_head, number_of, primary_ok, rank_of, sound, usual_formed,
};

// The rules of a line, numbered as document 01 and the caller have them.
#[derive(Clone, Copy, Debug, PartialEq, Eq)]
pub enum Rule {
    Digits = 1,
    Length = 2,
    Head = 3,
    Empty = 4,
    Formed = 5,
    Places = 6,
    Numbers = 7,
}

impl From<Rule> for u8 {
    ghost from_gives = { λ rule number. number ≡ number_of_rule rule };

    fn from(rule: Rule) -> u8 {
        rule as u8
    }
}

// Each word is a session with heads, or 0.
fn all_sound(words: &[u64]) -> bool
    ensures { result ≡ list_all sound_of words.now }
{
    words.iter().all(|w| sound(*w))
}

// Each word has a number of at most top.
fn all_within(words: &[u64], top: u64) -> bool
    ensures { result ≡ list_all (λ w. leb (num w) top) words.now }
{
    words.iter().all(|w| number_of(*w) <= top)
}

// Every last formed is what it nearly always is. A fold, here and below: a chain that ends at the first failure is no vector loop.
fn all_usual(p: u64, words: &[u64; Group::HEADS]) -> bool
    ensures { result ≡ fold (λ (ok : Bool) (x : ℕ × ℕ). ok && eqb x.1 (cond (has p x.0) p 0)) true (enumerate_from 0 words.now) }
{
    words
        .iter()
        .enumerate()
        .fold(true, |ok, (q, w)| ok & (*w == usual_formed(p, q)))
}

fn all_formed_ok(own: usize, p: u64, words: &[u64; Group::HEADS]) -> bool
    requires { own < 16 }
    ensures { result ≡ fold (λ (ok : Bool) (x : ℕ × ℕ). ok && formed_ok own p x.0 x.1) true (enumerate_from 0 words.now) }
{
    words
        .iter()
        .enumerate()
        .fold(true, |ok, (q, w)| ok & formed_ok(own, p, q, *w))
}

// Last formed of head own with last primary p. The usual words are tried first: to tell them takes fewer instructions.
fn formed_kept(own: usize, p: u64, words: &[u64; Group::HEADS]) -> bool
    requires { own < 16 }
    ensures { result ≡ all_below 16 (λ q. formed_ok own p q (get_or words.now q 0)) }
{
    all_usual(p, words) || all_formed_ok(own, p, words)
}

// A place of head own with last primary p, after the place before it.
#[tactic(auto, unfolding(crate::specs::Rules::place_ok))]
fn place_ok(own: usize, p: u64, before: u64, w: u64) -> bool
    requires { own < 16 }
    ensures { result ≡ place_ok own p before w }
{
    (number_of(before) < number_of(w)) & (rank_of(p) < rank_of(w)) & has_head(w, own)
}

// Each place, after the one before it: a chain would hand a pair from turn to turn.
fn all_place_ok(own: usize, p: u64, places: &[u64]) -> bool
    requires { own < 16 }
    ensures { result ≡ all_below (length places.now) (λ i. place_ok own p (prior places.now i) (get_or places.now i 0)) }
{
    let mut ok = true;
    let mut before = 0;
    for w in places {
        ok = ok & place_ok(own, p, before, *w);
        before = *w;
    }
    ok
}

fn rule4(st: &State) -> bool
    requires { st.now.count ≤ 16 }
    ensures { result ≡ rule4_of st.now }
{
    sound(st.primary) & all_sound(&st.formed) & all_sound(&st.places[..st.count])
}

#[tactic(auto, unfolding(crate::specs::Rules::rule5))]
fn rule5(st: &State, sender: usize) -> bool
    requires { sender < 16 }
    ensures { result ≡ rule5_of st.now sender }
{
    primary_ok(sender, st.primary) & formed_kept(sender, st.primary, &st.formed)
}

fn rule6(st: &State, sender: usize) -> bool
    requires { (sender < 16) × (st.now.count ≤ 16) }
    ensures { result ≡ rule6_of st.now sender }
{
    all_place_ok(sender, st.primary, &st.places[..st.count])
}

fn rule7(st: &State) -> bool
    requires { st.now.count ≤ 16 }
    ensures { result ≡ rule7_of st.now }
{
    let top = u64::from(st.number);
    (number_of(st.primary) <= top)
        & all_within(&st.formed, top)
        & all_within(&st.places[..st.count], top)
}

// Rule 6, and that the last place's number is not above the session number.
fn places_kept(st: &State, sender: usize) -> bool
    requires { (sender < 16) × (st.now.count ≤ 16) }
    ensures { result ≡ (leb (num (prior st.now.places st.now.count)) st.now.number && rule6_of st.now sender) }
{
    match st.places[..st.count].last() {
        Some(last) => (number_of(*last) <= u64::from(st.number)) & rule6(st, sender),
        None => true,
    }
}

// The state keeps rules 4 to 7, by those of their tests from which the others follow. `fit` answers rule 5's test of last formed, which is asked of lines that are read without branches and of held states with them.
fn keeps_all(st: &State, sender: usize, fit: bool) -> bool
    requires { (sender < 16) × (st.now.count ≤ 16) × (fit ≡ all_below 16 (λ q. formed_ok sender st.now.primary q (get_or st.now.formed q 0))) }
    ensures { result ≡ eqb (broken_of st.now sender) 0 }
{
    let p = st.primary;
    (number_of(p) <= u64::from(st.number)) & primary_ok(sender, p) & fit & places_kept(st, sender)
}

// The first of rules 4 to 7 that the state breaks, each rule by all of its tests.
#[tactic(auto, unfolding(crate::specs::Rules::broken))]
fn first_broken(st: &State, sender: usize) -> Result<(), Rule>
    requires { (sender < 16) × (st.now.count ≤ 16) }
    ensures { rule_number result ≡ broken_of st.now sender }
{
    if !rule4(st) {
        return Err(Rule::Empty);
    }
    if !rule5(st, sender) {
        return Err(Rule::Formed);
    }
    if !rule6(st, sender) {
        return Err(Rule::Places);
    }
    if !rule7(st) {
        return Err(Rule::Numbers);
    }
    Ok(())
}

// The first of rules 4 to 7 that the state breaks; nearly every line keeps them.
pub fn broken(st: &State, sender: usize) -> Result<(), Rule>
    requires { (sender < 16) × (st.now.count ≤ 16) }
    ensures { rule_number result ≡ broken_of st.now sender }
{
    let fit = formed_kept(sender, st.primary, &st.formed);
    if keeps_all(st, sender, fit) {
        return Ok(());
    }
    first_broken(st, sender)
}

// The states that a head holds are nearly always alike: they are judged with branches, and end at the first word that fails.
fn all_formed_fit(own: usize, p: u64, words: &[u64; Group::HEADS]) -> bool
    requires { own < 16 }
    ensures { result ≡ list_all (λ (x : ℕ × ℕ). formed_ok own p x.0 x.1) (enumerate_from 0 words.now) }
{
    words
        .iter()
        .enumerate()
        .all(|(q, w)| formed_fits(own, p, q, *w))
}

// The state keeps rules 4 to 7, with at most 16 places.
pub fn keeps_rules(st: &State, sender: usize) -> bool
    requires { sender < 16 }
    ensures { result ≡ keeps_rules st.now sender }
{
    if Group::PLACES < st.count {
        return false;
    }
    let fit = all_formed_fit(sender, st.primary, &st.formed);
    keeps_all(st, sender, fit)
}
