// The views announced: where one stands, what a view line and an entry ask, and the list.
#![tactic(auto)]

ghost use Rattle.std.specs.Prelude.{◌≡◌, ◌≤◌, eqb, length};
ghost use Rattle.std.specs.List.{find};
ghost use Rattle.group.specs.Words.{num};
ghost use Rattle.views.specs.Views.{view_what, enter_what, listed};

use deeds::What;
use group::words::{heads_of, number_of, session_of};

// The most views.
const VIEWS: usize = 1000;

// What is asked for a view announced twice, one past the most, and one that is unknown.
const REFUSED: What = What::Refuse { number: 14 };

// The view announced as number v.
fn find_view(views: &[u64], v: u32) -> Option<u64>
    ensures { result ≡ find (λ view. eqb (num view) v) views.now }
{
    views
        .iter()
        .copied()
        .find(|view| number_of(*view) == u64::from(v))
}

#[tactic(auto, using(crate::proofs::Laws::known_refused, crate::proofs::Laws::unknown), unfolding(crate::specs::Views::view_what))]
pub fn view_what(grouped: bool, views: &[u64], v: u32, heads: u16) -> What
    ensures { result ≡ view_what grouped views.now v heads }
{
    match find_view(views, v) {
        None if grouped && views.len() < VIEWS => What::Announce { number: v, heads },
        _ => REFUSED,
    }
}

#[tactic(auto, using(crate::proofs::Laws::known, crate::proofs::Laws::unknown), unfolding(crate::specs::Views::enter_what))]
pub fn enter_what(grouped: bool, views: &[u64], v: u32) -> What
    ensures { result ≡ enter_what grouped views.now v }
{
    match find_view(views, v) {
        Some(view) if grouped => What::Enter {
            view: v,
            heads: heads_of(view),
        },
        _ => REFUSED,
    }
}

// A view that is announced goes on the list. The list is lent memory with a count of how much is used, since memory is fixed.
pub fn list_view(views: &mut [u64], n: usize, what: What)
    requires { n ≤ length views.old }
    ensures { views.new ≡ listed n what views.old }
{
    if let What::Announce { number, heads } = what {
        if n < views.len() {
            views[n] = session_of(u64::from(number), heads);
        }
    }
}
