// The search for the jam of fewest cells: link by link, each cell is counted at the first slot before which it must
// cross, and the counts are summed up slot by slot.
#![tactic(auto)]

ghost use Rattle.std.specs.Prelude.{◌≡◌, suc, ◌<◌, length};
ghost use Rattle.slack.specs.Slack.{traffic_of};
ghost use Rattle.jam.specs.Jam.{first_in, fewer, the_jam};
ghost use Rattle.jam_search.specs.Steps.{Searched, end_of, ends};

use jam::Jam;
use lists::{clear, zeros};
use ring::{Node, Slot, links_between};
use slack::{Cargo, Cell};

// The jam of fewer cells, the first of the two on a tie.
#[tactic(auto, unfolding(jam::specs::Jam::fewer))]
fn fewer_of(best: Option<Jam>, next: Option<Jam>) -> Option<Jam>
    ensures { result ≡ fewer best next }
{
    let Some(old) = best else {
        return next;
    };
    let Some(new) = next else {
        return best;
    };
    if new.cells < old.cells { next } else { best }
}

// The first slot before which a cell must cross the link, if it has to cross it.
#[tactic(auto, unfolding(crate::specs::Steps::end_of))]
fn end_of(nodes: u16, cell: Cell, left: u16, link: u16) -> Option<usize>
    requires { (link < nodes) × (cell.dst.0 < nodes) }
    ensures { result ≡ end_of nodes cell.dst.0 cell.due.0 left link }
{
    let on = links_between(nodes, Node(link), cell.dst);
    if left < on.0 {
        return None;
    }
    let last = cell.due.0 as usize + 1;
    Some(last.saturating_sub(on.0 as usize))
}

// Counts for each slot how many cells have it as their end.
fn count_ends(cargo: Cargo, left: &[u16], link: u16, counts: &mut [u16])
    requires { Searched (traffic_of cargo) left.now (length counts.old) × (link < cargo.nodes) }
    ensures { counts.new ≡ ends (traffic_of cargo.entry) left.now link (length counts.old) (length left.now) }
{
    clear(counts);
    for (i, cell) in cargo.cells.iter().enumerate() {
        if let Some(end) = end_of(cargo.nodes, *cell, left[i], link) {
            counts[end] += 1;
        }
    }
}

// Of one link, the first slot before which it is overfull, if there is one; `counts` has a place for each slot up to the
// last due slot, that one too.
fn first_in(cargo: Cargo, left: &[u16], slots: u16, link: u16, counts: &mut [u16]) -> Option<Jam>
    requires { Searched (traffic_of cargo) left.now (length counts.old) × (link < cargo.nodes)
        × (length counts.old ≡ suc slots) }
    ensures { result ≡ first_in (traffic_of cargo.entry) left.now slots link }
{
    count_ends(cargo, left, link, counts);
    let mut sum = 0u16;
    for b in 0..=slots {
        sum += counts[b as usize];
        if b < sum {
            return Some(Jam {
                cells: sum,
                link: Node(link),
                before: Slot(b),
            });
        }
    }
    None
}

// The jam of fewest cells, where the last due slot is `slots`; none where no link is overfull. The places for the counts
// are made once, and only as many as there are slots are cleared for each link.
#[tactic(auto, unfolding(jam::specs::Jam::fewest_below, jam::specs::Jam::the_jam))]
pub fn find_jam(cargo: Cargo, left: &[u16], slots: u16) -> Option<Jam>
    requires { Searched (traffic_of cargo) left.now (suc slots) }
    ensures { result ≡ the_jam (traffic_of cargo.entry) left.now slots }
{
    let mut room: [u16; 1025] = zeros();
    let counts = &mut room[..slots as usize + 1];
    let mut found = None;
    for link in 0..cargo.nodes {
        found = fewer_of(found, first_in(cargo, left, slots, link, counts));
    }
    found
}
