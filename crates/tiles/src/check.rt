// The index check.
ghost use Rattle.std.specs.Prelude.{◌≡◌, [], ◌++◌, ◌≤◌, length, drop, replicate};
ghost use Rattle.tiles.specs.Check.{first_bad, judged, marked, marks_passed, check_of, marks_of};

use crate::ByList;
use arc::Refusal;
use card::Card;

// Marks the numbers named, up to the first bad entry; the first `count` marks are 0 before. Refuses a bad entry.
fn mark_entries(index: &[u32], count: usize, marks: &mut [u8]) -> Result<(), Refusal>
    requires room { count ≤ length marks.old }
    requires cleared { marks.old ≡ marked count [] marks.old }
    ensures answer { result ≡ judged count index.now (first_bad count index.now) }
    ensures left { marks.new ≡ marks_passed count index.now marks.old }
{
    let mut named = 0;
    for (i, &entry) in index.iter().enumerate() {
        let e = entry as usize;
        if count < e {
            return Err(Refusal::Entry { at: i as u64 });
        }
        if e != 0 {
            if marks[e - 1] != 0 {
                return Err(Refusal::Entry { at: i as u64 });
            }
            marks[e - 1] = 1;
            named += 1;
        }
    }
    if named < count {
        return Err(Refusal::Entry {
            at: index.len() as u64,
        });
    }
    Ok(())
}

/// Whether each number from 1 to the count occurs exactly once in a list; mark k − 1 is 1 where number k does, else 0. Refuses `Length`, also of marks that are
/// fewer than the count; `Entry` at the first entry that is above the count or repeats one, and at the list's length where a number is missing; the marks then are
/// those of the entries before, and on `Length` they stay.
#[tactic(auto, unfolding(crate::specs::Check::check_of, crate::specs::Check::marks_of))]
pub fn index_check(card: Card, index: &[u32], count: u64, marks: &mut [u8]) -> Result<(), Refusal>
    ensures answer { result ≡ check_of card index.now count marks.old }
    ensures left { marks.new ≡ marks_of card index.now count marks.old }
{
    let list = ByList {
        entries: index,
        count,
    };
    if list.is_wrong(card) || (marks.len() as u64) < count {
        return Err(Refusal::Length);
    }
    let n = count as usize;
    if !card.fields().tif {
        marks[..n].fill(1);
        return Ok(());
    }
    marks[..n].fill(0);
    mark_entries(index, n, marks)
}
