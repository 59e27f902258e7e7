//! The numbers of the nodes of one net, by the numbers of their names in the parasitics.

ghost use Rattle.std.specs.Prelude.{◌≡◌, ◌<◌, ◌^◌, length, map};
ghost use Rattle.std.specs.List.{All, slice_get};
ghost use Rattle.xt_model.specs.Names.{IsName};
ghost use Rattle.name_parts.specs.Own.{HaveOwnNumbers};
ghost use Rattle.link_wires.specs.Marks.{mark_of, AreMarks, MarksOneMore};

use name_parts::NameParts;
use spef_read::Parasitics;
use xt_model::Name;

/// The number of a node of the net that had this turn.
#[derive(Clone, Copy)]
pub struct Mark {
    pub turn: u32,
    pub number: u32,
}

/// The number that the node of the name at a place has in a turn.
pub fn marked(marks: &[Mark], turn: u32, place: u32) -> Option<u32>
    ensures { result ≡ mark_of turn (slice_get marks.now place) }
{
    match marks.get(place as usize) {
        None => None,
        Some(mark) => {
            if mark.turn == turn {
                Some(mark.number)
            } else {
                None
            }
        }
    }
}

/// Marks the name of an end, where the parasitics have it; of two ends with one name the first counts.
fn mark_end(parasitics: &Parasitics, marks: &mut [Mark], turn: u32, end: &Name, number: u32)
    requires own { HaveOwnNumbers (map (λ e. e.0) parasitics.now.names) }
    requires count { length marks.old ≡ length parasitics.now.names }
    ensures count { length marks.new ≡ length marks.old }
    ensures name { IsName end.now }
    ensures marks { MarksOneMore (map (λ e. e.0) parasitics.now.names) turn number end.now marks.old marks.new }
{
    let Some(place) = parasitics.names.number(NameParts::of(end.bytes())) else {
        return;
    };
    if marks[place as usize].turn == turn {
        return;
    }
    marks[place as usize] = Mark { turn, number };
}

/// Marks the names of the ends of a net, which comes after all that had a turn.
pub fn mark_ends(parasitics: &Parasitics, marks: &mut [Mark], turn: u32, ends: &[Name])
    requires own { HaveOwnNumbers (map (λ e. e.0) parasitics.now.names) }
    requires count { length marks.old ≡ length parasitics.now.names }
    requires past { All (λ m. m.turn < turn) marks.old }
    requires few { length ends.now < 2 ^ 32 }
    ensures names { All IsName ends.now }
    ensures marks { AreMarks (map (λ e. e.0) parasitics.now.names) ends.now turn marks.new }
{
    for number in 0..ends.len() {
        mark_end(parasitics, marks, turn, &ends[number], number as u32);
    }
}
