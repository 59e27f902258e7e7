//! Modules that contain themselves.

ghost use Rattle.std.specs.Prelude.{◌≡◌, ℕ, ◌<◌, [], ◌∷◌, Some, IfOk, OnOk};
ghost use Rattle.std.specs.List.{slice_get};
ghost use Rattle.hier_flatten.specs.Hierarchy.{IsFinite};
ghost use Rattle.hier_flatten.specs.Search.{IsSearch, AreMet, Looked, work};
ghost use Rattle.hier_flatten.specs.declared.circle.Mark.TheVariants as kinds;

use crate::index::Index;
use crate::stack::Stack;
use std::alloc::{AllocError, Global};
use verilog_net::Instance;

/// How far a module has been looked through: not yet, in part, or with all that is below it.
#[derive(Clone, Copy, Debug, PartialEq, Eq)]
pub enum Mark {
    New,
    Open,
    Done,
}

/// A module that is being looked through, by its number, and those of its instances that are left.
#[derive(Drop)]
pub struct Visit<'a> {
    number: usize,
    rest: &'a [Instance],
}

/// Goes on by one instance of a module, which was taken from the stack; one with no instance left is appended to
/// `order`. Answers whether a module contains itself.
fn look<'a>(
    index: &Index<'a>,
    marks: &mut [Mark],
    stack: &mut Stack<Visit<'a>>,
    order: &mut Vec<usize>,
    place: Visit<'a>,
) -> Result<bool, AllocError>
    requires { IsSearch index.now marks.old (place ∷ stack.old) }
    ensures goes { IfOk result (Looked index.now (IsSearch index.now marks.new stack.new)) }
    ensures met { AreMet marks.old marks.new }
    ensures less { OnOk result
        (work index.now marks.new stack.new < work index.now marks.old (place.entry ∷ stack.old)) }
{
    let Visit { number, rest } = place;
    let [instance, more @ ..] = rest else {
        order.push(number)?;
        marks[number] = Mark::Done;
        return Ok(false);
    };
    if let Some(below) = index.number(instance.cell.bytes()) {
        match marks[below] {
            Mark::Done => {}
            Mark::Open => return Ok(true),
            Mark::New => {
                // The instance is looked at again once its module is done.
                stack.push(Visit { number, rest })?;
                marks[below] = Mark::Open;
                stack.push(Visit {
                    number: below,
                    rest: index.instances(below),
                })?;
                return Ok(false);
            }
        }
    }
    stack.push(Visit { number, rest: more })?;
    Ok(false)
}

/// Looks through a module and all that is below it, which are appended to `order`. Answers whether one of these
/// contains itself.
fn search<'a>(
    alloc: Global,
    index: &Index<'a>,
    marks: &mut [Mark],
    order: &mut Vec<usize>,
    number: usize,
) -> Result<bool, AllocError>
    requires search { IsSearch index.now marks.old [] }
    requires new { slice_get marks.old number ≡ Some kinds.New }
    ensures { IfOk result (Looked index.now (IsSearch index.now marks.new []
        × IsFinite index.now number)) }
{
    let mut stack = Stack::new(alloc);
    marks[number] = Mark::Open;
    stack.push(Visit {
        number,
        rest: index.instances(number),
    })?;
    'places: while let Some(place) = stack.pop() {
        if look(index, marks, &mut stack, order, place)? {
            return Ok(true);
        }
    }
    Ok(false)
}

/// Whether some module contains itself, at some depth. Where none does, the numbers of all are appended to `order`,
/// each after those of the modules below it.
pub fn contains_itself(
    alloc: Global,
    index: &Index,
    order: &mut Vec<usize>,
) -> Result<bool, AllocError>
    ensures { IfOk result (Looked index.now ((number : ℕ) → IsFinite index.now number)) }
{
    let mut marks = vec![in alloc; Mark::New; index.modules().len()]?;
    for number in 0..marks.len() {
        if marks[number] == Mark::New && search(alloc, index, &mut marks, order, number)? {
            return Ok(true);
        }
    }
    Ok(false)
}
