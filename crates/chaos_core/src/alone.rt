//! A round of one worker. Nobody moves the words between its loads, so that it evaluates each net on the windows whose
//! numbers are in the words as they are, and makes the picks of a net's loads in one go. It passes over a net where
//! nothing that decides it has changed since it was evaluated: an evaluation would give back the words that the net
//! has.

ghost use Rattle.std.specs.Prelude.{◌≡◌, ℕ, ◌<◌, List, length, slice_index};
ghost use Rattle.xt_model.specs.Levels.{IsOrder};
ghost use Rattle.xt_meaning.specs.Barrier.{IsFittingStart};
ghost use Rattle.xt_meaning.specs.Fixpoint.{IsWindows};
ghost use Rattle.xt_meaning.specs.Words.{numbers_of};
ghost use Rattle.table_box.specs.Groups.{AreGroups};
ghost use Rattle.net_eval.specs.ReadLists.{AreReadLists};
ghost use Rattle.drawn_numbers.specs.Draws.{after};
ghost use Rattle.chaos_core.specs.Steps.{FitsPublishing};
ghost use Rattle.chaos_core.specs.Memories.{IsKept, knowledge_of};
ghost use Rattle.chaos_core.specs.Rounds.{IsRound, pause_at};
ghost use Rattle.chaos_core.specs.OnlyWorker.{IsTurn, made_of, published};
ghost use Rattle.chaos_core.specs.TurnMarks.{AreListed, AreMarks};

use crate::answers::tell;
use crate::listed::NetLists;
use crate::marks::TurnMarks;
use crate::memory::MemoryBoard;
use crate::steps::publish;
use crate::words::number_in;
use drawn_numbers::Source;
use net_eval::{ReadLists, eval_grouped};
use xt_model::{Design, Direction, NetId, Pair, Windows};

/// Draws this many numbers, each of which picks the only worker.
fn pick_only(source: &mut Source, picks: usize)
    ensures { source.new.state ≡ after source.old.state picks }
{
    for _pick in 0..picks {
        source.draw(1);
    }
}

/// What the operator makes of a net of the words, by the windows whose numbers are in these.
fn made(
    board: &MemoryBoard,
    windows: &Windows,
    design: &Design,
    groups: &[usize],
    net: NetId,
) -> Pair
    requires groups { AreGroups design.now.tables groups.now }
    requires design { board.now.setting.design ≡ design.now }
    requires numbers { numbers_of windows.now ≡ board.now.words }
    requires net { net.0 < length design.now.nets }
    ensures value { result ≡ made_of design.now board.now.words net.0 }
    ensures fits { FitsPublishing (knowledge_of board.now) net.0 result 0 }
    ensures windows { IsWindows design.now windows.now }
    ensures kept { IsKept board.now }
{
    prove!(windows.pairs().len() == board.words().len() / 8);
    eval_grouped(design, groups, net, windows)
}

/// Publishes all words of a net.
fn publish_all(board: &mut MemoryBoard, direction: Direction, net: NetId, pair: &Pair)
    requires direction { board.old.setting.way ≡ direction }
    requires fits { FitsPublishing (knowledge_of board.old) net.0 pair.now 0 }
    ensures setting { board.new.setting ≡ board.old.setting }
    ensures words { board.new.words ≡ published direction net.0 pair.now board.old.words 8 }
{
    for place in 0..8 {
        let word = 8 * net.0 as usize + place as usize;
        publish(board, direction, word, number_in(pair, place));
    }
}

/// Moves a net to the windows of a pair, and notes that it moves and which answers turn.
fn move_to(
    board: &mut MemoryBoard,
    windows: &mut Windows,
    design: &Design,
    listed: &NetLists,
    direction: Direction,
    net: NetId,
    pair: &Pair,
    marks: &mut TurnMarks,
)
    requires design { board.old.setting.design ≡ design.now }
    requires direction { board.old.setting.way ≡ direction }
    requires listed { AreListed design.now listed.now }
    requires net { net.0 < length design.now.nets }
    requires made { pair.now ≡ made_of design.now board.old.words net.0 }
    requires fits { FitsPublishing (knowledge_of board.old) net.0 pair.now 0 }
    requires kept { IsKept board.old }
    requires windows { IsWindows design.now windows.old }
    requires numbers { numbers_of windows.old ≡ board.old.words }
    requires marks { AreMarks design.now board.old.words marks.old }
    ensures setting { board.new.setting ≡ board.old.setting }
    ensures numbers { numbers_of windows.new ≡ board.new.words }
    ensures words { board.new.words ≡ published direction net.0 pair.now board.old.words 8 }
    ensures marks { AreMarks design.now board.new.words marks.new }
    ensures turn { marks.new.turn ≡ marks.old.turn }
{
    tell(windows, design, listed, direction, net, pair, marks);
    marks.note_look(net);
    marks.note_move(net);
    publish_all(board, direction, net, pair);
    windows.set(net.0 as usize, *pair);
}

/// The turn of the only worker at a net: it draws the net's place, loads the words of its read list and publishes.
fn turn(
    board: &mut MemoryBoard,
    windows: &mut Windows,
    design: &Design,
    groups: &[usize],
    lists: &ReadLists,
    listed: &NetLists,
    direction: Direction,
    net: NetId,
    source: &mut Source,
    marks: &mut TurnMarks,
)
    requires groups { AreGroups design.now.tables groups.now }
    requires design { board.old.setting.design ≡ design.now }
    requires direction { board.old.setting.way ≡ direction }
    requires lists { AreReadLists design.now lists.now }
    requires listed { AreListed design.now listed.now }
    requires net { net.0 < length design.now.nets }
    requires numbers { numbers_of windows.old ≡ board.old.words }
    requires marks { AreMarks design.now board.old.words marks.old }
    ensures setting { board.new.setting ≡ board.old.setting }
    ensures numbers { numbers_of windows.new ≡ board.new.words }
    ensures turn { (order : List ℕ) (place : ℕ) → place < length design.now.nets → slice_index order place ≡ net.0
        → IsTurn board.old.setting lists.now order place (pause_at source.old.state board.old)
        (pause_at source.new.state board.new) }
    ensures marks { AreMarks design.now board.new.words marks.new }
{
    pick_only(source, 1);
    pick_only(source, 8 * lists.of(net).len());
    pick_only(source, 8);
    marks.begin_turn();
    if marks.is_settled(net, design.net(net.0 as usize)) {
        return;
    }
    marks.read_ahead(design, net);
    let pair = made(board, windows, design, groups, net);
    if windows.pair(net.0 as usize).same(&pair) {
        marks.note_look(net);
        return;
    }
    move_to(board, windows, design, listed, direction, net, &pair, marks);
}

/// One round of one worker, turn by turn. Where nothing that decides a net has changed since it was evaluated, its
/// words are what the operator makes of it. The windows stay those whose numbers are in the words. Takes no memory.
pub(crate) fn round_alone(
    board: &mut MemoryBoard,
    windows: &mut Windows,
    design: &Design,
    groups: &[usize],
    lists: &ReadLists,
    listed: &NetLists,
    direction: Direction,
    source: &mut Source,
    marks: &mut TurnMarks,
)
    requires groups { AreGroups design.now.tables groups.now }
    requires design { board.old.setting.design ≡ design.now }
    requires direction { board.old.setting.way ≡ direction }
    requires lists { AreReadLists design.now lists.now }
    requires listed { AreListed design.now listed.now }
    requires numbers { numbers_of windows.old ≡ board.old.words }
    requires marks { AreMarks design.now board.old.words marks.old }
    ensures setting { board.new.setting ≡ board.old.setting }
    ensures numbers { numbers_of windows.new ≡ board.new.words }
    ensures fits { IsFittingStart direction design.now windows.new }
    ensures round { (order : List ℕ) → IsOrder design.now.nets order
        → IsRound board.old.setting lists.now order 1 (pause_at source.old.state board.old)
        (pause_at source.new.state board.new) }
    ensures marks { AreMarks design.now board.new.words marks.new }
{
    let order = design.order();
    for place in 0..order.len() {
        turn(
            board,
            windows,
            design,
            groups,
            lists,
            listed,
            direction,
            NetId(order[place]),
            source,
            marks,
        );
    }
    pick_only(source, 1);
    prove!(windows.pairs().len() == board.words().len() / 8);
}
