ghost use Rattle.std.specs.Prelude.{◌*◌, ◌<◌, ◌%◌, min, max};
ghost use Rattle.xt_meaning.specs.Words.{MovesDown, MovesUp};
ghost use Rattle.chaos_core.specs.Boards.{Knowledge, nets_of, CanPublish, Draws, IsSeen, Loads, Publishes};

/// Words that hold the bounds of windows, and a counter from which numbers are drawn. Word 8 net + 4 edge + side
/// holds the bound `side` of that net and edge plus 2^62, with 0 for rise and 1 for fall, and sides 0 to 3 for the
/// least time, the greatest time, the least slew and the greatest slew. Others may move the same words between
/// two calls, always onward. No call takes memory or refuses.
pub trait Board {
    ghost knows: { Self → Knowledge };

    /// The number in a word. It is at or past what was seen there, and is then what is seen there.
    fn load(&mut self, word: usize) -> u64
        requires word { word < 8 * nets_of (knows self.old).setting }
        ensures loads { Loads (knows self.old) word result (knows self.new) }
        ensures seen { IsSeen (knows self.new).setting (knows self.new).seen };

    /// Leaves the least of the number in a word and `value` there, and answers the number before.
    fn lower(&mut self, word: usize, value: u64) -> u64
        requires word { word < 8 * nets_of (knows self.old).setting }
        requires way { MovesDown (knows self.old).setting.way (word % 2) }
        requires value { CanPublish (knows self.old) word value }
        ensures publishes { Publishes (knows self.old) word result (min result value) (knows self.new) }
        ensures seen { IsSeen (knows self.new).setting (knows self.new).seen };

    /// Leaves the greatest of the number in a word and `value` there, and answers the number before.
    fn raise(&mut self, word: usize, value: u64) -> u64
        requires word { word < 8 * nets_of (knows self.old).setting }
        requires way { MovesUp (knows self.old).setting.way (word % 2) }
        requires value { CanPublish (knows self.old) word value }
        ensures publishes { Publishes (knows self.old) word result (max result value) (knows self.new) }
        ensures seen { IsSeen (knows self.new).setting (knows self.new).seen };

    /// Reads a word and tells nothing, so that the cache can have it when it is loaded.
    fn touch(&self, word: usize)
        requires word { word < 8 * nets_of (knows self.now).setting };

    /// A number greater than every number that this holder drew since the last restart.
    fn draw(&mut self) -> u64
        requires { 0 < (knows self.old).late }
        ensures draws { Draws (knows self.old) result (knows self.new) }
        ensures seen { IsSeen (knows self.new).setting (knows self.new).seen };
}
