ghost use Rattle.std.specs.Prelude.{⊤, IfSome};
ghost use Rattle.std.specs.Iterator.{DrainsIf, IsFinite};

use std::alloc::Global;
use std::env;
use std::env::Env;

/// Where the words after the program's name come from.
///
/// An implementation says whether words are given, and which, where that is known.
pub trait CommandLine {
    ghost use Rattle.std.specs.Prelude.{◌≡◌, List, Option, IfSome, option_map};
    ghost use Rattle.command_line.specs.Words.{Text, bytes_of};

    ghost given: { Self → Option (Option (List Text)) };

    /// The words. `None` where they are not given, which may be for want of memory.
    fn words(self) -> Option<Vec<String>>
        ensures { IfSome (given self) (λ words. option_map (λ all. bytes_of all.items) result ≡ words) };
}

/// The words that the system gives.
impl CommandLine for HostRuntime {
    ghost use Rattle.std.specs.Prelude.{None};

    ghost given = { λ _. None };

    fn words(self) -> Option<Vec<String>> {
        words_of(&self)
    }
}

/// These words, or none.
impl CommandLine for Option<Vec<String>> {
    ghost use Rattle.std.specs.Prelude.{Some, option_map};
    ghost use Rattle.command_line.specs.Words.{bytes_of};

    ghost given = { λ words. Some (option_map (λ all. bytes_of all.items) words) };

    fn words(self) -> Option<Vec<String>> {
        self
    }
}

// The words after the program's name, if the system gives them.
fn words_of<R: Env + Alloc<A = Global>>(rt: &R) -> Option<Vec<String>> {
    let mut args = env::args(rt).ok()?;
    args.next();
    gathered(rt.alloc(), args)
}

// All words, in order. `None` where memory runs out.
fn gathered<I: Iterator<Item = String>>(alloc: Global, words: I) -> Option<Vec<String>>
where
    I: Drop,
    requires can { I.can_next words }
    requires finite { IsFinite (I.remaining words) }
    ensures { IfSome result (λ all. DrainsIf I.next_gives ⊤ words all.items) }
{
    words.collect(alloc).ok()
}
