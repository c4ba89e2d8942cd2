// What stands under the lock, and what is done to it.
ghost use Rattle.std.specs.Prelude.{◌≡◌, List};
ghost use mathlib.Core.List.{IsPrefix};

/// A value that stores its own history: a list of entries, the oldest first. Its origin is what no job changes.
pub trait Kept: Drop {
    type Entry;

    type Origin;

    ghost origin: { Self → Self.Origin };

    ghost history: { Self → List Self.Entry };
}

/// What is done to the value at one turn.
///
/// `from` is the origin of the values that it may be done to, and `base` what their history begins with. `test` tells whether a history found, a
/// history left and a reply are those of the job, as it was before the call.
pub trait Job<V: Kept> {
    type Reply;

    ghost from: { Self → V.Origin };

    ghost base: { Self → List V.Entry };

    ghost test: { Self → List V.Entry → List V.Entry → Self.Reply → Type 0 };

    /// Does the job. It may add entries at the end of the history, and takes none away.
    fn act(&mut self, value: &mut V) -> Self::Reply
        requires origin { V.origin value.old ≡ from self.old }
        requires base { IsPrefix (base self.old) (V.history value.old) }
        ensures origin { V.origin value.new ≡ V.origin value.old }
        ensures history { IsPrefix (V.history value.old) (V.history value.new) }
        ensures test { test self.old (V.history value.old) (V.history value.new) result };
}
