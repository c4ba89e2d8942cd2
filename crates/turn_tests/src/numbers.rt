use turn_lock::{Job, Kept};

/// A list of numbers, whose history is itself.
#[derive(Drop)]
pub struct Numbers {
    pub items: Vec<u64>,
}

impl Kept for Numbers {
    type Entry = u64;

    type Origin = ();

    ghost origin = { λ _. tt };

    ghost history = { λ n. n.items.items };
}

/// To append a number. The reply is whether it was appended; where no memory is left it was not.
#[derive(Drop)]
pub struct Append {
    pub number: u64,
}

impl Job<Numbers> for Append {
    ghost use Rattle.std.specs.Prelude.{◌≡◌, [], ◌++◌, ◌∷◌, MatchBool};

    type Reply = bool;

    ghost from = { λ _. tt };

    ghost base = { λ _. [] };

    ghost test = { λ j found left reply. MatchBool reply (left ≡ found ++ j.number ∷ []) (left ≡ found) };

    fn act(&mut self, value: &mut Numbers) -> bool {
        value.items.push(self.number).is_ok()
    }
}
