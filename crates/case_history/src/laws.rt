//! Laws of histories, in every field of characteristic zero.
ghost use Rattle.std.specs.Prelude.{◌≡◌, ◌<◌, ◌⊎◌, ℕ, reverse};
ghost use Rattle.field_laws.specs.Field.{AllElements};
ghost use Rattle.derive_lines.specs.Refuting.{AllVanish, AllHold, HoldsAt};
ghost use Rattle.refute_store.specs.Live.{IsPattern};
ghost use Rattle.leaf_cert.specs.Leaves.{Meets};
ghost use Rattle.case_history.specs.History.{cases_made, patterns, IsPending, IsComplete};
ghost use Rattle.case_history.specs.Replay.{Replays, Accepted, HasRefutation, SettlesAt};
ghost use Rattle.case_history.specs.JustOne.{IsAtJustOne, MeetsJustOneLeaf};

use derive_lines::refutation_law;
use field_laws::{CharZeroField, decide_law};
use leaf_cert::leaf_law;

/// In every field: after any replay an assignment is a zero of the root exactly if it holds at a pending case or meets a published leaf, and then
/// at just one case.
pub fn history_law<F: CharZeroField>()
    ensures { (s : _) (root h : _) → AllElements F.field s → Replays root h → IsAtJustOne (AllVanish F.field s root) (HoldsAt F.field s root) (Meets F.field s) h }
{
    decide_law::<F>();
    refutation_law::<F>();
    leaf_law::<F>();
}

/// In every field: after a replay that leaves no case pending an assignment is a zero of the root exactly if it meets just one of the leaves.
pub fn leaves_law<F: CharZeroField>()
    ensures { (s : _) (root h : _) → AllElements F.field s → Replays root h → IsComplete h → MeetsJustOneLeaf (AllVanish F.field s root) (Meets F.field s) (reverse h) }
{
    history_law::<F>();
}

/// In every field: where a certificate is accepted, an assignment is a zero of the root exactly if it meets just one of its leaves.
pub fn accepted_law<F: CharZeroField>()
    ensures { (s : _) (unknowns root c : _) → AllElements F.field s → Accepted unknowns root c → MeetsJustOneLeaf (AllVanish F.field s root) (Meets F.field s) c.entries }
{
    leaves_law::<F>();
}

/// Each posted pattern has a refutation that checks, and so in every field no zero of the root meets all its decisions.
pub fn pattern_law<F: CharZeroField>()
    ensures refuted { (root h k pattern : _) → Replays root h → IsPattern (patterns h) k pattern → HasRefutation root pattern }
    ensures unsolved { (s : _) (root h k pattern : _) → AllElements F.field s → Replays root h → IsPattern (patterns h) k pattern → AllVanish F.field s root → AllHold F.field s pattern → ⊥ }
{
    refutation_law::<F>();
}

/// Each case that was made is pending or was settled by just one entry, and no other case was settled.
pub fn once_law()
    ensures each { (root h n : _) → Replays root h → n < cases_made h → IsPending h n ⊎ ((place : ℕ) × SettlesAt h n place) }
    ensures apart { (root h n place : _) → Replays root h → IsPending h n → SettlesAt h n place → ⊥ }
    ensures once { (root h n place other : _) → Replays root h → SettlesAt h n place → SettlesAt h n other → place ≡ other }
    ensures made { (root h n place : _) → Replays root h → SettlesAt h n place → n < cases_made h }
{}
