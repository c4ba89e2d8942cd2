//! Words have one answer.

ghost use Rattle.std.specs.Prelude.{◌≡◌};
ghost use Rattle.run_words.specs.Words.{IsSettings, IsUsageFault};

/// Words ask for one list of settings, or one thing is wrong with them, and not both.
pub fn settings_law()
    ensures one { (words first second : _) → IsSettings words first → IsSettings words second → first ≡ second }
    ensures not_both { (words settings kind : _) → IsSettings words settings → IsUsageFault words kind → ⊥ }
    ensures one_fault { (words first second : _) → IsUsageFault words first → IsUsageFault words second → first ≡ second }
{}
